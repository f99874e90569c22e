//! Whether two sheets mean the same.
ghost use Rattle.std.specs.Prelude.{◌≡◌, Err, MatchResult};
ghost use Rattle.sheet.specs.Sheets.{sheet_of, and_then};
ghost use Rattle.sheet.specs.Theorems.{OneSheetEach, Compared};

use crate::reader::check;
use vocabulary::Refusal;

/// Whether two lawful sheets mean the same, which they do exactly when they are the same bytes.
/// Where one is no lawful sheet its fault is told, the left one's first.
pub fn same_meaning(left: &[u8], right: &[u8]) -> Result<bool, Refusal>
    ensures one_sheet_each { OneSheetEach }
    ensures cases { MatchResult result (Compared left.now right.now) (λ e. and_then (sheet_of left.now) (λ _. sheet_of right.now) ≡ Err e) }
{
    check(left)?;
    check(right)?;
    Ok(left == right)
}
