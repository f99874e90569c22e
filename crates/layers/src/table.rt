//! The tables of the layers: bounded vectors, which never allocate.
ghost use Rattle.std.specs.Prelude.{◌≡◌, Ok, Err, MatchResult};
ghost use Rattle.layers.specs.Held.{held};
ghost use Rattle.layers.specs.Tables.{added};

use arrayvec::ArrayVec;
use vocabulary::Refusal;

/// How many entries a table holds at most.
const MOST: usize = 32;

/// A table of at most 32 entries.
// No generic layer around it: it would make the entries public, and save one constructor.
pub(crate) type Table<T> = ArrayVec<T, MOST>;

/// Adds an entry behind the others; a table of 32 refuses it, and stays as it is.
pub(crate) fn add<T: Drop>(table: &mut Table<T>, entry: T) -> Result<(), Refusal>
    ensures { MatchResult result (λ _. added entry (held table.old) ≡ Ok (held table.new)) (λ e. (added entry (held table.old) ≡ Err e) × (held table.new ≡ held table.old)) }
{
    table.try_push(entry).map_err(|_| Refusal::TableFull)
}
