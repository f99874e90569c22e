//! The tool rule: the tables of a shop, and the source that answers from them.
ghost use Rattle.std.specs.Prelude.{◌≡◌, ◌≤◌, [], IfOk, if◌then◌else◌, Some, None, vec_len, MatchResult};
ghost use Rattle.tools.specs.Tools.{magazine_fault, first_fault, fits, can_cut, sound_mills};
ghost use Rattle.tools.specs.Stored.{row_of, rows_of};

use crate::magazine::Magazine;
use sets::NumberSet;
use std::alloc::{AllocError, Global};
use vocabulary::Refusal;

pub mod source;

/// Three lengths in whole millimetres.
#[derive(Clone, Copy, Default)]
pub struct Extent {
    pub x: u16,
    pub y: u16,
    pub z: u16,
}

impl Extent {
    /// Whether a blank of these lengths is no longer than the travel on any axis.
    fn fits(self, travel: Extent) -> bool
        ensures { result ≡ fits self travel }
    {
        self.x <= travel.x && self.y <= travel.y && self.z <= travel.z
    }
}

/// A row of the mill table: the tools in a mill's magazine, bit 0 for tool 0, and the travel of its axes.
#[derive(Clone, Copy, Default)]
pub struct MillRow {
    // Bits, and no set: programs write their tables as constants, and a constant may call no function.
    pub tools: u64,
    pub travel: Extent,
}

/// A row of the program table: the tools that a program needs, bit 0 for tool 0, and the lengths of its blank.
#[derive(Clone, Copy, Default)]
pub struct ProgramRow {
    // Bits, as in a row of the mill table.
    pub tools: u64,
    pub blank: Extent,
}

/// Refuses the first magazine of a mill table that holds more than 20 tools.
pub fn check_mills(rows: &[MillRow]) -> Result<(), Refusal>
    ensures { MatchResult result (λ _. first_fault rows.now ≡ None) (λ e. first_fault rows.now ≡ Some e) }
{
    for row in rows {
        Magazine::of(row)?;
    }
    Ok(())
}

/// The most mills that a shop has.
const MOST_MILLS: usize = 64;

/// A mill whose magazine was checked.
#[derive(Clone, Copy)]
struct ToolMill {
    magazine: Magazine,
    travel: Extent,
}

impl TryFrom<MillRow> for ToolMill {
    type Error = Refusal;

    ghost try_from_gives = { λ row r. MatchResult r (λ mill. (magazine_fault row ≡ None) × (row_of mill ≡ row)) (λ e. magazine_fault row ≡ Some e) };

    fn try_from(row: MillRow) -> Result<ToolMill, Refusal> {
        Ok(ToolMill {
            magazine: Magazine::of(&row)?,
            travel: row.travel,
        })
    }
}

impl ToolMill {
    /// Whether the mill can cut a program.
    fn can_cut(self, program: ProgramRow) -> bool
        ensures { result ≡ can_cut (row_of self) program }
    {
        self.magazine.has_all(NumberSet::from_bits(program.tools))
            && program.blank.fits(self.travel)
    }
}

/// The mills of a table, checked once: none where a magazine is faulty, or where there are more than 64 mills.
fn checked_mills(heap: Global, table: &[MillRow]) -> Result<Vec<ToolMill>, AllocError>
    ensures { IfOk result (λ v. rows_of v.items ≡ (if sound_mills table.now then table.now else [])) }
{
    let mut mills = Vec::new(heap);
    if table.len() > MOST_MILLS {
        return Ok(mills);
    }
    for row in table {
        let Ok(mill) = ToolMill::try_from(*row) else {
            return Ok(Vec::new(heap));
        };
        mills.push(mill)?;
    }
    Ok(mills)
}

/// A source over the tables of a shop. A mill table with a faulty magazine, or of more than 64 mills, means no mill and no pair.
#[derive(Drop)]
pub struct ToolSource {
    mills: Vec<ToolMill>,
    programs: Vec<ProgramRow>,
    ghost few: { vec_len mills ≤ 64 },
}
