//! What a source means, as a plain table.
ghost use Rattle.std.specs.Prelude.{◌≡◌, ℕ, ◌&&◌, nat_lt};
ghost use Rattle.sets.specs.Sets.{has};
ghost use Rattle.capability.specs.Meaning.{Lawful};
ghost use Rattle.capability.specs.Rows.{meaning_in};

use crate::source::Source;
use sets::NumberSet;
use vocabulary::{Mill, Program};

/// What a source means, copied: the count of mills, and for each program the set of mills that are able for it.
/// As of any source, it is lawful.
// An array by the number of a program: nothing under a board allocates.
#[derive(Clone, Copy)]
pub struct Abilities {
    mills: u8,
    rows: [NumberSet; 256],
    pub ghost lawful: { Lawful (meaning_in mills rows) },
}

impl Abilities {
    ghost use Rattle.capability.specs.Copied.{copied};

    /// Copies what a source means: asks it for each of its pairs once.
    pub fn of<S: Source>(source: &S) -> Abilities
        ensures { copied result ≡ S.meaning source.now }
    {
        let mills = source.mills();
        let mut rows = [NumberSet::empty(); 256];
        // No `array::from_fn`: what a closure gives in a generic function is not known outside it.
        for (program, row) in rows.iter_mut().enumerate() {
            *row = row_of(source, Program(program as u8), mills);
        }
        Abilities { mills, rows }
    }

    /// How many mills there are.
    pub fn mills(&self) -> u8
        ensures { result ≡ (copied self.now).mills }
    {
        self.mills
    }

    /// The mills that are able for a program.
    pub fn row(&self, program: Program) -> NumberSet
        ensures { (k : ℕ) → has result k ≡ (copied self.now).able program.0 k }
    {
        self.rows[usize::from(program.0)]
    }
}

/// The mills that are able for a program, each of the first `mills` mills asked for once.
fn row_of<S: Source>(source: &S, program: Program, mills: u8) -> NumberSet
    ensures { (k : ℕ) → has result k ≡ (nat_lt k mills && (S.meaning source.now).able program.0 k) }
{
    let mut row = NumberSet::empty();
    for mill in 0..mills {
        if source.able(program, Mill(mill)) {
            row.insert(mill);
        }
    }
    row
}
