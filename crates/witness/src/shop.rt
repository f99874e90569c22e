//! A shop of few mills, whose able pairs are set one by one.
ghost use Rattle.std.specs.Prelude.{◌≡◌, ◌+◌, ◌*◌, ◌<◌, ◌≤◌};
ghost use Rattle.witness.specs.Shops.{meant_by};
ghost use Rattle.std.proofs.Common.{rules, arith};

use capability::Source;
use vocabulary::{Mill, Program};

/// The most mills that such a shop has.
pub const MOST_MILLS: usize = 8;

/// The number of entries in its table: 8 for each of 256 programs.
const PAIRS: usize = 2048;

/// A shop of at most 8 mills, with a table of the pairs that are able.
#[derive(Clone, Copy)]
pub struct Shop {
    mills: u8,
    // One flat table: what the shop means is said of one list.
    pairs: [bool; PAIRS],
    ghost few: { mills ≤ 8 },
}

impl Shop {
    /// A shop of so many mills, or of 8 where that is less, none of which can cut anything.
    pub fn new(mills: u8) -> Shop {
        Shop {
            mills: mills.min(8),
            pairs: [false; PAIRS],
        }
    }

    /// Makes a mill able for a program, if the shop has that mill.
    pub fn allow(&mut self, program: Program, mill: Mill) {
        if mill.0 < self.mills {
            self.pairs[place(program, mill)] = true;
        }
    }
}

/// Where the table has a program and a mill.
fn place(program: Program, mill: Mill) -> usize
    requires { mill.0 < 8 }
    ensures { (result ≡ program.0 * 8 + mill.0) × (result < 2048) }
{
    usize::from(program.0) * 8 + usize::from(mill.0)
}

impl Source for Shop {
    ghost meaning = { λ shop. meant_by shop.mills shop.pairs };

    ghost lawful = { first_of (Prim.search rules, Prim.grind (arith, Self.row.coded.inj)) };

    fn mills(&self) -> u8 {
        self.mills
    }

    fn able(&self, program: Program, mill: Mill) -> bool {
        mill.0 < self.mills && self.pairs[place(program, mill)]
    }
}
