//! Strikes: a layer over a source that takes pairs of a program and a mill out of it.
ghost use Rattle.std.specs.Prelude.{◌≡◌, [], Err, MatchResult};
ghost use Rattle.layers.specs.Held.{held};
ghost use Rattle.layers.specs.Strikes.{after_strike, Strike, without};
ghost use Rattle.layers.specs.Laws.{without_lawful};

use crate::table::{Table, add};
use capability::Source;
use vocabulary::{Mill, Program, Refusal};

/// A mill that is struck for a program.
#[derive(Clone, Copy, Default, PartialEq, Eq)]
pub(crate) struct Pair {
    program: Program,
    mill: Mill,
}

/// A source without some of the pairs of another, which it holds. At most 32 pairs are struck.
// Why this is no generic layer stands at `Table`.
#[derive(Drop)]
pub struct Strikes<S> {
    pub(crate) source: S,
    table: Table<Pair>,
}

impl<S> Strikes<S> {
    /// A layer over a source that strikes no pair.
    pub fn new(source: S) -> Strikes<S>
        ensures below { result.source ≡ source }
        ensures pairs { held result.table ≡ [] }
    {
        Strikes {
            source,
            table: Table::new(),
        }
    }

    /// Strikes a mill for a program, whether or not the pair is able below. A pair that is struck already is taken, and changes nothing.
    /// A 33rd pair is refused, and changes nothing either.
    pub fn strike(&mut self, program: Program, mill: Mill) -> Result<(), Refusal>
        ensures below { self.new.source ≡ self.old.source }
        ensures pairs { MatchResult result (λ _. Strike program.0 mill.0 (held self.old.table) (held self.new.table)) (λ e. (after_strike program.0 mill.0 (held self.old.table) ≡ Err e) × (held self.new.table ≡ held self.old.table)) }
    {
        let pair = Pair { program, mill };
        if self.table.contains(&pair) {
            return Ok(());
        }
        add(&mut self.table, pair)
    }
}

impl<S: Source> Source for Strikes<S> {
    ghost meaning = { λ layer. without (held layer.table) (S.Source.meaning layer.source) };

    ghost lawful = { λ layer. without_lawful (held layer.table) (S.Source.meaning layer.source) (S.Source.lawful layer.source) };

    fn mills(&self) -> u8 {
        self.source.mills()
    }

    fn able(&self, program: Program, mill: Mill) -> bool {
        self.source.able(program, mill) && !self.table.contains(&Pair { program, mill })
    }
}
