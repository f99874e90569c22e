//! Aliases: a layer over a source under which programs are cut as others.
ghost use Rattle.std.specs.Prelude.{◌≡◌, [], Err, MatchResult};
ghost use Rattle.layers.specs.Held.{held};
ghost use Rattle.layers.specs.Aliases.{alias_of, after_alias, Alias, cutting_as};
ghost use Rattle.layers.specs.Laws.{cutting_as_lawful};

use crate::table::{Table, add};
use capability::Source;
use vocabulary::{Mill, Program, Refusal};

/// A program, and the one that it is cut as.
#[derive(Clone, Copy, Default)]
pub(crate) struct Entry {
    program: Program,
    cut_as: Program,
}

/// A source that answers for some programs as another, which it holds, answers for their aliases. At most 32 programs have one.
/// A program without an alias is itself, and an alias of an alias is not followed.
// Why this is no generic layer stands at `Table`.
#[derive(Drop)]
pub struct Aliases<S> {
    source: S,
    table: Table<Entry>,
}

impl<S> Aliases<S> {
    /// A layer over a source under which every program is itself.
    pub fn new(source: S) -> Aliases<S>
        ensures below { result.source ≡ source }
        ensures entries { held result.table ≡ [] }
    {
        Aliases {
            source,
            table: Table::new(),
        }
    }

    /// Has a program cut as another from now on. A second alias of a program replaces the first.
    /// An alias of a 33rd program is refused, and changes nothing.
    pub fn alias(&mut self, program: Program, cut_as: Program) -> Result<(), Refusal>
        ensures below { self.new.source ≡ self.old.source }
        ensures entries { MatchResult result (λ _. Alias program.0 cut_as.0 (held self.old.table) (held self.new.table)) (λ e. (after_alias program.0 cut_as.0 (held self.old.table) ≡ Err e) × (held self.new.table ≡ held self.old.table)) }
    {
        let entry = Entry { program, cut_as };
        match self.table.iter().position(|held| held.program == program) {
            Some(place) => {
                self.table[place] = entry;
                Ok(())
            }
            None => add(&mut self.table, entry),
        }
    }

    /// The program that a program is cut as.
    fn alias_of(&self, program: Program) -> Program
        ensures { result.0 ≡ alias_of (held self.now.table) program.0 }
    {
        // A loop, and no chain: over a chain that finds, the longest table takes half as long again.
        for entry in self.table.iter() {
            if entry.program == program {
                return entry.cut_as;
            }
        }
        program
    }
}

impl<S: Source> Source for Aliases<S> {
    ghost meaning = { λ layer. cutting_as (held layer.table) (S.Source.meaning layer.source) };

    ghost lawful = { λ layer. cutting_as_lawful (held layer.table) (S.Source.meaning layer.source) (S.Source.lawful layer.source) };

    fn mills(&self) -> u8 {
        self.source.mills()
    }

    fn able(&self, program: Program, mill: Mill) -> bool {
        self.source.able(self.alias_of(program), mill)
    }
}
