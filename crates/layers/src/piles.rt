//! Layers in a pile: what becomes of a pair on its way through strikes over aliases, and through aliases over strikes.
ghost use Rattle.std.specs.Prelude.{◌≡◌, Err, MatchResult};
ghost use Rattle.layers.specs.Aliases.{after_alias, Alias};
ghost use Rattle.layers.specs.Held.{held};
ghost use Rattle.layers.specs.Piles.{struck_over_aliased, aliased_over_struck};

use crate::aliases::Aliases;
use crate::strikes::Strikes;
use capability::Source;
use vocabulary::{Mill, Program, Refusal};

impl<S> Strikes<Aliases<S>> {
    /// Has a program cut as another from now on, in the layer below the strikes, which stay.
    pub fn alias(&mut self, program: Program, cut_as: Program) -> Result<(), Refusal>
        ensures strikes { self.new.table ≡ self.old.table }
        ensures below { self.new.source.source ≡ self.old.source.source }
        ensures entries { MatchResult result (λ _. Alias program.0 cut_as.0 (held self.old.source.table) (held self.new.source.table)) (λ e. (after_alias program.0 cut_as.0 (held self.old.source.table) ≡ Err e) × (held self.new.source.table ≡ held self.old.source.table)) }
    {
        self.source.alias(program, cut_as)
    }
}

/// Whether a mill can cut a program under strikes over aliases: below, it can cut the alias, and it is not struck for the program itself.
pub fn able_struck_over_aliased<S: Source>(
    strikes: &Strikes<Aliases<S>>,
    program: Program,
    mill: Mill,
) -> bool
    ensures { result ≡ struck_over_aliased (held strikes.now.table) (held strikes.now.source.table) (S.meaning strikes.now.source.source) program.0 mill.0 }
{
    strikes.able(program, mill)
}

/// Whether a mill can cut a program under aliases over strikes: below, it can cut the alias, and it is not struck for the alias.
pub fn able_aliased_over_struck<S: Source>(
    aliases: &Aliases<Strikes<S>>,
    program: Program,
    mill: Mill,
) -> bool
    ensures { result ≡ aliased_over_struck (held aliases.now.table) (held aliases.now.source.table) (S.meaning aliases.now.source.source) program.0 mill.0 }
{
    aliases.able(program, mill)
}
