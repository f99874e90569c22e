//! The words that the programs share.
#![tactic(auto)]

ghost use Rattle.std.specs.Prelude.{◌++◌, Some, codes};
ghost use Rattle.std.specs.Fmt.{decimal};
ghost use Rattle.vocabulary.specs.Told.{told};

use std::fmt;
use vocabulary::Refusal;

/// A refusal, told by its number and its place.
#[derive(Clone, Copy)]
pub struct Refused(pub Refusal);

impl fmt::Display for Refused {
    ghost output = { λ refused. Some (codes "refused with " ++ decimal (told refused.0).number ++ codes " at " ++ decimal (told refused.0).place) };

    fn fmt<W: fmt::Write>(&self, f: &mut fmt::Formatter<W>) -> fmt::Result {
        let number = self.0.number();
        let place = self.0.place();
        write!(f, "refused with {number} at {place}")
    }
}
