//! The two questions that every capability source answers.
ghost use Rattle.std.specs.Prelude.{◌≡◌};
ghost use Rattle.capability.specs.Meaning.{Meaning, Lawful};

use vocabulary::{Mill, Program};

/// A source of a shop's abilities. Its maker shows the law and the two answers, and nothing else.
pub trait Source {
    /// What the source means.
    ghost meaning: { Self → Meaning };

    /// How many mills there are.
    fn mills(&self) -> u8
        ensures { result ≡ (meaning self.now).mills };

    /// Whether a mill can cut a program.
    // Two arguments and no pair of them: their types tell them apart, and no caller has them as one value.
    fn able(&self, program: Program, mill: Mill) -> bool
        ensures { result ≡ (meaning self.now).able program.0 mill.0 };

    /// The law of a source: what it means is lawful.
    ghost lawful: { (source : Self) → Lawful (meaning source) };
}
