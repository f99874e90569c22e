//! The answers that a line can hold.
use board::{Answer, Call, Report};
use vocabulary::{Mill, Refusal};

/// What a command is answered.
#[derive(Clone, Copy, PartialEq, Eq, Debug)]
pub enum Reply {
    /// A call was performed, with this answer.
    Called { call: Call, answer: Answer },
    /// The ticket stands on this mill.
    Stands { mill: Mill },
    /// The load of the board.
    Reported { report: Report },
    /// The mill is struck out.
    Struck,
    /// The alias is set.
    Aliased,
    /// The command is refused.
    // A refusal is a reply too, and no `Err`: it is written as a line like the others.
    Refused { refusal: Refusal },
}

impl From<Refusal> for Reply {
    ghost use Rattle.std.specs.Prelude.{◌≡◌};
    ghost use Rattle.wire.specs.declared.reply.Reply.TheVariants.{Refused};

    ghost from_gives = { λ refusal reply. reply ≡ Refused refusal };

    fn from(refusal: Refusal) -> Reply {
        Reply::Refused { refusal }
    }
}
