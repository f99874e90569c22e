//! The four calls of a board, and their answers.
use vocabulary::{Mill, Program, Ticket};

/// How many tickets there are: the number of a ticket is below this.
pub(crate) const TICKETS: u16 = 1024;

/// A call that changes a board.
#[derive(Clone, Copy, PartialEq, Eq, Debug)]
pub enum Call {
    /// A ticket comes, with its program.
    Add { ticket: Ticket, program: Program },
    /// A ticket is finished and goes.
    Done { ticket: Ticket },
    /// A mill goes out of service, and its tickets to other mills.
    Withdraw { mill: Mill },
    /// A mill comes back into service.
    Return { mill: Mill },
}

/// What an accepted call answers: how many tickets it moved, and of an added ticket the mill that it stands on.
// No struct with an `Option` of a mill: the two cases say which calls tell one.
#[derive(Clone, Copy, PartialEq, Eq, Debug)]
pub enum Answer {
    Added { mill: Mill, count: u16 },
    Moved { count: u16 },
}

impl Answer {
    ghost use Rattle.std.specs.Prelude.{◌≡◌};
    ghost use Rattle.board.specs.Records.{count_in};

    /// How many tickets the call moved.
    pub fn count(self) -> u16
        ensures { result ≡ count_in self }
    {
        match self {
            Answer::Added { count, .. } | Answer::Moved { count } => count,
        }
    }
}
