//! Why a call is sent back: one enum for the whole project.
ghost use Rattle.std.specs.Prelude.{◌≡◌};
ghost use Rattle.vocabulary.specs.Told.{told};

use crate::numbers::{Mill, Ticket};

/// A refusal. Each case has a number and a place, which the definition `told` gives once for all promises.
#[derive(Clone, Copy, PartialEq, Eq, Debug)]
pub enum Refusal {
    /// A line with a wrong character, an odd number of digits, under 6 or over 516 of them, or no line feed.
    BadLine { line: u16 },
    /// The count byte differs from the number of payload bytes.
    WrongCount { line: u16 },
    /// The bytes of the frame do not sum to a multiple of 256.
    WrongSum { line: u16 },
    /// A kind that is not due here, a payload length that is wrong for it, or a text that ends too soon or goes on too long.
    NotDue { line: u16 },
    /// A value of a sheet that is out of range or does not rise.
    WrongValue { line: u16 },
    /// A strike or alias table that has 32 other entries.
    TableFull,
    /// A ticket above 1,023.
    NoSuchTicket { ticket: Ticket },
    /// An added ticket that stands already.
    Standing { ticket: Ticket },
    /// A finished ticket that does not stand.
    NotStanding { ticket: Ticket },
    /// A ticket for which no mill in service is able.
    NoAbleMill { ticket: Ticket },
    /// A mill that is not below the count.
    NoSuchMill { mill: Mill },
    /// A mill that is out of service already, or in service already.
    SameService { mill: Mill },
    /// The lowest ticket of a mill that has no other mill to go to.
    Stranded { ticket: Ticket },
    /// A move list that is shorter than the number of tickets that stand before the call.
    ShortList { standing: u16 },
    /// A magazine of over 20 tools.
    FullMagazine { tools: u8 },
    /// A text area that is too short for what is to be written.
    ShortArea { needed: u16 },
    /// A sheet of zero mills, which no text writes.
    NoMills,
}

impl Refusal {
    /// The number of the refusal.
    pub fn number(self) -> u8
        ensures { result ≡ (told self).number }
    {
        match self {
            Refusal::BadLine { .. } => 1,
            Refusal::WrongCount { .. } => 2,
            Refusal::WrongSum { .. } => 3,
            Refusal::NotDue { .. } => 4,
            Refusal::WrongValue { .. } => 5,
            Refusal::TableFull => 6,
            Refusal::NoSuchTicket { .. } => 7,
            Refusal::Standing { .. } => 8,
            Refusal::NotStanding { .. } => 9,
            Refusal::NoAbleMill { .. } => 10,
            Refusal::NoSuchMill { .. } => 11,
            Refusal::SameService { .. } => 12,
            Refusal::Stranded { .. } => 13,
            Refusal::ShortList { .. } => 14,
            Refusal::FullMagazine { .. } => 15,
            Refusal::ShortArea { .. } | Refusal::NoMills => 16,
        }
    }

    /// What the refusal points at: a line, a ticket, a mill, a length or a count.
    pub fn place(self) -> u16
        ensures { result ≡ (told self).place }
    {
        match self {
            Refusal::BadLine { line }
            | Refusal::WrongCount { line }
            | Refusal::WrongSum { line }
            | Refusal::NotDue { line }
            | Refusal::WrongValue { line } => line,
            Refusal::TableFull => 32,
            Refusal::NoSuchTicket { ticket }
            | Refusal::Standing { ticket }
            | Refusal::NotStanding { ticket }
            | Refusal::NoAbleMill { ticket }
            | Refusal::Stranded { ticket } => ticket.0,
            Refusal::NoSuchMill { mill } | Refusal::SameService { mill } => u16::from(mill.0),
            Refusal::ShortList { standing } => standing,
            Refusal::FullMagazine { tools } => u16::from(tools),
            Refusal::ShortArea { needed } => needed,
            Refusal::NoMills => 0,
        }
    }
}
