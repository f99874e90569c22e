//! Numbers that must not be mistaken for one another. Each prints as its digits.
ghost use Rattle.std.specs.Prelude.{Some};
ghost use Rattle.std.specs.Fmt.{decimal};

use std::fmt;

/// The number of a ticket. Tickets 0 to 1,023 exist; a call may name any number, and is refused above that.
#[derive(Clone, Copy, Default, PartialEq, Eq, Debug)]
pub struct Ticket(pub u16);

/// The number of a program that a mill may cut.
#[derive(Clone, Copy, Default, PartialEq, Eq, Debug)]
pub struct Program(pub u8);

/// The number of a mill. Mills 0 to 63 exist; a call may name any byte, and is refused from the count of mills on.
#[derive(Clone, Copy, Default, PartialEq, Eq, Debug)]
pub struct Mill(pub u8);

// Three alike: no macro here may write an impl, and the derive of `thiserror` would make errors of them and promise nothing of what
// is printed.

impl fmt::Display for Ticket {
    ghost output = { λ ticket. Some (decimal ticket.0) };

    fn fmt<W: fmt::Write>(&self, f: &mut fmt::Formatter<W>) -> fmt::Result {
        let Ticket(number) = *self;
        write!(f, "{number}")
    }
}

impl fmt::Display for Program {
    ghost output = { λ program. Some (decimal program.0) };

    fn fmt<W: fmt::Write>(&self, f: &mut fmt::Formatter<W>) -> fmt::Result {
        let Program(number) = *self;
        write!(f, "{number}")
    }
}

impl fmt::Display for Mill {
    ghost output = { λ mill. Some (decimal mill.0) };

    fn fmt<W: fmt::Write>(&self, f: &mut fmt::Formatter<W>) -> fmt::Result {
        let Mill(number) = *self;
        write!(f, "{number}")
    }
}
