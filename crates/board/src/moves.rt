//! Records of moved tickets.
use vocabulary::{Mill, Ticket};

/// A ticket that a call moved, the mill that it stood on before the call, and the one that it stands on after it.
#[derive(Clone, Copy, Default, PartialEq, Eq, Debug)]
pub struct Move {
    pub ticket: Ticket,
    pub from: Mill,
    pub to: Mill,
}
