//! How a mill was reached.
use vocabulary::{Mill, Ticket};

/// The ticket by which a mill was reached, and the mill that it stood on.
#[derive(Clone, Copy)]
pub(crate) struct Link {
    pub(crate) ticket: Ticket,
    pub(crate) by: Mill,
}
