//! Where a ticket stands.
use vocabulary::{Mill, Program};

/// The seat of a standing ticket: its program, and the mill that it stands on.
#[derive(Clone, Copy)]
pub struct Seat {
    pub program: Program,
    pub mill: Mill,
}
