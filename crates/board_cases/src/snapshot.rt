//! What a board looks like from outside, kept to be compared with later.
use board::{Board, Report};
use std::array;
use vocabulary::{Mill, Ticket};

/// How many tickets there are.
const TICKETS: usize = 1024;

/// How many mills there can be.
const MILLS: usize = 64;

/// Where each ticket stood, how many tickets each mill had, and the report.
#[derive(Drop, PartialEq, Eq)]
pub struct Snapshot {
    // Arrays by number: compared whole by the derived `==`.
    places: [Option<Mill>; TICKETS],
    loads: [u16; MILLS],
    report: Report,
}

impl Snapshot {
    /// What a board looks like now.
    pub fn of<S>(board: &Board<S>) -> Snapshot {
        Snapshot {
            places: array::from_fn(|number| board.where_is(Ticket(number as u16))),
            loads: array::from_fn(|number| board.load(Mill(number as u8))),
            report: board.report(),
        }
    }
}
