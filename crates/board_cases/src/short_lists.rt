//! Lists that are one entry short, and lists that are just long enough.
use crate::script::{Step, play};
use crate::shop::able_everywhere;
use board::Board;
use std::io;

/// Five tickets come, and each call is made with a list one entry short, and with one that is just long enough.
const ONE_SHORT: &[Step] = &[
    Step::Add(0, 0, 0),
    Step::Add(1, 1, 0),
    Step::Add(1, 1, 1),
    Step::Add(2, 2, 2),
    Step::Add(3, 3, 3),
    Step::Add(4, 4, 4),
    Step::Report,
    Step::Add(5, 5, 4),
    Step::Done(0, 4),
    Step::Withdraw(0, 4),
    Step::Return(0, 5),
    Step::Withdraw(2, 5),
    Step::Return(2, 4),
    Step::Withdraw(2, 5),
    Step::Return(2, 5),
    Step::Done(0, 5),
    Step::Add(5, 5, 3),
    Step::Add(5, 5, 4),
    Step::Report,
];

/// Each call with a list one entry short.
pub fn one_entry_short(rt: &HostRuntime) -> io::Result<()> {
    let mut board = Board::open(able_everywhere(rt.alloc(), 3)?);
    play(rt, "lists one entry short", &mut board, ONE_SHORT)
}
