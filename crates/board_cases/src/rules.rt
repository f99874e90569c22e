//! A ticket that pushes another on, and what a board answers.
use crate::script::{Step, play};
use crate::shop::three_mills;
use board::Board;
use std::io;

/// Ticket 6 stands on mill 0 although mill 1 is free, until ticket 7, which has no other mill, comes.
const PUSHED_ON: &[Step] = &[
    Step::Withdraw(1, 0),
    Step::Add(6, 2, 4),
    Step::Return(1, 4),
    Step::Add(7, 1, 4),
    Step::Report,
];

/// Tickets that stand, that do not and that do not exist; mills that are there and that are not.
const QUESTIONS: &[Step] = &[
    Step::Report,
    Step::Add(0, 1, 0),
    Step::Add(1023, 2, 1),
    Step::Place(0),
    Step::Place(1023),
    Step::Place(1),
    Step::Place(1024),
    Step::Place(65_535),
    Step::Load(0),
    Step::Load(1),
    Step::Load(2),
    Step::Load(3),
    Step::Load(63),
    Step::Load(64),
    Step::Load(255),
    Step::Report,
];

/// Both scripts.
pub fn on_small_boards(rt: &HostRuntime) -> io::Result<()> {
    let mut board = Board::open(three_mills());
    play(rt, "a ticket pushed on", &mut board, PUSHED_ON)?;
    let mut board = Board::open(three_mills());
    play(rt, "questions", &mut board, QUESTIONS)
}
