//! Every refusal of every call, and which is told where several causes meet.
use crate::script::{Step, play};
use crate::shop::{no_mills, three_mills};
use board::Board;
use std::io;

/// Three tickets come: 7 to mill 0, 6 to mill 1 and 5 to mill 2.
const TICKETS: &[Step] = &[
    Step::Add(7, 1, 0),
    Step::Add(6, 2, 1),
    Step::Add(5, 3, 2),
    Step::Report,
];

/// Tickets that cannot be added: for one cause, then for several.
const ADDS: &[Step] = &[
    Step::Add(1024, 2, 3),
    Step::Add(65_535, 2, 3),
    Step::Add(5, 3, 3),
    Step::Add(8, 4, 3),
    Step::Add(8, 3, 2),
    Step::Add(1024, 4, 3),
    Step::Add(1024, 2, 2),
    Step::Add(1024, 4, 2),
    Step::Add(5, 4, 3),
    Step::Add(5, 3, 2),
    Step::Add(5, 4, 2),
    Step::Add(8, 4, 2),
];

/// Tickets that cannot be finished: for one cause, then for several.
const FINISHES: &[Step] = &[
    Step::Done(1024, 3),
    Step::Done(8, 3),
    Step::Done(1023, 3),
    Step::Done(5, 2),
    Step::Done(1024, 2),
    Step::Done(8, 2),
];

/// Mills that cannot be withdrawn: for one cause, then for several. Mill 1 shows to be in service still, and mill 2 goes, so that
/// it is out already.
const WITHDRAWALS: &[Step] = &[
    Step::Withdraw(3, 3),
    Step::Withdraw(255, 3),
    Step::Withdraw(0, 3),
    Step::Withdraw(1, 2),
    Step::Return(1, 3),
    Step::Withdraw(3, 2),
    Step::Withdraw(0, 2),
    Step::Withdraw(2, 3),
    Step::Report,
    Step::Withdraw(2, 3),
    Step::Withdraw(2, 2),
];

/// Mills that cannot be returned: for one cause, then for several. Mill 2 shows to be out still, and comes back at the end.
const RETURNS: &[Step] = &[
    Step::Return(3, 3),
    Step::Return(255, 3),
    Step::Return(0, 3),
    Step::Return(2, 2),
    Step::Withdraw(2, 3),
    Step::Return(3, 2),
    Step::Return(0, 2),
    Step::Return(2, 5),
    Step::Report,
];

/// Calls on a board on which three tickets stand.
pub fn on_standing_tickets(rt: &HostRuntime) -> io::Result<()> {
    let mut board = Board::open(three_mills());
    play(rt, "three tickets on three mills", &mut board, TICKETS)?;
    play(rt, "not added", &mut board, ADDS)?;
    play(rt, "not finished", &mut board, FINISHES)?;
    play(rt, "not withdrawn", &mut board, WITHDRAWALS)?;
    play(rt, "not returned", &mut board, RETURNS)
}

/// A program whose one mill is out of service.
const OUT_OF_SERVICE: &[Step] = &[
    Step::Withdraw(0, 0),
    Step::Add(1, 1, 0),
    Step::Add(2, 2, 0),
    Step::Add(1, 1, 0),
    Step::Add(2, 1, 0),
    Step::Return(0, 1),
    Step::Add(1, 1, 1),
];

/// Tickets that hold mill 0 in service, and tickets on it that do not: while mill 1 is away, and when it is back.
const STRANDED: &[Step] = &[
    Step::Withdraw(1, 0),
    Step::Add(12, 1, 8),
    Step::Add(9, 1, 8),
    Step::Add(1, 2, 8),
    Step::Add(2, 2, 8),
    Step::Add(3, 2, 8),
    Step::Withdraw(0, 8),
    Step::Return(1, 8),
    Step::Withdraw(0, 8),
    Step::Done(9, 8),
    Step::Withdraw(0, 8),
    Step::Done(12, 8),
    Step::Withdraw(0, 3),
    Step::Report,
];

/// A board on which nothing can be placed.
const NO_MILLS: &[Step] = &[
    Step::Add(0, 0, 0),
    Step::Done(0, 0),
    Step::Withdraw(0, 0),
    Step::Return(0, 0),
    Step::Report,
];

/// Calls on boards whose mills are out of service, held in service, or not there.
pub fn for_want_of_mills(rt: &HostRuntime) -> io::Result<()> {
    let mut board = Board::open(three_mills());
    play(rt, "mill 0 out of service", &mut board, OUT_OF_SERVICE)?;
    let mut board = Board::open(three_mills());
    play(rt, "tickets that hold mill 0", &mut board, STRANDED)?;
    let mut board = Board::open(no_mills());
    play(rt, "no mills", &mut board, NO_MILLS)
}
