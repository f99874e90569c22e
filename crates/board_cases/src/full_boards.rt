//! Boards on which every ticket stands.
use crate::script::{Step, play};
use crate::shop::able_everywhere;
use crate::sweep::perform_all;
use board::{Board, Call};
use std::io;
use tools::ToolSource;
use vocabulary::{Mill, Program, Ticket};

/// How many tickets there are.
const TICKETS: u16 = 1024;

/// A board on so many mills that can cut everything, on which the first so many tickets stand, each with the low byte of its
/// number for its program.
fn filled(rt: &HostRuntime, mills: usize, tickets: u16) -> io::Result<Board<ToolSource>> {
    let mut board = Board::open(able_everywhere(rt.alloc(), mills)?);
    let adds = (0..tickets).map(|number| Call::Add {
        ticket: Ticket(number),
        program: Program((number % 256) as u8),
    });
    perform_all(rt, "tickets added", &mut board, adds)?;
    Ok(board)
}

/// The last ticket comes, and goes again.
const ONE_MILL: &[Step] = &[
    Step::Report,
    Step::Add(1023, 255, 1022),
    Step::Add(1023, 255, 1023),
    Step::Report,
    Step::Add(1024, 0, 1024),
    Step::Add(1023, 255, 1024),
    Step::Withdraw(0, 1024),
    Step::Done(1023, 1023),
    Step::Done(1023, 1024),
    Step::Report,
];

/// The last ticket comes, and one of the fullest mills goes and comes back.
const ALL_MILLS: &[Step] = &[
    Step::Report,
    Step::Add(1023, 255, 1022),
    Step::Add(1023, 255, 1023),
    Step::Report,
    Step::Place(1023),
    Step::Withdraw(64, 1024),
    Step::Withdraw(0, 1023),
    Step::Withdraw(0, 1024),
    Step::Report,
    Step::Return(0, 1023),
    Step::Return(0, 1024),
    Step::Report,
];

/// The full board on 1 mill and on 64.
pub fn with_the_last_ticket(rt: &HostRuntime) -> io::Result<()> {
    let mut board = filled(rt, 1, TICKETS - 1)?;
    play(rt, "a full board on 1 mill", &mut board, ONE_MILL)?;
    let mut board = filled(rt, 64, TICKETS - 1)?;
    play(rt, "a full board on 64 mills", &mut board, ALL_MILLS)
}

/// All tickets stand on mill 0, and hold it in service.
const CROWDED: &[Step] = &[Step::Report, Step::Withdraw(0, 1024)];

/// The tickets are spread again.
const SPREAD: &[Step] = &[Step::Report];

/// All mills of a full board but mill 0 go one after another, and come back one after another.
pub fn through_one_mill(rt: &HostRuntime) -> io::Result<()> {
    let mut board = filled(rt, 64, TICKETS)?;
    let withdrawals = (1..64).map(|number| Call::Withdraw { mill: Mill(number) });
    perform_all(rt, "mills withdrawn", &mut board, withdrawals)?;
    play(rt, "a full board on the 1 mill left", &mut board, CROWDED)?;
    let returns = (1..64).map(|number| Call::Return { mill: Mill(number) });
    perform_all(rt, "mills returned", &mut board, returns)?;
    play(rt, "a full board on 64 mills again", &mut board, SPREAD)
}
