//! Boards of a thousand tickets, and calls that move hundreds of them at once.
use crate::frames::add_line;
use crate::run::Lines;
use crate::shop::{ROW, TWO_MILLS, row_of_mills};
use std::io;

/// How many tickets there are.
const TICKETS: u16 = 1024;

/// The program that both of the two mills can cut.
const PROGRAM: u8 = 7;

/// Mill 1 is away.
const AWAY: &[&str] = &[
    "130101EB\n", // withdraw 1
];

/// Mill 1 comes back, and mill 0 goes and comes back.
const THERE_AND_BACK: &[&str] = &[
    "1600EA\n", // report
    "1103040007E1\n", // add 1024 of program 7
    "140101EA\n", // return 1
    "1600EA\n", // report
    "130100EC\n", // withdraw 0
    "1600EA\n", // report
    "140100EB\n", // return 0
    "1600EA\n", // report
];

/// Every ticket there is comes to mill 0 while mill 1 is away.
pub fn on_two_mills(rt: &HostRuntime) -> io::Result<()> {
    let heap = rt.alloc();
    let mut lines = Lines::of(heap, AWAY)?;
    for ticket in 0..TICKETS {
        lines.push(add_line(heap, ticket, PROGRAM)?.as_str())?;
    }
    let together = lines.count();
    lines.push_all(THERE_AND_BACK)?;
    lines.run(rt, "1,024 tickets on two mills", TWO_MILLS, together)
}

/// Mill 0 goes and comes back.
const FIRST_MILL: &[&str] = &[
    "1600EA\n", // report
    "130100EC\n", // withdraw 0
    "1600EA\n", // report
    "140100EB\n", // return 0
    "1600EA\n", // report
];

/// How many tickets stand on each mill of the row before some get one more.
const LOAD: u16 = 15;

/// How many mills from the first on get one more.
const FULLER: u16 = 48;

/// How many mills the row has.
const MILLS: u16 = ROW as u16;

/// The program of a ticket in the row of mills. They come in rounds from the last mill down to the first, each for the lower of its
/// mills; the last round is for the fuller mills alone.
fn program_in_row(ticket: u16) -> u8 {
    let lower = if ticket < MILLS * LOAD {
        MILLS - 1 - ticket % MILLS
    } else {
        FULLER - 1 - (ticket - MILLS * LOAD) % FULLER
    };
    (lower % MILLS) as u8
}

/// The tickets of a row of mills stand each on the lower of its two mills, one more on the fuller mills than on the others. When mill 0
/// goes, each of its tickets pushes one ticket of every mill on the way to the nearest mill that is not a fuller one.
pub fn on_a_row_of_mills(rt: &HostRuntime) -> io::Result<()> {
    let heap = rt.alloc();
    let mut lines = Lines::new(heap);
    for ticket in 0..MILLS * LOAD + FULLER {
        lines.push(add_line(heap, ticket, program_in_row(ticket))?.as_str())?;
    }
    let together = lines.count();
    lines.push_all(FIRST_MILL)?;
    let sheet = row_of_mills(heap)?;
    lines.run(
        rt,
        "1,008 tickets on a row of 64 mills",
        sheet.as_str(),
        together,
    )
}
