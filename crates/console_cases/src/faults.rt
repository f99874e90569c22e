//! Lines that are faulty.
use crate::frames::frame;
use crate::run::Lines;
use crate::shop::THREE_MILLS;
use std::alloc::AllocError;
use std::io;

/// The most payload bytes that a frame can have.
const LONGEST: usize = 255;

/// What opens the board.
const REPORT: &str = "1600EA\n";

/// What is due only while the board is not open.
const STRIKE: &str = "21020301D9\n";

/// One line for each fault. Where a line has two faults, the one of the smaller number is told.
const FAULTS: &[&str] = &[
    "1600ea\n", // lower-case digits
    "1600E\n", // an odd number of digits
    "1600\n", // 4 digits
    "\n", // no digit
    "", // nothing at all
    "1600EA", // no line feed
    "1600EA\n1600EA\n", // a byte behind the line feed
    "1600EA\r\n", // a carriage return
    "1600 EA\n", // a space
    "16G0EA\n", // no digit in the middle
    "1601E9\n", // a count of one byte too many
    "130002EB\n", // a count of one byte too few
    "1601EA\n", // a wrong count, and a wrong sum
    "1600EB\n", // a wrong sum
    "9900EA\n", // a wrong sum, and an unknown kind
    "1700E9\n", // an unknown kind
    "0F00F1\n", // the end frame of a sheet
    "96006A\n", // an answer, as a command
    "11020005E8\n", // add without a program
    "110400050300E3\n", // add of a byte too many
    "120105E8\n", // done of one byte
    "1300ED\n", // withdraw of nothing
    "14020002E8\n", // return of two bytes
    "1503000005E3\n", // where of three bytes
    "160100E9\n", // report of one byte
    "210103DB\n", // strike of one byte
    "2203090100D1\n", // alias of three bytes
];

/// Adds lines of the most digits and of too many: frames of kind report with right counts, as far as a count goes, and right sums.
fn push_long_lines(lines: &mut Lines) -> Result<(), AllocError> {
    let heap = lines.heap();
    for payload in [LONGEST, LONGEST + 1] {
        let zeros = vec![in heap; 0u8; payload]?;
        lines.push(frame(heap, 0x16, zeros.as_slice())?.as_str())?;
    }
    Ok(())
}

/// The faulty lines before the board is open, which leave it closed, and to an open board.
pub fn faults(rt: &HostRuntime) -> io::Result<()> {
    let mut lines = Lines::of(rt.alloc(), FAULTS)?;
    push_long_lines(&mut lines)?;
    lines.push_all(&[STRIKE, REPORT])?;
    lines.push_all(FAULTS)?;
    push_long_lines(&mut lines)?;
    lines.push(STRIKE)?;
    lines.run(rt, "faulty lines", THREE_MILLS, 0)
}
