//! Tables of strikes and aliases that are full.
use crate::frames::frame;
use crate::run::Lines;
use crate::shop::THREE_MILLS;
use std::io;

/// How many entries are made before the ones that are spelled out.
const BEFORE: u8 = 31;

/// The first program that such an entry is for.
const FIRST: u8 = 100;

/// The 32nd strike, a 33rd, and the 32nd again; then what was struck and what was not.
const STRIKES: &[&str] = &[
    "21020301D9\n", // strike 3 on 1
    "21020302D8\n", // strike 3 on 2
    "21020301D9\n", // strike 3 on 1
    "1103000503E4\n", // add 5 of program 3
    "21020301D9\n", // strike 3 on 1
];

/// The 32nd alias, a 33rd, and another for the program of the 32nd; then what each is cut as.
const ALIASES: &[&str] = &[
    "22020901D2\n", // 9 cut as 1
    "22020A01D1\n", // 10 cut as 1
    "22020903D0\n", // 9 cut as 3
    "1103000509DE\n", // add 5 of program 9
    "110300060ADC\n", // add 6 of program 10
    "110300076481\n", // add 7 of program 100
    "22020903D0\n", // 9 cut as 3
];

/// Runs entries of this kind for the programs from the first on, each with the number 1, and then these lines, through a console.
fn filled(rt: &HostRuntime, title: &str, kind: u8, rest: &[&str]) -> io::Result<()> {
    let heap = rt.alloc();
    let mut lines = Lines::new(heap);
    for program in FIRST..FIRST + BEFORE {
        lines.push(frame(heap, kind, &[program, 1])?.as_str())?;
    }
    let together = lines.count();
    lines.push_all(rest)?;
    lines.run(rt, title, THREE_MILLS, together)
}

/// Fills both tables.
pub fn full_tables(rt: &HostRuntime) -> io::Result<()> {
    filled(rt, "32 strikes", 0x21, STRIKES)?;
    filled(rt, "32 aliases", 0x22, ALIASES)
}
