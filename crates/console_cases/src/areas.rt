//! Areas of several lengths.
use crate::shop::THREE_MILLS;
use crate::tell;
use crate::tell::MARKER;
use capability::Source;
use console::Console;
use sheet::SheetSource;
use std::io;

/// Lines, and the length of the area for the answer of each. A line with too short an area counts as one that never came.
const LINES: &[(&str, usize)] = &[
    ("1103000503E4\n", 16_383), // add 5 of program 3
    ("21020301D9\n", 16_384), // strike 3 on 1
    ("1103000503E4\n", 16_384), // add 5 of program 3
    ("1103000603E3\n", 16_383), // add 6 of program 3
    ("15020006E3\n", 16_384), // where 6
    ("1103000603E3\n", 0), // add 6 of program 3
    ("1600ea\n", 16_383), // report in lower case
    ("1600EA\n", 20_000), // report
];

/// Answers a line into a marked area of so many bytes, and tells what came of it.
fn attempt<S: Source + Drop>(
    rt: &HostRuntime,
    console: Console<S>,
    line: &str,
    length: usize,
) -> io::Result<Console<S>> {
    let mut area = vec![in rt.alloc(); MARKER; length]?;
    let (console, answer) = console.answer(line.as_bytes(), area.as_mut_slice());
    print!(rt; "  area of {length} bytes: ")?;
    tell::answered(rt, line.as_bytes(), answer, area.as_slice())?;
    Ok(console)
}

/// Areas that are too short by one byte, that just serve, and that are longer, on one console.
pub fn areas(rt: &HostRuntime) -> io::Result<()> {
    println!(rt; "areas of several lengths")?;
    let mut console = Console::new(SheetSource::new(THREE_MILLS.as_bytes()));
    for (line, length) in LINES {
        console = attempt(rt, console, line, *length)?;
    }
    Ok(())
}
