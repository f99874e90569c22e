//! Reads the shop's sheet from the file cell.hex, checks it, and tells in words what it means.
#![tactic(auto)]

mod report;

use sheet_file::sheet_text;
use std::io;

fn main(rt: HostRuntime) -> io::Result<()> {
    let text = sheet_text(&rt)?;
    report::report(&rt, text.as_slice())
}
