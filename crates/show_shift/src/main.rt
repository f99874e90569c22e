//! Runs a shift on the shop's sheet in the file cell.hex, and tells line by line what was asked, what was answered, which tickets
//! moved, and the loads at the end.
#![tactic(auto)]

mod plan;
mod tell;

use board::run;
use sheet::SheetSource;
use sheet_file::sheet_text;
use std::io;

fn main(rt: HostRuntime) -> io::Result<()> {
    let text = sheet_text(&rt)?;
    let mut requests = plan::requests(rt.alloc())?;
    let board = run(SheetSource::new(text.as_slice()), requests.as_mut_slice());
    for request in requests.iter() {
        tell::request(&rt, request)?;
    }
    tell::end(&rt, &board)
}
