//! The cell as it is, run by the gate where the file with the sheet is longer than what is read of it.
#![tactic(auto)]

use std::io;

fn main(rt: HostRuntime) -> io::Result<()> {
    panel::run(&rt)
}
