//! The cell as it is, run by the gate where there is no sheet.
#![tactic(auto)]

use std::io;

fn main(rt: HostRuntime) -> io::Result<()> {
    panel::run(&rt)
}
