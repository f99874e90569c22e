//! The cell as it is, run by the gate on lines that are too long or faulty, and on a last line without a line feed.
#![tactic(auto)]

use std::io;

fn main(rt: HostRuntime) -> io::Result<()> {
    panel::run(&rt)
}
