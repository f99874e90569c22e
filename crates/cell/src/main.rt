//! The cell: reads the shop's sheet from the file cell.hex, and then answers command lines from standard input, each as soon as it is
//! there, until the input ends.
#![tactic(auto)]

use std::io;

fn main(rt: HostRuntime) -> io::Result<()> {
    panel::run(&rt)
}
