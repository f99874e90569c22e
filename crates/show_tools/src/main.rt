//! Shows the tool rule at work on a small shop: which mill can cut which program, and if not, why.
#![tactic(auto)]

mod example;
mod report;

use std::io;

fn main(rt: HostRuntime) -> io::Result<()> {
    report::report(&rt, &example::MILLS, &example::PROGRAMS)?;
    report::check(&rt, &example::CROWDED)
}
