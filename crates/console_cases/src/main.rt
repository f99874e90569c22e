//! Runs consoles through cases, and tells what each line was answered. A line feed is told as `|`.
#![tactic(auto)]

mod areas;
mod crowds;
mod faults;
mod frames;
mod full_tables;
mod run;
mod scripts;
mod sheets;
mod shop;
mod tell;

use std::io;

fn main(rt: HostRuntime) -> io::Result<()> {
    scripts::scripts(&rt)?;
    full_tables::full_tables(&rt)?;
    faults::faults(&rt)?;
    areas::areas(&rt)?;
    crowds::on_two_mills(&rt)?;
    crowds::on_a_row_of_mills(&rt)?;
    sheets::texts(&rt)?;
    sheets::without_mills(&rt)
}
