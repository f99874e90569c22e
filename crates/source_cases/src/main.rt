//! Runs the tool source and the layers over it through cases, and tells what came of each.
#![tactic(auto)]

mod layer_cases;
mod pile_cases;
mod sheets;
mod shop;
mod tell;
mod tool_cases;

use std::io;

fn main(rt: HostRuntime) -> io::Result<()> {
    tool_cases::lengths(&rt)?;
    tool_cases::needs(&rt)?;
    tool_cases::magazines(&rt)?;
    tool_cases::tables(&rt)?;
    tool_cases::past_the_tables(&rt)?;
    layer_cases::strikes(&rt)?;
    layer_cases::full_strikes(&rt)?;
    layer_cases::aliases(&rt)?;
    layer_cases::chains(&rt)?;
    layer_cases::full_aliases(&rt)?;
    pile_cases::piles(&rt)?;
    sheets::sheets(&rt)
}
