//! Runs boards through cases, and tells what came of each call.
#![tactic(auto)]

mod attempt;
mod full_boards;
mod list;
mod refusals;
mod rules;
mod runs;
mod script;
mod shop;
mod short_lists;
mod snapshot;
mod sweep;
mod tell;

use std::io;

fn main(rt: HostRuntime) -> io::Result<()> {
    refusals::on_standing_tickets(&rt)?;
    refusals::for_want_of_mills(&rt)?;
    rules::on_small_boards(&rt)?;
    short_lists::one_entry_short(&rt)?;
    runs::one_run(&rt)?;
    full_boards::with_the_last_ticket(&rt)?;
    full_boards::through_one_mill(&rt)
}
