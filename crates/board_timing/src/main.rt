//! Takes the time of the calls of a board on which nearly all tickets stand.
//! What the calls did goes to standard output, which is compared; the times go to standard error, which is not.
#![tactic(auto)]

mod bench;
mod chain;
mod connected;
mod crowded;
mod shop;
mod stopwatch;

use std::io;

fn main(rt: HostRuntime) -> io::Result<()> {
    connected::add_and_done(&rt)?;
    connected::withdraw_and_return(&rt)?;
    chain::add_and_done(&rt)?;
    chain::done_along_it(&rt)?;
    chain::withdraw_and_return(&rt)?;
    crowded::return_and_withdraw(&rt)
}
