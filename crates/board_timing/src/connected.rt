//! The usual case: every program can be cut on every mill.
use crate::bench::{Bench, adding, finishing};
use crate::shop::connected;
use board::Call;
use std::alloc::{AllocError, Global};
use std::io;
use vocabulary::{Mill, Program};

/// The ticket that comes and goes; all before it stand.
const LAST: u16 = 1023;

/// How often it comes and goes.
const ROUNDS: u32 = 500;

/// How often a mill goes and comes back.
const MILL_ROUNDS: u32 = 20;

/// All tickets but the last stand on 64 mills.
fn nearly_full(heap: Global) -> Result<Bench, AllocError> {
    let mut bench = Bench::open(heap, connected(heap)?)?;
    bench.prepare_tickets(0, LAST, Program(0));
    Ok(bench)
}

/// The last ticket comes and goes.
pub fn add_and_done(rt: &HostRuntime) -> io::Result<()> {
    let mut bench = nearly_full(rt.alloc())?;
    bench.tell(rt, "connected, 1023 tickets")?;
    let pairs = [(adding(LAST, Program(0)), finishing(LAST))];
    let (adds, dones) = bench.rounds(rt, ROUNDS, &pairs)?;
    adds.tell(rt, "connected, add")?;
    dones.tell(rt, "connected, done")
}

/// Mill 0 goes and comes back.
pub fn withdraw_and_return(rt: &HostRuntime) -> io::Result<()> {
    let mut bench = nearly_full(rt.alloc())?;
    let mill = Mill(0);
    let pairs = [(Call::Withdraw { mill }, Call::Return { mill })];
    let (withdrawals, returns) = bench.rounds(rt, MILL_ROUNDS, &pairs)?;
    withdrawals.tell(rt, "connected, withdraw")?;
    returns.tell(rt, "connected, return")
}
