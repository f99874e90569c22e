//! The worst case: the mills in a row, so that a chain may have to run over all of them.
use crate::bench::{Bench, adding, finishing};
use crate::shop::{FIRST_ALONE, LAST_ALONE, chain};
use board::Call;
use std::alloc::{AllocError, Global};
use std::io;
use vocabulary::{Mill, Program};

/// The ticket that comes to mill 63 alone and goes.
const LAST: u16 = 1023;

/// The ticket that comes to mill 0 alone and goes, where both stand at a time.
const FIRST: u16 = 1022;

/// How often tickets come and go.
const ROUNDS: u32 = 50;

/// How often a mill goes and comes back.
const MILL_ROUNDS: u32 = 20;

/// A row with so many tickets on each mill: those on mill 63 have no other, and those on any other mill could stand on the next.
/// The last of mill 63 is the last ticket of all.
fn even_row(heap: Global, load: u16) -> Result<Bench, AllocError> {
    let mut bench = Bench::open(heap, chain(heap)?)?;
    for program in 0..63 {
        bench.prepare_tickets(
            load.saturating_mul(u16::from(program)),
            load,
            Program(program),
        );
    }
    bench.prepare_tickets(load.saturating_mul(63), load.saturating_sub(1), LAST_ALONE);
    bench.prepare(adding(LAST, LAST_ALONE));
    Ok(bench)
}

/// The last ticket goes from the one end of the row, and comes to the other: a chain over all mills makes room for it.
pub fn add_and_done(rt: &HostRuntime) -> io::Result<()> {
    let mut bench = even_row(rt.alloc(), 16)?;
    bench.tell(rt, "chain, 1024 tickets")?;
    let pairs = [
        (finishing(LAST), adding(LAST, FIRST_ALONE)),
        (finishing(LAST), adding(LAST, LAST_ALONE)),
    ];
    let (dones, adds) = bench.rounds(rt, ROUNDS, &pairs)?;
    adds.tell(rt, "chain, add that moves a ticket of each mill")?;
    dones.tell(rt, "chain, done that moves none")
}

/// One ticket more stands on the one end of the row, and a ticket goes from the other: a chain over all mills evens them out.
pub fn done_along_it(rt: &HostRuntime) -> io::Result<()> {
    let mut bench = even_row(rt.alloc(), 15)?;
    bench.prepare(adding(FIRST, FIRST_ALONE));
    bench.tell(rt, "chain, 961 tickets")?;
    let pairs = [
        (finishing(LAST), adding(LAST, LAST_ALONE)),
        (finishing(FIRST), adding(FIRST, FIRST_ALONE)),
    ];
    let (dones, adds) = bench.rounds(rt, ROUNDS, &pairs)?;
    dones.tell(rt, "chain, done that moves a ticket of each mill")?;
    adds.tell(rt, "chain, add that moves none")
}

/// Mill 1 goes and comes back: its tickets push others on along the rest of the row.
pub fn withdraw_and_return(rt: &HostRuntime) -> io::Result<()> {
    let mut bench = even_row(rt.alloc(), 16)?;
    bench.prepare(finishing(LAST));
    bench.tell(rt, "chain, 1023 tickets")?;
    let mill = Mill(1);
    let pairs = [(Call::Withdraw { mill }, Call::Return { mill })];
    let (withdrawals, returns) = bench.rounds(rt, MILL_ROUNDS, &pairs)?;
    withdrawals.tell(rt, "chain, withdraw")?;
    returns.tell(rt, "chain, return")
}
