//! The worst case for a mill that comes back: most tickets wait on one mill, each has to be fetched by a search of its own, and
//! every search goes over all mills.
use crate::bench::Bench;
use crate::shop::{CROWDED, ELSEWHERE, crowded};
use board::Call;
use std::io;
use vocabulary::Mill;

/// How often the mill comes back and goes.
const ROUNDS: u32 = 5;

/// How many tickets stand on other mills than mill 0, one on each.
const ALONE: u16 = 62;

/// How many tickets there are.
const TICKETS: u16 = 1024;

/// Mill 1 is away while all tickets come; then it comes back and goes again.
pub fn return_and_withdraw(rt: &HostRuntime) -> io::Result<()> {
    let mut bench = Bench::open(rt.alloc(), crowded(rt.alloc())?)?;
    let mill = Mill(1);
    bench.prepare(Call::Withdraw { mill });
    bench.prepare_tickets(0, ALONE, ELSEWHERE);
    bench.prepare_tickets(ALONE, TICKETS - ALONE, CROWDED);
    bench.tell(rt, "crowded, 1024 tickets")?;
    let pairs = [(Call::Return { mill }, Call::Withdraw { mill })];
    let (returns, withdrawals) = bench.rounds(rt, ROUNDS, &pairs)?;
    returns.tell(rt, "crowded, return")?;
    withdrawals.tell(rt, "crowded, withdraw")
}
