//! Every placement of the standing tickets, tried one after the other.
use crate::digits::Digits;
use crate::loads::Loads;
use crate::prices::{LISTS, PRICES, Price};
use crate::tally::Tally;
use capability::Source;

/// The best that any placement comes to.
#[derive(Clone, Copy)]
pub struct Best {
    /// Each price list, and the least total at it.
    pub totals: [(Price, u32); LISTS],
    /// The least of the highest loads.
    pub highest: u16,
    /// The greatest number of busy mills.
    pub busy: usize,
    /// How many placements were tried.
    pub tried: u32,
}

impl Best {
    /// Before any placement was tried.
    fn none() -> Best {
        Best {
            totals: PRICES.map(|price| (price, u32::MAX)),
            highest: u16::MAX,
            busy: 0,
            tried: 0,
        }
    }

    /// One placement more.
    fn meet(&mut self, loads: &Loads) {
        for (price, least) in self.totals.iter_mut() {
            *least = (*least).min(loads.total(*price));
        }
        self.highest = self.highest.min(loads.highest());
        self.busy = self.busy.max(loads.busy());
        self.tried = self.tried.saturating_add(1);
    }
}

/// The best over all placements of the standing tickets, each on one of its mills.
pub fn try_all(tally: &Tally) -> Best {
    let mut best = Best::none();
    let tickets = u32::try_from(tally.standing()).unwrap_or(u32::MAX);
    for number in 0..u32::from(tally.shop().mills()).saturating_pow(tickets) {
        if let Some(loads) = placement(tally, number) {
            best.meet(&loads);
        }
    }
    best
}

/// The loads of the placement of a number, whose digits are the mills of the tickets, with as many digits as there are mills.
/// There is none where a ticket would not stand on one of its mills.
fn placement(tally: &Tally, number: u32) -> Option<Loads> {
    let mut loads = Loads::default();
    let digits = Digits::of(number, tally.shop().mills());
    for (seat, mill) in tally.seats().iter().zip(digits) {
        if !tally.takes(seat.program, mill) {
            return None;
        }
        loads.grow(mill);
    }
    Some(loads)
}
