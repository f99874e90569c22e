//! The loads of the mills of a small shop.
use crate::prices::Price;
use crate::shop::MOST_MILLS;
use vocabulary::Mill;

/// The number of tickets on each mill.
#[derive(Clone, Copy, Default, PartialEq, Eq)]
pub struct Loads {
    // An array by the number of a mill: few entries, known beforehand, and copied whole.
    tickets: [u16; MOST_MILLS],
}

impl Loads {
    /// The load of a mill; 0 where there is no such mill.
    pub fn at(&self, mill: Mill) -> u16 {
        self.tickets.get(usize::from(mill.0)).copied().unwrap_or(0)
    }

    /// One ticket more on a mill.
    pub fn grow(&mut self, mill: Mill) {
        self.change(mill, |load| load.saturating_add(1));
    }

    /// One ticket less on a mill.
    pub fn shrink(&mut self, mill: Mill) {
        self.change(mill, |load| load.saturating_sub(1));
    }

    /// Another load for a mill.
    fn change<F: FnOnce(u16) -> u16>(&mut self, mill: Mill, changed: F)
        requires { F.IsAlwaysCallable changed }
    {
        if let Some(load) = self.tickets.get_mut(usize::from(mill.0)) {
            *load = changed(*load);
        }
    }

    /// The greatest of the loads.
    pub fn highest(&self) -> u16 {
        self.tickets.iter().copied().max().unwrap_or(0)
    }

    /// How many mills have a ticket.
    pub fn busy(&self) -> usize {
        self.tickets.iter().filter(|load| **load > 0).count()
    }

    /// The sum over the mills of L × (L + 1) / 2, where L is the load.
    pub fn flow_time(&self) -> u32 {
        self.tickets
            .iter()
            .map(|load| u32::from(*load))
            .map(|load| load.saturating_mul(load.saturating_add(1)) / 2)
            .fold(0u32, |sum, time| sum.saturating_add(time))
    }

    /// What the tickets cost at a price list: on each mill the prices from the first up to its load.
    pub fn total(&self, price: Price) -> u32 {
        self.tickets
            .iter()
            .flat_map(|load| 1..=*load)
            .map(|position| price.of(position))
            .fold(0u32, |sum, cost| sum.saturating_add(cost))
    }
}
