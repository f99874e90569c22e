//! Price lists that never fall: what the first ticket on a mill costs, the second, and so on.

/// A price list.
#[derive(Clone, Copy, Debug)]
pub enum Price {
    /// Each ticket costs the same.
    Flat,
    /// A ticket costs its position on the mill.
    Position,
    /// A ticket costs the square of its position.
    Square,
    /// The first tickets, so many of them, cost nothing, and each further one costs 1.
    Past(u16),
    /// The first tickets, so many of them, cost 3, and each further one costs 50.
    Overtime(u16),
}

/// How many price lists are compared.
pub const LISTS: usize = 12;

/// The price lists that are compared.
pub const PRICES: [Price; LISTS] = [
    Price::Flat,
    Price::Position,
    Price::Square,
    Price::Past(0),
    Price::Past(1),
    Price::Past(2),
    Price::Past(3),
    Price::Past(4),
    Price::Past(5),
    Price::Past(6),
    Price::Overtime(1),
    Price::Overtime(2),
];

impl Price {
    /// The price of the ticket at a position, counted from 1.
    pub fn of(self, position: u16) -> u32 {
        let position = u32::from(position);
        match self {
            Price::Flat => 7,
            Price::Position => position,
            Price::Square => position.saturating_mul(position),
            Price::Past(free) => u32::from(position > u32::from(free)),
            Price::Overtime(cheap) => { if position > u32::from(cheap) { 50 } else { 3 } }
        }
    }
}
