//! The table itself, and what is always true of it.
ghost use Rattle.std.specs.Prelude.{◌≡◌, ℕ, ◌<◌, true, length, Some, slice_index};
ghost use Rattle.sets.specs.Sets.{has};
ghost use Rattle.capability.specs.Copied.{copied};
ghost use Rattle.table.specs.Tally.{placement, shop_in};
ghost use Rattle.table.specs.Seats.{tally_from, on_mill};

mod changes;
mod reads;

use crate::seat::Seat;
use capability::Abilities;
use sets::NumberSet;

/// The most tickets that may stand.
pub const TICKETS: usize = 1024;

/// The most mills that a shop may have.
pub const MILLS: usize = 64;

/// The table of a board. Every standing ticket is on a mill that is able for its program and in service, the loads are the
/// numbers of tickets on the mills, and only mills below the count, of which abilities have at most 64, are in service.
// Arrays by the number of a ticket or a mill: nothing under a board allocates.
#[derive(Clone, Copy)]
pub struct Table {
    abilities: Abilities,
    service: NumberSet,
    seats: [Option<Seat>; TICKETS],
    loads: [u16; MILLS],
    ghost below: { (m : ℕ) → has service m ≡ true → m < (copied abilities).mills },
    ghost able: { (t m : ℕ) → placement (tally_from seats service) t ≡ Some m → (shop_in (copied abilities) (tally_from seats service)).can t m ≡ true },
    ghost counted: { (m : ℕ) → slice_index loads m ≡ on_mill seats service m },
    ghost whole: { length seats ≡ 1024 },
    ghost complete: { length loads ≡ 64 },
}
