//! What a table answers.
ghost use Rattle.std.specs.Prelude.{◌≡◌, ℕ};
ghost use Rattle.std.specs.Option.{option_map};
ghost use Rattle.sets.specs.Sets.{has};
ghost use Rattle.capability.specs.Copied.{copied};
ghost use Rattle.semimatching.specs.Placements.{load};
ghost use Rattle.table.specs.Tally.{opening, placement, shop_in, mill_for, standing};
ghost use Rattle.table.specs.Seats.{place_of};
ghost use Rattle.table.specs.Held.{meant, tally_of};

use crate::seat::Seat;
use crate::table::{MILLS, TICKETS, Table};
use capability::Abilities;
use sets::NumberSet;
use vocabulary::{Mill, Program, Ticket};

impl Table {
    /// The table of a board that is opened: no ticket stands, and every mill below the count is in service.
    pub fn new(abilities: Abilities) -> Table
        ensures meaning { meant result ≡ copied abilities }
        ensures tally { tally_of result ≡ opening (copied abilities) }
    {
        Table {
            abilities,
            service: NumberSet::below(abilities.mills()),
            seats: [None; TICKETS],
            loads: [0; MILLS],
        }
    }

    /// How many mills the shop has.
    pub fn mills(&self) -> u8
        ensures { result ≡ (meant self.now).mills }
    {
        self.abilities.mills()
    }

    /// The mills in service.
    pub fn service(&self) -> NumberSet
        ensures { (m : ℕ) → has result m ≡ (tally_of self.now).service m }
    {
        self.service
    }

    /// The mills in service that are able for a program.
    pub fn mills_for(&self, program: Program) -> NumberSet
        ensures { (m : ℕ) → has result m ≡ mill_for (meant self.now) (tally_of self.now).service program.0 m }
    {
        self.abilities.row(program).intersection(self.service)
    }

    /// The seat of a ticket; nothing where it does not stand.
    pub fn seat(&self, ticket: Ticket) -> Option<Seat>
        ensures { option_map place_of result ≡ (tally_of self.now).seat ticket.0 }
    {
        self.seats.get(usize::from(ticket.0)).copied().flatten()
    }

    /// The number of tickets on a mill.
    pub fn load(&self, mill: Mill) -> u16
        ensures { result ≡ load (shop_in (meant self.now) (tally_of self.now)) (placement (tally_of self.now)) mill.0 }
    {
        self.loads.get(usize::from(mill.0)).copied().unwrap_or(0)
    }

    /// How many tickets stand.
    pub fn standing(&self) -> u16
        ensures { result ≡ standing (tally_of self.now) }
    {
        // A sum, and no count of what passes a test: it takes no branch for each seat, and each accepted call asks for it.
        self.seats
            .iter()
            .map(|seat| u16::from(seat.is_some()))
            .sum()
    }
}
