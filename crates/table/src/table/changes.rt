//! What changes a table. Each change keeps what is always true of it.
ghost use Rattle.std.specs.Prelude.{◌≡◌, ◌<◌, true, false, Some, None};
ghost use Rattle.std.specs.Option.{option_map};
ghost use Rattle.semimatching.specs.Placements.{load};
ghost use Rattle.table.specs.Tally.{Place, placement, shop_in, mill_for, seated, serving};
ghost use Rattle.table.specs.Seats.{place_of};
ghost use Rattle.table.specs.Held.{meant, tally_of};

use crate::seat::Seat;
use crate::table::Table;
use vocabulary::{Mill, Ticket};

// That the meaning stays relates a table to the one before it, so it is a clause of each change and no invariant of a table.

impl Table {
    /// Seats a ticket that does not stand.
    pub fn put(&mut self, ticket: Ticket, seat: Seat)
        requires exists { ticket.0 < 1024 }
        requires away { (tally_of self.old).seat ticket.0 ≡ None }
        requires may { mill_for (meant self.old) (tally_of self.old).service seat.program.0 seat.mill.0 ≡ true }
        ensures meaning { meant self.new ≡ meant self.old }
        ensures tally { tally_of self.new ≡ seated (tally_of self.old) ticket.0 (Some (place_of seat)) }
    {
        self.seats[usize::from(ticket.0)] = Some(seat);
        self.loads[usize::from(seat.mill.0)] += 1;
    }

    /// Takes a ticket off, if it stands, and tells the seat that it had.
    pub fn take(&mut self, ticket: Ticket) -> Option<Seat>
        ensures meaning { meant self.new ≡ meant self.old }
        ensures tally { tally_of self.new ≡ seated (tally_of self.old) ticket.0 None }
        ensures value { option_map place_of result ≡ (tally_of self.old).seat ticket.0 }
    {
        let seat = self.seat(ticket)?;
        self.seats[usize::from(ticket.0)] = None;
        self.loads[usize::from(seat.mill.0)] -= 1;
        Some(seat)
    }

    /// Moves a standing ticket to another mill that is able for its program and in service.
    pub fn shift(&mut self, ticket: Ticket, to: Mill)
        requires { (place : Place) × ((tally_of self.old).seat ticket.0 ≡ Some place) × (mill_for (meant self.old) (tally_of self.old).service place.program to.0 ≡ true) }
        ensures meaning { meant self.new ≡ meant self.old }
        ensures tally { (place : Place) → (tally_of self.old).seat ticket.0 ≡ Some place → tally_of self.new ≡ seated (tally_of self.old) ticket.0 (Some (record { program = place.program; mill = to.0 })) }
    {
        if let Some(seat) = self.take(ticket) {
            self.put(ticket, Seat { mill: to, ..seat });
        }
    }

    /// Takes a mill on which no ticket stands out of service.
    pub fn close_mill(&mut self, mill: Mill)
        requires { load (shop_in (meant self.old) (tally_of self.old)) (placement (tally_of self.old)) mill.0 ≡ 0 }
        ensures meaning { meant self.new ≡ meant self.old }
        ensures tally { tally_of self.new ≡ serving (tally_of self.old) mill.0 false }
    {
        self.service.remove(mill.0);
    }

    /// Puts a mill of the shop into service.
    pub fn open_mill(&mut self, mill: Mill)
        requires below { mill.0 < (meant self.old).mills }
        ensures meaning { meant self.new ≡ meant self.old }
        ensures tally { tally_of self.new ≡ serving (tally_of self.old) mill.0 true }
    {
        self.service.insert(mill.0);
    }
}
