//! The search from a new ticket, and placing it.
ghost use Rattle.std.specs.Prelude.{◌≡◌, ℕ, ◌<◌, true, false, length, None};
ghost use Rattle.table.specs.Held.{meant, tally_of};
ghost use Rattle.table.specs.Tally.{mill_for};
ghost use Rattle.search.specs.Firsts.{Lightest};
ghost use Rattle.search.specs.Routes.{Ended};
ghost use Rattle.search.specs.Rules.{PlacedByRule, EvenIn};
ghost use Rattle.search.specs.Trails.{queue_of};
ghost use Rattle.search.specs.Visits.{load_in, fresh, Busy, Visited, Stopped};

use crate::choice::first_best;
use crate::link::Link;
use crate::trail::{TICKETS, Trail};
use sets::NumberSet;
use table::{Seat, Table};
use vocabulary::{Mill, Program, Ticket};

// That the meaning stays is a fact of the table before and after, so it is a clause. A trail holds no reference to its table, since
// the table is changed along it.

impl Trail {
    /// Reaches those of some mills that are not reached yet, in rising order; stops at the first that is empty, and tells so.
    fn visit(&mut self, table: &Table, mills: NumberSet, link: Option<Link>) -> bool
        ensures busy { result ≡ false → Busy (load_in (tally_of table.now)) (fresh mills self.old) 64 }
        ensures all { result ≡ false → Visited (fresh mills self.old) link 64 self.old self.new }
        ensures stopped { result ≡ true → Stopped (load_in (tally_of table.now)) (fresh mills self.old) link self.old self.new }
    {
        for mill in mills.difference(self.reached).iter() {
            self.reach(Mill(mill), link);
            let empty = table.load(Mill(mill)) == 0;
            if empty {
                return true;
            }
        }
        false
    }
}

// A ticket and its program are two arguments, as they are two fields of a call.

/// Reaches the mills that a ticket which is to be placed could come to by chains, nearest first; ends at the first empty mill,
/// and when no mill in service is left.
fn search_from(table: &Table, ticket: Ticket, program: Program) -> Trail
    requires exists { ticket.0 < 1024 }
    requires away { (tally_of table.now).seat ticket.0 ≡ None }
    requires some { (m : ℕ) × (mill_for (meant table.now) (tally_of table.now).service program.0 m ≡ true) }
    ensures { Ended (meant table.now) (tally_of table.now) ticket.0 program.0 result }
{
    let mut trail = Trail::empty();
    if trail.visit(table, table.mills_for(program), None) {
        return trail;
    }
    let service = table.service();
    let mut next = 0;
    // The queue grows under the loop, so no iterator can borrow it.
    'search: while next < trail.queue.len() && !service.difference(trail.reached).is_empty() {
        let mill = trail.queue[next];
        for number in 0..TICKETS {
            if let Some(seat) = table.seat(Ticket(number)) {
                let link = Link {
                    ticket: Ticket(number),
                    by: mill,
                };
                if seat.mill == mill
                    && trail.visit(table, table.mills_for(seat.program), Some(link))
                {
                    break 'search;
                }
            }
        }
        next += 1;
    }
    trail
}

/// The first of the reached mills that has the least load.
fn lightest(table: &Table, trail: &Trail) -> Mill
    requires { 0 < length (queue_of trail.now) }
    ensures { Lightest (load_in (tally_of table.now)) (queue_of trail.now) result.0 }
{
    first_best(table, &trail.queue, |load, best| load < best)
}

/// Places a ticket by the rule of adding, and tells its mill.
pub fn place(table: &mut Table, ticket: Ticket, program: Program) -> Mill
    requires exists { ticket.0 < 1024 }
    requires away { (tally_of table.old).seat ticket.0 ≡ None }
    requires some { (m : ℕ) × (mill_for (meant table.old) (tally_of table.old).service program.0 m ≡ true) }
    ensures meaning { meant table.new ≡ meant table.old }
    ensures rule { PlacedByRule (meant table.old) (tally_of table.old) ticket.0 program.0 (tally_of table.new) result.0 }
    ensures even { EvenIn (meant table.old) (tally_of table.old) → EvenIn (meant table.new) (tally_of table.new) }
{
    let trail = search_from(table, ticket, program);
    let end = lightest(table, &trail);
    // Each ticket on the way moves on to the mill that it leads to, and the new one goes to the first mill of the way.
    let mut to = end;
    while let Some(link) = trail.link_to(to) {
        table.shift(link.ticket, to);
        to = link.by;
    }
    table.put(ticket, Seat { program, mill: to });
    to
}
