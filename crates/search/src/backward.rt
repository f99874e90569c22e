//! The search back from a mill, and one shift towards it.
ghost use Rattle.std.specs.Prelude.{◌≡◌, ◌<◌, List, length};
ghost use Rattle.semimatching.specs.Chains.{Step};
ghost use Rattle.table.specs.Held.{meant, tally_of};
ghost use Rattle.search.specs.BackSearches.{Sought, GoesOn, Way, WayOn};
ghost use Rattle.search.specs.Firsts.{Greatest};
ghost use Rattle.search.specs.Rules.{carried_out};
ghost use Rattle.search.specs.Shifts.{Shift};
ghost use Rattle.search.specs.Trails.{queue_of};
ghost use Rattle.search.specs.Visits.{load_in};

use crate::choice::first_best;
use crate::link::Link;
use crate::trail::{TICKETS, Trail};
use table::Table;
use vocabulary::{Mill, Ticket};

// That the meaning stays is a fact of the table before and after, so it is a clause. A trail holds no reference to its table, since
// the table is changed along it.

impl Trail {
    /// Reaches the mill on which a ticket stands that may go to `towards`, if it is not reached yet.
    fn visit_back(&mut self, table: &Table, ticket: Ticket, towards: Mill)
        ensures { GoesOn (meant table.now) (tally_of table.now) self.old towards.0 ticket.0 self.new }
    {
        if let Some(seat) = table.seat(ticket) {
            if !self.reached.contains(seat.mill.0)
                && table.mills_for(seat.program).contains(towards.0)
            {
                self.reach(
                    seat.mill,
                    Some(Link {
                        ticket,
                        by: towards,
                    }),
                );
            }
        }
    }
}

/// Reaches the mills from which chains lead to a mill, nearest first; ends when no mill in service is left.
fn search_to(table: &Table, mill: Mill) -> Trail
    requires { mill.0 < 64 }
    ensures { Sought (meant table.now) (tally_of table.now) mill.0 result (length (queue_of result)) 0 }
{
    let mut trail = Trail::empty();
    trail.reach(mill, None);
    let service = table.service();
    let mut next = 0;
    // The queue grows under the loop, so no iterator can borrow it.
    while next < trail.queue.len() && !service.difference(trail.reached).is_empty() {
        let towards = trail.queue[next];
        for number in 0..TICKETS {
            trail.visit_back(table, Ticket(number), towards);
        }
        next += 1;
    }
    trail
}

/// The first of the reached mills that has the greatest load.
fn heaviest(table: &Table, trail: &Trail) -> Mill
    requires { 0 < length (queue_of trail.now) }
    ensures { Greatest (load_in (tally_of table.now)) (queue_of trail.now) result.0 }
{
    first_best(table, &trail.queue, |load, best| load > best)
}

/// Moves each ticket on the way from a reached mill on to the mill that it leads to.
fn carry_from(table: &mut Table, trail: &Trail, start: Mill)
    requires { WayOn (meant table.old) (tally_of table.old) trail.now start.0 }
    ensures meaning { meant table.new ≡ meant table.old }
    ensures tally { (steps : List Step) → Way trail.now start.0 steps → tally_of table.new ≡ carried_out (tally_of table.old) steps }
{
    let mut from = start;
    while let Some(link) = trail.link_to(from) {
        table.shift(link.ticket, link.by);
        from = link.by;
    }
}

/// Carries out one chain towards a mill by the rule of finishing and returning, if an improving one exists, and tells whether it
/// did.
pub fn shift(table: &mut Table, mill: Mill) -> bool
    requires { mill.0 < 64 }
    ensures { Shift table.old mill.0 result table.new }
{
    let trail = search_to(table, mill);
    let from = heaviest(table, &trail);
    if table.load(from) < table.load(mill) + 2 {
        return false;
    }
    carry_from(table, &trail, from);
    true
}
