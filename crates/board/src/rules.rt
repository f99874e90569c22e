//! What an accepted call does to a table.
ghost use Rattle.std.specs.Prelude.{◌≡◌, ℕ, ◌<◌, true, false, Some, None};
ghost use Rattle.sets.specs.Sets.{numbers};
ghost use Rattle.semimatching.specs.Placements.{stands_on};
ghost use Rattle.table.specs.Held.{meant, tally_of};
ghost use Rattle.table.specs.Tally.{Place, mill_for, placement, serving};
ghost use Rattle.search.specs.Rules.{EvenIn, Leaning};
ghost use Rattle.board.specs.Causes.{Acceptable};
ghost use Rattle.board.specs.Completed.{Completed};
ghost use Rattle.board.specs.Rules.{cleared, PlacedAgain, Settled};
ghost use Rattle.board.specs.declared.call.Call.TheVariants.{Add, Done, Withdraw, Return};

use crate::call::{Call, TICKETS};
use search::{place, shift};
use table::Table;
use vocabulary::{Mill, Ticket};

// That a call may be accepted, and that the meaning stays, are facts of two values, so they are clauses and no type's invariant. As
// in `refusals` these are functions: a table is of another crate.

/// Does what an accepted call asks for, and tells the mill of an added ticket.
pub(crate) fn carry_out(table: &mut Table, call: Call) -> Option<Mill>
    requires { Acceptable (meant table.old) (tally_of table.old) call }
    ensures { Completed table.old call result table.new }
{
    match call {
        Call::Add { ticket, program } => return Some(place(table, ticket, program)),
        Call::Done { ticket } => finish(table, ticket),
        Call::Withdraw { mill } => withdraw_mill(table, mill),
        Call::Return { mill } => return_mill(table, mill),
    }
    None
}

/// A ticket leaves its mill, and one chain to that mill is carried out if an improving one exists.
fn finish(table: &mut Table, ticket: Ticket)
    requires { Acceptable (meant table.old) (tally_of table.old) (Done ticket) }
    ensures { Completed table.old (Done ticket) None table.new }
{
    if let Some(seat) = table.take(ticket) {
        shift(table, seat.mill);
    }
}

/// A mill's tickets come off, it leaves service, and they are placed again.
fn withdraw_mill(table: &mut Table, mill: Mill)
    requires { Acceptable (meant table.old) (tally_of table.old) (Withdraw mill) }
    ensures { Completed table.old (Withdraw mill) None table.new }
{
    let before = *table;
    clear_mill(table, mill);
    table.close_mill(mill);
    place_again(table, &before, mill);
}

/// Whether a ticket stands on a mill.
fn stands_on(table: &Table, ticket: Ticket, mill: Mill) -> bool
    ensures { result ≡ stands_on (placement (tally_of table.now) ticket.0) mill.0 }
{
    table.seat(ticket).is_some_and(|seat| seat.mill == mill)
}

/// The tickets of a mill come off.
fn clear_mill(table: &mut Table, mill: Mill)
    ensures meaning { meant table.new ≡ meant table.old }
    ensures tally { tally_of table.new ≡ cleared (tally_of table.old) mill.0 }
{
    for number in 0..TICKETS {
        if stands_on(table, Ticket(number), mill) {
            table.take(Ticket(number));
        }
    }
}

/// The tickets that stood on a mill before are placed by the rule of adding, in rising number.
fn place_again(table: &mut Table, before: &Table, mill: Mill)
    requires meaning { meant table.old ≡ meant before.now }
    requires off { tally_of table.old ≡ serving (cleared (tally_of before.now) mill.0) mill.0 false }
    requires free { (t : ℕ) (place : Place) → (tally_of before.now).seat t ≡ Some place → place.mill ≡ mill.0 → (m : ℕ) × (mill_for (meant before.now) (tally_of table.old).service place.program m ≡ true) }
    ensures meaning { meant table.new ≡ meant table.old }
    ensures again { PlacedAgain (meant table.old) (tally_of before.now) (numbers (λ t. stands_on (placement (tally_of before.now) t) mill.0) 1024) (tally_of table.old) (tally_of table.new) }
    ensures even { EvenIn (meant table.old) (tally_of table.old) → EvenIn (meant table.new) (tally_of table.new) }
{
    for number in 0..TICKETS {
        if let Some(seat) = before.seat(Ticket(number)) {
            if seat.mill == mill {
                place(table, Ticket(number), seat.program);
            }
        }
    }
}

/// A mill enters service empty, and chains to it are carried out while an improving one exists.
fn return_mill(table: &mut Table, mill: Mill)
    requires { Acceptable (meant table.old) (tally_of table.old) (Return mill) }
    ensures { Completed table.old (Return mill) None table.new }
{
    table.open_mill(mill);
    settle(table, mill);
}

/// Chains to a mill are carried out while an improving one exists.
fn settle(table: &mut Table, mill: Mill)
    requires { mill.0 < 64 }
    ensures meaning { meant table.new ≡ meant table.old }
    ensures settled { Settled (meant table.old) mill.0 (tally_of table.old) (tally_of table.new) }
    ensures even { Leaning (meant table.old) (tally_of table.old) mill.0 → EvenIn (meant table.new) (tally_of table.new) }
{
    while shift(table, mill) {}
}
