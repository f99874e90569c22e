//! Which tickets moved between two tables.
ghost use Rattle.std.specs.Prelude.{◌≡◌, ◌≤◌, [], ◌∷◌, ◌++◌, length, drop, MatchOption};
ghost use Rattle.std.specs.Option.{option_map};
ghost use Rattle.table.specs.Held.{tally_of};
ghost use Rattle.table.specs.Seats.{place_of};
ghost use Rattle.board.specs.Records.{record_of, records_of};

use crate::call::TICKETS;
use crate::moves::Move;
use table::{Seat, Table};
use vocabulary::Ticket;

/// Writes a record for each ticket that stands in both tables on different mills, by rising ticket number, to the front of
/// a list, and tells how many.
pub(crate) fn write_records(before: &Table, after: &Table, list: &mut [Move]) -> u16
    requires { length (records_of (tally_of before.now) (tally_of after.now)) ≤ length list.old }
    ensures written { list.new ≡ records_of (tally_of before.now) (tally_of after.now) ++ drop (length (records_of (tally_of before.now) (tally_of after.now))) list.old }
    ensures count { result ≡ length (records_of (tally_of before.now) (tally_of after.now)) }
{
    // One number is both the answer and the place of the next record.
    let mut count = 0;
    for number in 0..TICKETS {
        let ticket = Ticket(number);
        if let Some(moved) = record_of(before.seat(ticket), after.seat(ticket), ticket) {
            list[usize::from(count)] = moved;
            count += 1;
        }
    }
    count
}

/// The record of a ticket that had one seat and has another; nothing unless both are there and on different mills.
fn record_of(before: Option<Seat>, after: Option<Seat>, ticket: Ticket) -> Option<Move>
    ensures { MatchOption result (record_of ticket.0 (option_map (λ place. place.mill) (option_map place_of before)) (option_map (λ place. place.mill) (option_map place_of after)) ≡ []) (λ moved. record_of ticket.0 (option_map (λ place. place.mill) (option_map place_of before)) (option_map (λ place. place.mill) (option_map place_of after)) ≡ moved ∷ []) }
{
    match (before, after) {
        (Some(from), Some(to)) if from.mill != to.mill => Some(Move {
            ticket,
            from: from.mill,
            to: to.mill,
        }),
        _ => None,
    }
}
