//! A board against a tally, and a tally against every placement.
use crate::difference::Difference;
use crate::loads::Loads;
use crate::placements;
use crate::placements::Best;
use crate::shop::Shop;
use crate::tally::Tally;
use board::Board;
use vocabulary::{Mill, Ticket};

/// The number of tickets, and the first number that no ticket has.
pub const TICKETS: u16 = 1024;

/// Whether a board answers every question as its tally has it.
pub fn with_board(board: &Board<Shop>, tally: &Tally) -> Result<(), Difference> {
    for number in 0..=TICKETS {
        let ticket = Ticket(number);
        Difference::Stands { ticket }.unless(board.where_is(ticket) == tally.mill_of(ticket))?;
    }
    let loads = tally.loads();
    for number in 0..=255 {
        let mill = Mill(number);
        Difference::Load { mill }.unless(board.load(mill) == loads.at(mill))?;
    }
    let report = board.report();
    Difference::Report.unless(
        report.highest_load == loads.highest()
            && usize::from(report.busy_mills) == loads.busy()
            && report.flow_time == loads.flow_time(),
    )
}

/// Whether no placement of the standing tickets is better than that of a tally, and how many there are.
pub fn with_placements(tally: &Tally) -> Result<u32, Difference> {
    for seat in tally.seats() {
        let ticket = seat.ticket;
        Difference::Unable { ticket }.unless(tally.takes(seat.program, seat.mill))?;
    }
    let best = placements::try_all(tally);
    with_best(&tally.loads(), &best)?;
    Ok(best.tried)
}

/// Whether loads are as good as the best ones.
fn with_best(loads: &Loads, best: &Best) -> Result<(), Difference> {
    for (price, best) in best.totals {
        let board = loads.total(price);
        Difference::Total { price, board, best }.unless(board == best)?;
    }
    let (board, highest) = (loads.highest(), best.highest);
    Difference::Highest {
        board,
        best: highest,
    }
    .unless(board == highest)?;
    let (board, busy) = (loads.busy(), best.busy);
    Difference::Busy { board, best: busy }.unless(board == busy)
}
