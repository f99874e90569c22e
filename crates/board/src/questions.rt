//! What a board answers without changing.
ghost use Rattle.std.specs.Prelude.{◌≡◌};
ghost use Rattle.std.specs.Option.{option_map};
ghost use Rattle.semimatching.specs.Placements.{load};
ghost use Rattle.table.specs.Held.{meant, tally_of};
ghost use Rattle.table.specs.Tally.{placement, shop_in};
ghost use Rattle.board.specs.Boards.{meant_by, tally_on};
ghost use Rattle.board.specs.Reports.{Reported, mill_cost};

use crate::board::Board;
use crate::report::Report;
use table::Table;
use vocabulary::{Mill, Ticket};

/// The most mills that there can be.
const MILLS: u8 = 64;

impl<S> Board<S> {
    /// The source that the board was opened on.
    pub fn source(&self) -> &S
        ensures { result.now ≡ self.now.source }
    {
        &self.source
    }

    /// The mill that a ticket stands on; nothing where it does not stand.
    pub fn where_is(&self, ticket: Ticket) -> Option<Mill>
        ensures { option_map (λ mill. mill.0) result ≡ placement (tally_on self.now) ticket.0 }
    {
        self.table.seat(ticket).map(|seat| seat.mill)
    }

    /// The number of tickets on a mill.
    pub fn load(&self, mill: Mill) -> u16
        ensures { result ≡ load (shop_in (meant_by self.now) (tally_on self.now)) (placement (tally_on self.now)) mill.0 }
    {
        self.table.load(mill)
    }

    /// The highest load, the number of busy mills and the flow time.
    pub fn report(&self) -> Report
        ensures { Reported (meant_by self.now) (tally_on self.now) result }
    {
        report_on(&self.table)
    }
}

/// The report on a table.
fn report_on(table: &Table) -> Report
    ensures { Reported (meant table.now) (tally_of table.now) result }
{
    let mut report = Report::default();
    for mill in 0..MILLS {
        let load = table.load(Mill(mill));
        report.highest_load = report.highest_load.max(load);
        report.flow_time += cost(load);
        if load > 0 {
            report.busy_mills += 1;
        }
    }
    report
}

/// What a mill of a load costs.
fn cost(load: u16) -> u32
    ensures { result ≡ mill_cost load }
{
    u32::from(load) * (u32::from(load) + 1) / 2
}
