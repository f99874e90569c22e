//! One call, from its refusal or acceptance to its answer.
ghost use Rattle.std.specs.Prelude.{◌≡◌};
ghost use Rattle.table.specs.Held.{meant, tally_of};
ghost use Rattle.board.specs.Notes.{mill_told};
ghost use Rattle.board.specs.Records.{count_in};
ghost use Rattle.board.specs.Outcomes.{Outcome};

use crate::call::{Answer, Call};
use crate::moves::Move;
use crate::records::write_records;
use crate::refusals::check_call;
use crate::rules::carry_out;
use table::Table;
use vocabulary::{Mill, Refusal};

/// Performs a call on a table: it is refused for its first cause and changes nothing, or it does what its rule says, writes the
/// records of the tickets that it moved to the front of the move list, and tells how many.
pub(crate) fn perform(table: &mut Table, call: Call, moves: &mut [Move]) -> Result<Answer, Refusal>
    ensures meaning { meant table.new ≡ meant table.old }
    ensures outcome { Outcome (meant table.old) call (tally_of table.old) (tally_of table.new) result moves.old moves.new }
{
    check_call(table, call, moves.len())?;
    let before = *table;
    let told = carry_out(table, call);
    let count = write_records(&before, table, moves);
    Ok(answer_of(told, count))
}

/// The answer of a call that moved so many tickets, with the mill of an added ticket.
fn answer_of(told: Option<Mill>, count: u16) -> Answer
    ensures told { mill_told result ≡ told }
    ensures count { count_in result ≡ count }
{
    told.map_or(
        Answer::Moved { count },
        |mill| Answer::Added { mill, count },
    )
}
