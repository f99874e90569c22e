//! Whole runs: a board from its opening through any list of requests.
ghost use Rattle.std.specs.Prelude.{◌≡◌};
ghost use Rattle.table.specs.Held.{meant, tally_of};
ghost use Rattle.table.specs.Tally.{opening};
ghost use Rattle.board.specs.Boards.{meant_by, tally_on};
ghost use Rattle.board.specs.Requests.{RanRequests, Asked};

use crate::board::Board;
use crate::perform::perform;
use crate::request::Request;
use capability::Source;
use table::Table;

/// Opens a board on a source and performs the requests in turn, each with its own move list; the answers and the records are left
/// in the requests, and the board is handed back.
pub fn run<S: Source>(source: S, requests: &mut [Request]) -> Board<S>
    ensures source { result.source ≡ source }
    ensures meaning { meant_by result ≡ S.Source.meaning source }
    ensures ran { RanRequests (S.Source.meaning source) requests.old requests.new (tally_on result) }
{
    let mut board = Board::open(source);
    perform_each(&mut board.table, requests);
    board
}

/// Performs requests in turn on the table of a board that was just opened.
fn perform_each(table: &mut Table, requests: &mut [Request])
    requires { tally_of table.old ≡ opening (meant table.old) }
    ensures meaning { meant table.new ≡ meant table.old }
    ensures ran { RanRequests (meant table.old) requests.old requests.new (tally_of table.new) }
{
    for request in requests.iter_mut() {
        answer_request(table, request);
    }
}

/// Performs one request.
fn answer_request(table: &mut Table, request: &mut Request)
    ensures meaning { meant table.new ≡ meant table.old }
    ensures turn { Asked (meant table.old) (tally_of table.old) request.old request.new (tally_of table.new) }
{
    request.answer = perform(table, request.call, &mut request.moves);
}
