//! Opening a board, and the four calls that change it.
ghost use Rattle.std.specs.Prelude.{◌≡◌};
ghost use Rattle.table.specs.Tally.{opening};
ghost use Rattle.board.specs.Boards.{meant_by, tally_on, Called};
ghost use Rattle.board.specs.declared.call.Call.TheVariants.{Add, Done, Withdraw, Return};

use crate::board::Board;
use crate::call::{Answer, Call};
use crate::moves::Move;
use crate::perform::perform;
use capability::{Abilities, Source};
use table::Table;
use vocabulary::{Mill, Program, Refusal, Ticket};

impl<S: Source> Board<S> {
    /// Opens a board on a source: no ticket stands, and every mill below the count is in service. It cannot be refused.
    pub fn open(source: S) -> Board<S>
        ensures source { result.source ≡ source }
        ensures meaning { meant_by result ≡ S.Source.meaning source }
        ensures tally { tally_on result ≡ opening (S.Source.meaning source) }
    {
        let abilities = Abilities::of(&source);
        Board {
            source,
            table: Table::new(abilities),
        }
    }
}

impl<S> Board<S> {
    /// Performs a call with a move list. A refused call changes nothing; after an accepted one the front of the list has a record for
    /// each ticket that stands before and after it on different mills.
    pub fn perform(&mut self, call: Call, moves: &mut [Move]) -> Result<Answer, Refusal>
        ensures { Called self.old call self.new result moves.old moves.new }
    {
        perform(&mut self.table, call, moves)
    }

    /// A ticket comes with its program, and is placed along a chain to a reached mill of least load.
    pub fn add(
        &mut self,
        ticket: Ticket,
        program: Program,
        moves: &mut [Move],
    ) -> Result<Answer, Refusal>
        ensures { Called self.old (Add ticket program) self.new result moves.old moves.new }
    {
        self.perform(Call::Add { ticket, program }, moves)
    }

    /// A ticket is finished and leaves its mill; one chain to that mill is carried out if an improving one exists.
    pub fn done(&mut self, ticket: Ticket, moves: &mut [Move]) -> Result<Answer, Refusal>
        ensures { Called self.old (Done ticket) self.new result moves.old moves.new }
    {
        self.perform(Call::Done { ticket }, moves)
    }

    /// A mill goes out of service, and its tickets are placed again in rising number.
    pub fn withdraw(&mut self, mill: Mill, moves: &mut [Move]) -> Result<Answer, Refusal>
        ensures { Called self.old (Withdraw mill) self.new result moves.old moves.new }
    {
        self.perform(Call::Withdraw { mill }, moves)
    }

    /// A mill comes back into service empty, and chains to it are carried out while an improving one exists.
    pub fn return_mill(&mut self, mill: Mill, moves: &mut [Move]) -> Result<Answer, Refusal>
        ensures { Called self.old (Return mill) self.new result moves.old moves.new }
    {
        self.perform(Call::Return { mill }, moves)
    }
}
