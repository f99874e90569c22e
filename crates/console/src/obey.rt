//! What a command does, and what it is answered.
ghost use Rattle.std.specs.Prelude.{◌≡◌};
ghost use Rattle.board.specs.Boards.{meant_by, tally_on};
ghost use Rattle.console.specs.Commands.{CommandBy, replied};

use board::{Board, Move};
use vocabulary::Refusal;
use wire::{BoardCommand, Reply};

/// Does what a command asks of a board, and tells the reply, or why the command is refused.
pub(crate) fn obey<P>(
    board: &mut Board<P>,
    command: BoardCommand,
    moves: &mut [Move],
) -> Result<Reply, Refusal>
    ensures source { board.new.source ≡ board.old.source }
    ensures meaning { meant_by board.new ≡ meant_by board.old }
    ensures command { CommandBy (meant_by board.old) command (tally_on board.old) (tally_on board.new) (replied result) moves.old moves.new }
{
    match command {
        BoardCommand::Perform { call } => {
            let answer = board.perform(call, moves)?;
            Ok(Reply::Called { call, answer })
        }
        // The mill is taken apart by a match, which says both answers side by side.
        BoardCommand::Where { ticket } => match board.where_is(ticket) {
            Some(mill) => Ok(Reply::Stands { mill }),
            None => Err(Refusal::NotStanding { ticket }),
        },
        BoardCommand::Report => Ok(Reply::Reported {
            report: board.report(),
        }),
    }
}
