//! What a line does to a console, in each of its stages.
ghost use Rattle.std.specs.Prelude.{◌≡◌};
ghost use Rattle.layers.specs.Held.{held};
ghost use Rattle.table.specs.Tally.{opening};
ghost use Rattle.board.specs.Boards.{meant_by, tally_on};
ghost use Rattle.wire.specs.Commands.{board_command_in, setup_command_in};
ghost use Rattle.console.specs.States.{state_of, below, pile_meaning};
ghost use Rattle.console.specs.Commands.{LineServed, OpenLine, SetupLine, LineBy, replied};
ghost use Rattle.console.specs.declared.console.Console.TheVariants.{Setup, Open};

use crate::console::Console;
use crate::obey::obey;
use board::{Board, Move};
use capability::Source;
use layers::{Aliases, Strikes};
use vocabulary::Refusal;
use wire::{BoardCommand, Reply, SetupCommand, board_command, setup_command};

// A console goes in and out by value, since the layers move into the board that is opened on them. That the source below stays is a fact
// of the console before and the one after, so it is a clause and no invariant.

/// Does what a line asks of a console, and tells the reply, or why the line is refused.
pub(crate) fn obey_line<S: Source>(
    console: Console<S>,
    line: &[u8],
    moves: &mut [Move],
) -> (Console<S>, Result<Reply, Refusal>)
    ensures below { below result.0 ≡ below console }
    ensures line { LineBy (S.Source.meaning (below console)) (state_of console) line.now (state_of result.0) (replied result.1) moves.old moves.new }
{
    match console {
        Console::Setup { pile } => set_up(pile, line, moves),
        Console::Open { board } => go_on(board, line, moves),
    }
}

/// A line to a console whose board is not open.
fn set_up<S: Source>(
    mut pile: Strikes<Aliases<S>>,
    line: &[u8],
    moves: &mut [Move],
) -> (Console<S>, Result<Reply, Refusal>)
    ensures below { below result.0 ≡ pile.source.source }
    ensures line { SetupLine (S.Source.meaning pile.source.source) (state_of (Setup pile)) (setup_command_in line.now) (state_of result.0) (replied result.1) moves.old moves.new }
{
    let reply = match setup_command(line) {
        Ok(SetupCommand::Strike { program, mill }) => {
            pile.strike(program, mill).map(|()| Reply::Struck)
        }
        Ok(SetupCommand::Alias { program, cut_as }) => {
            pile.alias(program, cut_as).map(|()| Reply::Aliased)
        }
        Ok(SetupCommand::Board { command }) => return open_with(pile, command, moves),
        Err(refusal) => Err(refusal),
    };
    (Console::Setup { pile }, reply)
}

/// Opens a board on the layers, and does what the command asks that opens it.
fn open_with<S: Source>(
    pile: Strikes<Aliases<S>>,
    command: BoardCommand,
    moves: &mut [Move],
) -> (Console<S>, Result<Reply, Refusal>)
    ensures below { below result.0 ≡ pile.source.source }
    ensures served { LineServed (state_of (Setup pile)) (record { meaning = pile_meaning (S.Source.meaning pile.source.source) (held pile.table) (held pile.source.table); tally = opening (pile_meaning (S.Source.meaning pile.source.source) (held pile.table) (held pile.source.table)) }) command (state_of result.0) (replied result.1) moves.old moves.new }
{
    let mut board = Board::open(pile);
    let reply = obey(&mut board, command, moves);
    (Console::Open { board }, reply)
}

/// A line to a console whose board is open.
// A function of its own, so that a line to a console that is being set up need not clear the room for another console.
fn go_on<S>(
    mut board: Board<Strikes<Aliases<S>>>,
    line: &[u8],
    moves: &mut [Move],
) -> (Console<S>, Result<Reply, Refusal>)
    ensures below { below result.0 ≡ board.source.source.source }
    ensures line { OpenLine (state_of (Open board)) (record { meaning = meant_by board; tally = tally_on board }) (board_command_in line.now) (state_of result.0) (replied result.1) moves.old moves.new }
{
    let reply = serve(&mut board, line, moves);
    (Console::Open { board }, reply)
}

/// Does on an open board what a line asks, and tells the reply, or why the line is refused.
fn serve<S>(
    board: &mut Board<Strikes<Aliases<S>>>,
    line: &[u8],
    moves: &mut [Move],
) -> Result<Reply, Refusal>
    ensures source { board.new.source ≡ board.old.source }
    ensures line { OpenLine (state_of (Open board.old)) (record { meaning = meant_by board.old; tally = tally_on board.old }) (board_command_in line.now) (state_of (Open board.new)) (replied result) moves.old moves.new }
{
    let command = board_command(line)?;
    obey(board, command, moves)
}
