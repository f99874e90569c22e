//! One call on a board, told with all that it did or left as it was.
ghost use Rattle.board.specs.Boards.{Called};

use crate::list::marked;
use crate::snapshot::Snapshot;
use crate::tell;
use board::{Answer, Board, Call, Move};
use std::io;
use vocabulary::Refusal;

/// Asks a board by the method that each call has for itself, and not by `perform`, so that each of them is run.
fn ask<S>(board: &mut Board<S>, call: Call, moves: &mut [Move]) -> Result<Answer, Refusal>
    ensures { Called board.old call board.new result moves.old moves.new }
{
    match call {
        Call::Add { ticket, program } => board.add(ticket, program, moves),
        Call::Done { ticket } => board.done(ticket, moves),
        Call::Withdraw { mill } => board.withdraw(mill, moves),
        Call::Return { mill } => board.return_mill(mill, moves),
    }
}

/// Asks a board with a list of so many entries, and tells the answer; of a refused call also whether anything changed.
pub fn attempt<S>(
    rt: &HostRuntime,
    board: &mut Board<S>,
    call: Call,
    entries: usize,
) -> io::Result<()> {
    let mut moves = marked(rt.alloc(), entries)?;
    let before = Snapshot::of(board);
    let answer = ask(board, call, moves.as_mut_slice());
    tell::asked(rt, call, entries)?;
    match answer {
        Ok(answer) => tell::accepted(rt, answer, moves.as_slice()),
        Err(refusal) => {
            tell::refused(rt, refusal, moves.as_slice())?;
            let kept = if before == Snapshot::of(board) {
                "board unchanged"
            } else {
                "BOARD CHANGED"
            };
            println!(rt; ", {kept}")
        }
    }
}
