//! Many calls of one kind, told together.
ghost use Rattle.std.specs.Iterator.{IsFinite};

use crate::list::marked;
use board::{Answer, Board, Call};
use std::io;
use vocabulary::Refusal;

/// How many tickets there are, which is as long as a list need ever be.
const TICKETS: usize = 1024;

/// How many calls were accepted, how many tickets they moved, and how many of these the last of them moved.
#[derive(Default, Drop)]
struct Sweep {
    accepted: u16,
    moved: u32,
    last: u16,
}

impl Sweep {
    /// Takes one answer in; a refusal counts for nothing.
    fn note(&mut self, answer: Result<Answer, Refusal>) {
        if let Ok(answer) = answer {
            self.last = answer.count();
            self.accepted = self.accepted.saturating_add(1);
            self.moved = self.moved.saturating_add(u32::from(self.last));
        }
    }
}

/// Performs calls on a board, and tells them together.
pub fn perform_all<S, I: Iterator<Item = Call>>(
    rt: &HostRuntime,
    what: &str,
    board: &mut Board<S>,
    calls: I,
) -> io::Result<()>
    requires can { I.can_next calls }
    requires ends { IsFinite (I.remaining calls) }
{
    let mut moves = marked(rt.alloc(), TICKETS)?;
    let mut swept = Sweep::default();
    for call in calls {
        swept.note(board.perform(call, moves.as_mut_slice()));
    }
    let Sweep {
        accepted,
        moved,
        last,
    } = swept;
    println!(rt; "{accepted} {what}, {moved} tickets moved, {last} by the last")
}
