//! One line answered into a text area.
ghost use Rattle.std.specs.Prelude.{◌≡◌, ◌≤◌, length, Ok};
ghost use Rattle.console.specs.Answers.{Answered, Written};
ghost use Rattle.console.specs.States.{state_of, below, fresh};

use crate::console::Console;
use crate::lines::obey_line;
use board::Move;
use capability::Source;
use layers::{Aliases, Strikes};
use vocabulary::Refusal;
use wire::{AREA, Reply, put_reply};

/// As many tickets as there can be, so that every call has room for its records.
const TICKETS: usize = 1024;

// The console goes in and out by value, as in `lines`.

impl<S: Source> Console<S> {
    /// A console over a source that nothing was asked of.
    pub fn new(source: S) -> Console<S>
        ensures below { below result ≡ source }
        ensures state { state_of result ≡ fresh }
    {
        Console::Setup {
            pile: Strikes::new(Aliases::new(source)),
        }
    }

    /// Answers one command line into a text area, and tells the length of the answer. A refused command is answered with its refusal
    /// line; only an area of under 16,384 bytes is refused, and then the line is not read. The area behind the answer stays as it is.
    pub fn answer(self, line: &[u8], area: &mut [u8]) -> (Console<S>, Result<usize, Refusal>)
        ensures below { below result.0 ≡ below self }
        ensures answered { Answered (S.Source.meaning (below self)) (state_of self) line.now area.old (state_of result.0) result.1 area.new }
    {
        if area.len() < AREA {
            return (self, Err(Refusal::ShortArea { needed: 16_384 }));
        }
        let (console, length) = answer_into(self, line, area);
        (console, Ok(length))
    }
}

/// Answers a line into an area that is long enough.
fn answer_into<S: Source>(console: Console<S>, line: &[u8], area: &mut [u8]) -> (Console<S>, usize)
    requires { 16384 ≤ length area.old }
    ensures below { below result.0 ≡ below console }
    ensures written { Written (S.Source.meaning (below console)) (state_of console) line.now area.old (state_of result.0) (Ok result.1) area.new }
{
    let mut moves = [Move::default(); TICKETS];
    let (console, answered) = obey_line(console, line, &mut moves);
    let reply = answered.unwrap_or_else(Reply::from);
    let length = put_reply(area, reply, &moves);
    (console, length)
}
