//! A call with its move list and its answer.
ghost use Rattle.std.specs.Prelude.{◌≡◌, Ok};
ghost use Rattle.board.specs.declared.call.Answer.TheVariants.{Moved};

use crate::call::{Answer, Call};
use crate::moves::Move;
use vocabulary::Refusal;

/// One call of a run: what is asked, the move list that is lent for it, and a place for the answer.
#[derive(Drop)]
pub struct Request {
    pub call: Call,
    pub moves: Vec<Move>,
    pub answer: Result<Answer, Refusal>,
}

impl Request {
    /// A request that has not been performed: its answer says that no ticket moved.
    pub fn new(call: Call, moves: Vec<Move>) -> Request
        ensures call { result.call ≡ call }
        ensures moves { result.moves ≡ moves }
        ensures answer { result.answer ≡ Ok (Moved 0) }
    {
        Request {
            call,
            moves,
            answer: Ok(Answer::Moved { count: 0 }),
        }
    }
}
