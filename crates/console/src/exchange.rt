//! A line with the area for its answer.
ghost use Rattle.std.specs.Prelude.{◌≡◌, Ok};

use vocabulary::Refusal;

// A board's request has a call and a move list where this has a line and an area, so the two share no field's type.

/// One line of a run, the text area that is lent for its answer, and a place for the length of the answer.
#[derive(Drop)]
pub struct Exchange {
    pub line: Vec<u8>,
    pub area: Vec<u8>,
    pub answer: Result<usize, Refusal>,
}

impl Exchange {
    /// An exchange whose line has not been answered: its answer has no length.
    pub fn new(line: Vec<u8>, area: Vec<u8>) -> Exchange
        ensures line { result.line ≡ line }
        ensures area { result.area ≡ area }
        ensures answer { result.answer ≡ Ok 0 }
    {
        Exchange {
            line,
            area,
            answer: Ok(0),
        }
    }
}
