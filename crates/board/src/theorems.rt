//! What is proved of calls as a whole.
ghost use Rattle.board.specs.Theorems.{OneOutcome};

/// What a call answers, writes and leaves is a function of the tally, the meaning, its arguments and its move list.
pub fn calls_have_one_outcome()
    ensures { OneOutcome }
{}
