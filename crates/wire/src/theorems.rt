//! What is proved of answers as a whole.
ghost use Rattle.wire.specs.Theorems.{ReadBack};

/// The lines of an answer whose numbers fit their bytes are read as the frames that they were written for.
pub fn replies_read_back()
    ensures { ReadBack }
{}
