//! Move lists whose entries are marked beforehand, so that a written entry is told from an untouched one.
ghost use Rattle.std.specs.Prelude.{◌≡◌, true};
ghost use Rattle.board_cases.specs.Marked.{Untouched};

use board::Move;
use std::alloc::{AllocError, Global};
use vocabulary::{Mill, Ticket};

/// An entry that no call writes: no ticket and no mill has these numbers.
const MARKER: Move = Move {
    ticket: Ticket(65_535),
    from: Mill(255),
    to: Mill(254),
};

/// A list of so many marked entries.
pub fn marked(heap: Global, entries: usize) -> Result<Vec<Move>, AllocError> {
    vec![in heap; MARKER; entries]
}

/// Whether no entry was written.
// One call of `all`, on a marker of its own, as in the other programs of cases: a shared function would be longer.
pub fn is_untouched(entries: &[Move]) -> bool
    ensures { result ≡ true → Untouched entries.now }
{
    entries.iter().all(|entry| *entry == MARKER)
}
