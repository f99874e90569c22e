//! A console in its two stages.
use board::Board;
use layers::{Aliases, Strikes};

/// A console over a source: while it is set up its layers are filled, strikes over aliases over the source; then a board is open on
/// them.
#[derive(Drop)]
pub enum Console<S> {
    /// No command to the board has come.
    Setup { pile: Strikes<Aliases<S>> },
    /// The board is open.
    Open { board: Board<Strikes<Aliases<S>>> },
}
