//! The commands that a line can hold.
use board::Call;
use vocabulary::{Mill, Program, Ticket};

/// A command to a board: a call, or a question.
#[derive(Clone, Copy, PartialEq, Eq, Debug)]
pub enum BoardCommand {
    /// Perform a call.
    Perform { call: Call },
    /// Tell the mill that a ticket stands on.
    Where { ticket: Ticket },
    /// Report the load of the board.
    Report,
}

/// A command while the board is not open: an entry of a table, or any command to a board.
#[derive(Clone, Copy, PartialEq, Eq, Debug)]
pub enum SetupCommand {
    /// Strike a mill out for a program.
    Strike { program: Program, mill: Mill },
    /// Cut a program as another one.
    Alias { program: Program, cut_as: Program },
    /// A command to the board.
    Board { command: BoardCommand },
}
