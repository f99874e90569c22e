//! The command reader: what command a line holds.
ghost use Rattle.std.specs.Prelude.{◌≡◌, ◌+◌, ◌*◌, ◌<◌, length};
ghost use Rattle.sheet.specs.Digits.{bytes_of};
ghost use Rattle.sheet.specs.Content.{content};
ghost use Rattle.wire.specs.Commands.{word_at, board_command_of, setup_command_of, board_command_in, setup_command_in};

use crate::command::{BoardCommand, SetupCommand};
use crate::kind::CommandKind;
use board::Call;
use sheet::{RawFrame, byte_at, only_frame};
use vocabulary::{Mill, Program, Refusal, Ticket};

/// The number that two bytes write from this index on, the high byte first.
fn word_at(digits: &[u8], index: usize) -> u16
    requires { 2 * index + 3 < length digits.now }
    ensures { result ≡ word_at (bytes_of digits.now) index }
{
    u16::from_be_bytes([byte_at(digits, index), byte_at(digits, index + 1)])
}

/// What a frame asks of a board, by its kind and the length of its payload.
fn board_frame(frame: RawFrame<'_>) -> Result<BoardCommand, Refusal>
    ensures { result ≡ board_command_of (content frame.entry) }
{
    let payload = frame.payload;
    match (CommandKind::try_from(frame.kind)?, payload.len() / 2) {
        (CommandKind::Add, 3) => Ok(BoardCommand::Perform {
            call: Call::Add {
                ticket: Ticket(word_at(payload, 0)),
                program: Program(byte_at(payload, 2)),
            },
        }),
        (CommandKind::Done, 2) => Ok(BoardCommand::Perform {
            call: Call::Done {
                ticket: Ticket(word_at(payload, 0)),
            },
        }),
        (CommandKind::Withdraw, 1) => Ok(BoardCommand::Perform {
            call: Call::Withdraw {
                mill: Mill(byte_at(payload, 0)),
            },
        }),
        (CommandKind::Return, 1) => Ok(BoardCommand::Perform {
            call: Call::Return {
                mill: Mill(byte_at(payload, 0)),
            },
        }),
        (CommandKind::Where, 2) => Ok(BoardCommand::Where {
            ticket: Ticket(word_at(payload, 0)),
        }),
        (CommandKind::Report, 0) => Ok(BoardCommand::Report),
        _ => Err(Refusal::NotDue { line: 0 }),
    }
}

/// What a frame asks while the board is not open: an entry of a table, or whatever it asks of a board.
fn setup_frame(frame: RawFrame<'_>) -> Result<SetupCommand, Refusal>
    ensures { result ≡ setup_command_of (content frame.entry) }
{
    let payload = frame.payload;
    match (CommandKind::try_from(frame.kind)?, payload.len() / 2) {
        (CommandKind::Strike, 2) => Ok(SetupCommand::Strike {
            program: Program(byte_at(payload, 0)),
            mill: Mill(byte_at(payload, 1)),
        }),
        (CommandKind::Alias, 2) => Ok(SetupCommand::Alias {
            program: Program(byte_at(payload, 0)),
            cut_as: Program(byte_at(payload, 1)),
        }),
        _ => Ok(SetupCommand::Board {
            command: board_frame(frame)?,
        }),
    }
}

/// The command to a board that a line holds, or the refusal of the line.
pub fn board_command(line: &[u8]) -> Result<BoardCommand, Refusal>
    ensures { result ≡ board_command_in line.now }
{
    // As in `setup_command`: one function for both would take `board_frame` as a closure, and be no shorter.
    let asked = only_frame(line, 0)?;
    board_frame(asked)
}

/// The command that a line holds while the board is not open, or the refusal of the line.
pub fn setup_command(line: &[u8]) -> Result<SetupCommand, Refusal>
    ensures { result ≡ setup_command_in line.now }
{
    let frame = only_frame(line, 0)?;
    setup_frame(frame)
}
