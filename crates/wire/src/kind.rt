//! The kinds of the frames on the wire, and the bytes that write them.
ghost use Rattle.std.specs.Prelude.{◌≡◌};
ghost use Rattle.wire.specs.Kinds.{code_of, Decodes, kind_of, reply_code_of};

use board::Call;
use vocabulary::Refusal;

/// The kind of a command's frame.
#[derive(Clone, Copy, PartialEq, Eq, Debug)]
pub(crate) enum CommandKind {
    Add,
    Done,
    Withdraw,
    Return,
    Where,
    Report,
    Strike,
    Alias,
}

/// The kind of a frame of an answer.
#[derive(Clone, Copy, PartialEq, Eq, Debug)]
pub(crate) enum ReplyKind {
    /// The answer to a command of this kind.
    Answer(CommandKind),
    /// A ticket that a call moved.
    Moved,
    /// A refusal.
    Refused,
}

impl From<CommandKind> for u8 {
    ghost from_gives = { λ kind byte. byte ≡ code_of kind };

    fn from(kind: CommandKind) -> u8 {
        match kind {
            CommandKind::Add => 0x11,
            CommandKind::Done => 0x12,
            CommandKind::Withdraw => 0x13,
            CommandKind::Return => 0x14,
            CommandKind::Where => 0x15,
            CommandKind::Report => 0x16,
            CommandKind::Strike => 0x21,
            CommandKind::Alias => 0x22,
        }
    }
}

impl TryFrom<u8> for CommandKind {
    type Error = Refusal;

    ghost try_from_gives = { Decodes };

    fn try_from(byte: u8) -> Result<CommandKind, Refusal> {
        match byte {
            0x11 => Ok(CommandKind::Add),
            0x12 => Ok(CommandKind::Done),
            0x13 => Ok(CommandKind::Withdraw),
            0x14 => Ok(CommandKind::Return),
            0x15 => Ok(CommandKind::Where),
            0x16 => Ok(CommandKind::Report),
            0x21 => Ok(CommandKind::Strike),
            0x22 => Ok(CommandKind::Alias),
            _ => Err(Refusal::NotDue { line: 0 }),
        }
    }
}

impl From<Call> for CommandKind {
    ghost from_gives = { λ call kind. kind ≡ kind_of call };

    fn from(call: Call) -> CommandKind {
        match call {
            Call::Add { .. } => CommandKind::Add,
            Call::Done { .. } => CommandKind::Done,
            Call::Withdraw { .. } => CommandKind::Withdraw,
            Call::Return { .. } => CommandKind::Return,
        }
    }
}

impl From<ReplyKind> for u8 {
    ghost from_gives = { λ kind byte. byte ≡ reply_code_of kind };

    fn from(kind: ReplyKind) -> u8 {
        match kind {
            ReplyKind::Answer(command) => u8::from(command) + 0x80,
            ReplyKind::Moved => 0xA0,
            ReplyKind::Refused => 0xE0,
        }
    }
}
