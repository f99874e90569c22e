//! The kinds of a sheet's frames, and the bytes that write them.
ghost use Rattle.std.specs.Prelude.{◌≡◌};
ghost use Rattle.sheet.specs.Kinds.{code_of, Decodes};

/// The kind of a frame in a sheet.
#[derive(Clone, Copy, PartialEq, Eq, Debug)]
pub(crate) enum FrameKind {
    /// The count of mills.
    Mills,
    /// A program with its mills.
    Program,
    /// The end of the sheet.
    End,
}

/// A kind byte that no frame of a sheet has.
#[derive(Clone, Copy, PartialEq, Eq, Debug)]
pub(crate) struct UnknownKind(pub u8);

impl From<FrameKind> for u8 {
    ghost from_gives = { λ kind byte. byte ≡ code_of kind };

    fn from(kind: FrameKind) -> u8 {
        match kind {
            FrameKind::Mills => 1,
            FrameKind::Program => 2,
            FrameKind::End => 15,
        }
    }
}

impl TryFrom<u8> for FrameKind {
    type Error = UnknownKind;

    ghost try_from_gives = { Decodes };

    fn try_from(byte: u8) -> Result<FrameKind, UnknownKind> {
        match byte {
            1 => Ok(FrameKind::Mills),
            2 => Ok(FrameKind::Program),
            15 => Ok(FrameKind::End),
            _ => Err(UnknownKind(byte)),
        }
    }
}
