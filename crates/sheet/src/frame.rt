//! The frame reader: what a frame is in a sheet.
ghost use Rattle.std.specs.Prelude.{◌≡◌, ◌&&◌, Some, Err, MatchResult, nat_le};
ghost use Rattle.std.specs.Option.{option_map};
ghost use Rattle.sheet.specs.Digits.{bytes_of};
ghost use Rattle.sheet.specs.Lines.{lines_of};
ghost use Rattle.sheet.specs.Sheets.{and_then, item_of, rising, count_due, first_item};
ghost use Rattle.sheet.specs.Content.{content, item, known, listed, Came};

use crate::digits::{Bytes, byte_at};
use crate::kind::FrameKind;
use crate::line::{RawFrame, first_frame};
use vocabulary::{Program, Refusal};

/// A program frame: the program, and the digits of the mills that are able for it.
#[derive(Clone, Copy)]
pub(crate) struct Entry<'a> {
    pub program: Program,
    pub mills: &'a [u8],
}

/// The three kinds of frames in a sheet.
#[derive(Clone, Copy)]
pub(crate) enum SheetFrame<'a> {
    /// The count of mills.
    Mills(u8),
    /// One program with its mills.
    Program(Entry<'a>),
    /// The end of the sheet.
    End,
}

/// What a frame is in a sheet, by its kind and the length of its payload.
fn sheet_frame(frame: RawFrame<'_>) -> Option<SheetFrame<'_>>
    ensures { option_map item result ≡ item_of (content frame.entry) }
{
    let kind = FrameKind::try_from(frame.kind).ok()?;
    let payload = frame.payload;
    match (kind, payload.len() / 2) {
        (FrameKind::Mills, 1) => Some(SheetFrame::Mills(byte_at(payload, 0))),
        (FrameKind::Program, 2..=65) => Some(SheetFrame::Program(Entry {
            program: Program(byte_at(payload, 0)),
            mills: &payload[2..],
        })),
        (FrameKind::End, 0) => Some(SheetFrame::End),
        _ => None,
    }
}

/// What the frame on the first line of a text is in a sheet, and the text behind that line.
pub(crate) fn first_sheet_frame(text: &[u8], line: u16) -> Result<(SheetFrame<'_>, &[u8]), Refusal>
    ensures { MatchResult result (λ x. Came line text.now (Some x.0) x.1.now) (λ e. and_then (first_item line (lines_of text.now)) (known line) ≡ Err e) }
{
    if text.is_empty() {
        return Err(Refusal::NotDue { line });
    }
    let (raw, rest) = first_frame(text, line)?;
    let frame = sheet_frame(raw).ok_or(Refusal::NotDue { line })?;
    Ok((frame, rest))
}

/// The count of mills, which is due first.
pub(crate) fn count_due(frame: SheetFrame<'_>, line: u16) -> Result<u8, Refusal>
    ensures { result ≡ count_due line (Some (item frame.entry)) }
{
    match frame {
        SheetFrame::Mills(mills @ 1..=64) => Ok(mills),
        SheetFrame::Mills(_) => Err(Refusal::WrongValue { line }),
        SheetFrame::Program(_) | SheetFrame::End => Err(Refusal::NotDue { line }),
    }
}

impl Entry<'_> {
    /// Whether the entry is due: its program is `floor` or more, and its mills rise below `mills`.
    pub(crate) fn is_due(self, floor: u16, mills: u8) -> bool
        ensures { result ≡ (nat_le floor self.entry.program.0 && rising 0 mills (listed self.entry).mills) }
    {
        u16::from(self.program.0) >= floor && rises(self.mills, mills)
    }
}

/// Whether the digits write numbers below `bound` that rise strictly.
fn rises(digits: &[u8], bound: u8) -> bool
    ensures { result ≡ rising 0 bound (bytes_of digits.now) }
{
    let mut floor = 0u16;
    for number in Bytes(digits) {
        if u16::from(number) < floor || number >= bound {
            return false;
        }
        floor = u16::from(number) + 1;
    }
    true
}
