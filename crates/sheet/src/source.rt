//! The sheet source: a shop's text, kept for reading only, that answers for the shop's abilities.
ghost use Rattle.std.specs.Prelude.{◌≡◌, ◌+◌, ◌*◌, ◌≤◌, true, length, is_ok, slice_index};
ghost use Rattle.capability.specs.Meaning.{Lawful};
ghost use Rattle.sheet.specs.Front.{FrontEntry};
ghost use Rattle.sheet.specs.Digits.{bytes_of};
ghost use Rattle.sets.specs.Sets.{member};
ghost use Rattle.sheet.specs.Sheets.{sheet_of, meaning_of};
ghost use Rattle.sheet.specs.Written.{mills_for};

use crate::digits::{Bytes, byte_at};
use crate::frame::Entry;
use crate::kind::FrameKind;
use crate::reader::check;
use capability::Source;
use vocabulary::{Mill, Program};

/// A source over a lent text. A text that is no lawful sheet means no mill and no pair.
#[derive(Clone, Copy)]
pub struct SheetSource<'a> {
    text: &'a [u8],
    mills: u8,
    ghost counted: { mills ≡ (meaning_of (sheet_of text.now)).mills },
    ghost keeps_law: { Lawful (meaning_of (sheet_of text.now)) },
}

impl<'a> SheetSource<'a> {
    /// The source over a text. This cannot be refused: `check` tells whether the text is a lawful sheet.
    pub fn new(text: &'a [u8]) -> SheetSource<'a>
        ensures { result.text.now ≡ text.now }
    {
        SheetSource {
            text,
            mills: check(text).unwrap_or(0),
        }
    }
}

/// The length of the first line of a sheet, which has the count of mills.
const COUNT_LINE: usize = 9;

/// The program frame at the front of a text, and the text behind its line, found by its count byte alone.
fn front_entry(text: &[u8]) -> (Entry<'_>, &[u8])
    requires { (1 ≤ slice_index (bytes_of text.now) 1) × (2 * slice_index (bytes_of text.now) 1 + 7 ≤ length text.now) }
    ensures { FrontEntry text.now result.0 result.1.now }
{
    let end = 4 + 2 * usize::from(byte_at(text, 1));
    let entry = Entry {
        program: Program(byte_at(text, 2)),
        mills: &text[6..end],
    };
    (entry, &text[end + 3..])
}

/// The digits of the mills that a lawful sheet lists for a program: none where it does not list the program.
/// It steps from frame to frame by the count bytes, and decodes nothing else of the frames that it skips but their programs.
// The source keeps the text only, so this is gone over anew for each question, in its own rising order.
fn mills_of(text: &[u8], program: Program) -> &[u8]
    requires { is_ok (sheet_of text.now) ≡ true }
    ensures { bytes_of result.now ≡ mills_for (meaning_of (sheet_of text.now)) program.0 }
{
    let mut rest = &text[COUNT_LINE..];
    while byte_at(rest, 0) == u8::from(FrameKind::Program) {
        let (entry, after) = front_entry(rest);
        if entry.program == program {
            return entry.mills;
        }
        // By the number: an order of programs would serve this place alone.
        if entry.program.0 > program.0 {
            break;
        }
        rest = after;
    }
    &[]
}

/// Whether a number is among those that the digits write.
fn lists(digits: &[u8], number: u8) -> bool
    ensures { result ≡ member number (bytes_of digits.now) }
{
    Bytes(digits).any(|byte| byte == number)
}

impl<'a> Source for SheetSource<'a> {
    ghost meaning = { λ source. meaning_of (sheet_of source.text.now) };

    ghost lawful = { λ source. source.keeps_law };

    fn mills(&self) -> u8 {
        self.mills
    }

    fn able(&self, program: Program, mill: Mill) -> bool {
        // no mill is counted where the text is no lawful sheet
        if self.mills == 0 {
            return false;
        }
        lists(mills_of(self.text, program), mill.0)
    }
}
