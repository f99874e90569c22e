//! The sheet reader: goes through a text frame by frame, and tells its first fault.
ghost use Rattle.std.specs.Prelude.{◌≡◌, ◌+◌, ◌≤◌, Ok, Err, MatchOption, MatchResult};
ghost use Rattle.std.specs.Result.{result_map_both};
ghost use Rattle.capability.specs.Meaning.{nothing};
ghost use Rattle.sheet.specs.Sheets.{sheet_of};
ghost use Rattle.sheet.specs.Content.{listed};

use crate::frame::{Entry, SheetFrame, count_due, first_sheet_frame};
use vocabulary::Refusal;

/// A sheet that is being read: what is left of its text, and what may come next in it.
/// Each entry raises the floor with the line, so that a line's number stays small.
#[derive(Drop)]
struct SheetReader<'a> {
    /// The text that is left.
    rest: &'a [u8],
    /// The number of its first line.
    line: u16,
    /// The least program that may come next.
    floor: u16,
    /// The count of mills.
    mills: u8,
    ghost few_programs: { floor ≤ 256 },
    ghost few_lines: { line ≤ floor + 2 },
}

impl<'a> SheetReader<'a> {
    ghost use Rattle.sheet.specs.Reading.{ahead, Opened, Listed};

    /// A reader behind the first line of a sheet, which has the count of mills.
    fn open(text: &'a [u8]) -> Result<SheetReader<'a>, Refusal>
        ensures { MatchResult result (Opened text.now) (λ e. sheet_of text.now ≡ Err e) }
    {
        let (frame, rest) = first_sheet_frame(text, 1)?;
        let mills = count_due(frame, 1)?;
        Ok(SheetReader {
            rest,
            line: 2,
            floor: 0,
            mills,
        })
    }

    /// Takes the next entry, or nothing at the end of the sheet.
    fn next_entry(&mut self) -> Result<Option<Entry<'a>>, Refusal>
        ensures { MatchResult result (λ o. MatchOption o ((ahead self.old ≡ Ok nothing.able) × (self.new ≡ self.old)) (λ e. Listed self.old (listed e) self.new)) (λ e. (ahead self.old ≡ Err e) × (self.new ≡ self.old)) }
    {
        let line = self.line;
        let (frame, rest) = first_sheet_frame(self.rest, line)?;
        match frame {
            SheetFrame::Program(entry) if entry.is_due(self.floor, self.mills) => {
                self.rest = rest;
                self.floor = u16::from(entry.program.0) + 1;
                self.line = line + 1;
                Ok(Some(entry))
            }
            SheetFrame::Program(_) => Err(Refusal::WrongValue { line }),
            SheetFrame::End if rest.is_empty() => Ok(None),
            SheetFrame::End => Err(Refusal::NotDue { line: line + 1 }),
            SheetFrame::Mills(_) => Err(Refusal::NotDue { line }),
        }
    }
}

/// Checks a text: the count of mills of a lawful sheet, or the refusal of the first fault.
pub fn check(text: &[u8]) -> Result<u8, Refusal>
    ensures { result ≡ result_map_both (λ meaning. meaning.mills) (λ e. e) (sheet_of text.now) }
{
    let mut reader = SheetReader::open(text)?;
    while reader.next_entry()?.is_some() {}
    Ok(reader.mills)
}
