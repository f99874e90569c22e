//! The sheet writer: writes the one sheet of a source into a text area.
ghost use Rattle.std.specs.Prelude.{◌≡◌, ◌+◌, ◌≤◌, ◌∷◌, length, Some, None, MatchResult};
ghost use Rattle.sets.specs.Sets.{members};
ghost use Rattle.capability.specs.Copied.{copied};
ghost use Rattle.sheet.specs.Area.{put, unwritten, Wrote, HasRoom, Appends};
ghost use Rattle.sheet.specs.Copies.{entry_of, entries_of, sheet_for};

use crate::frame_writer::FrameWriter;
use crate::kind::FrameKind;
use arrayvec::ArrayVec;
use capability::{Abilities, Source};
use sets::NumberSet;
use vocabulary::{Program, Refusal};

/// The length of the lines of a program: none where no mill is able for it.
fn entry_len(abilities: &Abilities, program: Program) -> usize
    ensures value { result ≡ length (entry_of abilities.now program.0) }
    ensures short { result ≤ 137 }
{
    match abilities.row(program).count() {
        0 => 0,
        mills => 2 * (usize::from(mills) + 4) + 1,
    }
}

/// The length of the lines of all programs.
fn entries_len(abilities: &Abilities) -> usize
    ensures value { result ≡ length (entries_of abilities.now 256) }
    ensures short { result ≤ 35072 }
{
    (0..256u16)
        .map(|program| entry_len(abilities, Program(program as u8)))
        .sum()
}

/// The length of a sheet: its first line, the lines of its programs and its last line.
fn sheet_len(abilities: &Abilities) -> usize
    ensures value { result ≡ length (sheet_for abilities.now) }
    ensures short { result ≤ 35088 }
{
    9 + entries_len(abilities) + 7
}

/// The payload of a program's frame: the program and then its mills, rising.
fn payload_of(program: Program, row: NumberSet) -> ArrayVec<u8, 65>
    ensures { result.items ≡ program.0 ∷ members row }
{
    let mut payload = ArrayVec::new();
    payload.push(program.0);
    for mill in row.iter() {
        payload.push(mill);
    }
    payload
}

// Frames are written and abilities read, so they are two: a struct of both would only be passed on.

/// Writes the lines of a program, and nothing else.
fn put_entry(frames: &mut FrameWriter<'_>, abilities: &Abilities, program: Program)
    requires { HasRoom (length (entry_of abilities.now program.0)) frames.old }
    ensures { Appends (entry_of abilities.now program.0) frames.old frames.new }
{
    let row = abilities.row(program);
    if row.is_empty() {
        return;
    }
    let payload = payload_of(program, row);
    frames.frame(FrameKind::Program.into(), payload.as_slice());
}

/// Writes the lines of all programs, and nothing else.
fn put_entries(frames: &mut FrameWriter<'_>, abilities: &Abilities)
    requires { HasRoom (length (entries_of abilities.now 256)) frames.old }
    ensures { Appends (entries_of abilities.now 256) frames.old frames.new }
{
    for program in 0..=255 {
        put_entry(frames, abilities, Program(program));
    }
}

/// Writes the lines of a sheet, and nothing else.
fn put_lines(frames: &mut FrameWriter<'_>, abilities: &Abilities)
    requires { HasRoom (length (sheet_for abilities.now)) frames.old }
    ensures { Appends (sheet_for abilities.now) frames.old frames.new }
{
    frames.frame(FrameKind::Mills.into(), &[abilities.mills()]);
    put_entries(frames, abilities);
    frames.frame(FrameKind::End.into(), &[]);
}

/// Writes a sheet to the front of an area, and nothing else; tells its length.
fn put_sheet(area: &mut [u8], abilities: &Abilities) -> usize
    requires { length (sheet_for abilities.now) ≤ length area.old }
    ensures long { result ≡ length (sheet_for abilities.now) }
    ensures text { area.new ≡ put 0 (sheet_for abilities.now) area.old }
{
    let mut frames = FrameWriter::new(area, 0);
    put_lines(&mut frames, abilities);
    frames.written()
}

/// Writes the sheet of copied abilities to the front of an area; a refusal leaves the area as it was.
fn write(abilities: &Abilities, area: &mut [u8]) -> Result<usize, Refusal>
    ensures { MatchResult result (λ long. (unwritten (copied abilities.now) (length area.old) ≡ None) × Wrote (copied abilities.now) area.old long area.new) (λ e. (unwritten (copied abilities.now) (length area.old) ≡ Some e) × (area.new ≡ area.old)) }
{
    if abilities.mills() == 0 {
        return Err(Refusal::NoMills);
    }
    let needed = sheet_len(abilities);
    if area.len() < needed {
        return Err(Refusal::ShortArea {
            needed: needed as u16,
        });
    }
    Ok(put_sheet(area, abilities))
}

/// Writes the one sheet of a source to the front of a text area, and tells its length. The area behind it is left as it was; a refusal leaves all of it.
pub fn write_sheet<S: Source>(source: &S, area: &mut [u8]) -> Result<usize, Refusal>
    ensures { MatchResult result (λ long. (unwritten (S.meaning source.now) (length area.old) ≡ None) × Wrote (S.meaning source.now) area.old long area.new) (λ e. (unwritten (S.meaning source.now) (length area.old) ≡ Some e) × (area.new ≡ area.old)) }
{
    write(&Abilities::of(source), area)
}
