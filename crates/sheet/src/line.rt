//! The line reader: takes a frame from the front of a text, and tells the faults of a single line.
ghost use Rattle.std.specs.Prelude.{◌≡◌, ℕ, ◌<◌, min, length, Ok, Err, MatchOption, MatchResult, ◌≢◌, slice_index};
ghost use Rattle.vocabulary.specs.declared.refusal.Refusal.TheVariants.{BadLine};
ghost use Rattle.sheet.specs.Lines.{lines_of};
ghost use Rattle.sheet.specs.Frames.{well_formed, frame_in, first_frame, only_frame};
ghost use Rattle.sheet.specs.Content.{content, Split, Taken, EndsAt};

use crate::digits::{all_digits, byte_at, byte_sum};
use vocabulary::Refusal;

/// The most digits that a line may have: kind, count, 255 payload bytes and check.
const LONGEST: usize = 516;

/// A frame as its line writes it: its kind, and the digits of its payload.
#[derive(Clone, Copy)]
pub struct RawFrame<'a> {
    pub kind: u8,
    pub payload: &'a [u8],
}

/// Whether these are the characters of a line: an even number of digits, 6 to 516.
fn well_formed(characters: &[u8]) -> bool
    ensures { result ≡ well_formed characters.now }
{
    let n = characters.len();
    all_digits(characters) && n % 2 == 0 && (6..=LONGEST).contains(&n)
}

/// The place of the first line feed, where at most 516 characters stand before it.
fn line_end(text: &[u8]) -> Option<usize>
    ensures { MatchOption result ((k : ℕ) → k < min 517 (length text.now) → slice_index text.now k ≢ 10) (EndsAt text.now) }
{
    text.iter().take(LONGEST + 1).position(|c| *c == b'\n')
}

/// The frame on a line, given its characters without the line feed.
fn frame_in(characters: &[u8], line: u16) -> Result<RawFrame<'_>, Refusal>
    ensures { MatchResult result (λ raw. frame_in line characters.now ≡ Ok (content raw)) (λ e. frame_in line characters.now ≡ Err e) }
{
    if !well_formed(characters) {
        return Err(Refusal::BadLine { line });
    }
    let count = characters.len() / 2 - 3;
    if usize::from(byte_at(characters, 1)) != count {
        return Err(Refusal::WrongCount { line });
    }
    if byte_sum(characters) != 0 {
        return Err(Refusal::WrongSum { line });
    }
    Ok(RawFrame {
        kind: byte_at(characters, 0),
        payload: &characters[4..4 + 2 * count],
    })
}

/// The characters of the first line of a text without their line feed, and the text behind it; nothing where no line ends in reach.
fn split_line(text: &[u8]) -> Option<(&[u8], &[u8])>
    ensures { MatchOption result ((i : ℕ) → first_frame i (lines_of text.now) ≡ Err (BadLine i)) (λ x. Split text.now x.0.now x.1.now) }
{
    let end = line_end(text)?;
    Some((&text[..end], &text[end + 1..]))
}

// A text and the number of its line go in as two: the number is only what a refusal tells, and the sheet reader alone keeps it.

/// The frame on the first line of a text, and the text behind that line.
pub fn first_frame(text: &[u8], line: u16) -> Result<(RawFrame<'_>, &[u8]), Refusal>
    ensures { MatchResult result (λ x. Taken line text.now (content x.0) x.1.now) (λ e. first_frame line (lines_of text.now) ≡ Err e) }
{
    let (characters, rest) = split_line(text).ok_or(Refusal::BadLine { line })?;
    let frame = frame_in(characters, line)?;
    Ok((frame, rest))
}

/// The frame of a text that is one line.
pub fn only_frame(text: &[u8], line: u16) -> Result<RawFrame<'_>, Refusal>
    ensures { MatchResult result (λ raw. only_frame line (lines_of text.now) ≡ Ok (content raw)) (λ e. only_frame line (lines_of text.now) ≡ Err e) }
{
    let characters = whole_line(text).ok_or(Refusal::BadLine { line })?;
    frame_in(characters, line)
}

/// The characters of a text that is one line, without the line feed; nothing where it is not.
fn whole_line(text: &[u8]) -> Option<&[u8]>
    ensures { MatchOption result ((i : ℕ) → only_frame i (lines_of text.now) ≡ Err (BadLine i)) (λ x. (i : ℕ) → only_frame i (lines_of text.now) ≡ frame_in i x.now) }
{
    let (characters, rest) = split_line(text)?;
    rest.is_empty().then_some(characters)
}
