//! Runs the texts of standard input through the sheet reader, the sheet source and the sheet writer, and tells what came of each.
//! A text stands on one line of the input, with `|` for each of its line feeds.
#![tactic(auto)]

use capability::Source;
use sheet::{SheetSource, check, write_sheet};
use std::alloc::{AllocError, Global};
use std::io;
use telling::Refused;
use vocabulary::Refusal;

/// What an area is filled with before a sheet is written into it.
const FILLER: u8 = b'.';

/// How much longer than the sheet the long area is.
const SPARE: usize = 7;

/// The text that a line of the input spells.
fn spelled(heap: Global, line: &[u8]) -> Result<Vec<u8>, AllocError> {
    line.iter()
        .map(|c| if *c == b'|' { b'\n' } else { *c })
        .collect(heap)
}

/// Whether every byte is the filler.
fn all_filler(bytes: &[u8]) -> bool {
    // As in the other programs of cases: one call, on a marker of its own.
    bytes.iter().all(|b| *b == FILLER)
}

/// Whether an area of `length` bytes takes the sheet of a source as this text, and keeps what lies behind it.
fn takes<S: Source>(
    heap: Global,
    source: &S,
    text: &[u8],
    length: usize,
) -> Result<bool, AllocError> {
    let mut area = vec![in heap; FILLER; length]?;
    let written = write_sheet(source, area.as_mut_slice()).is_ok();
    let parts = area.as_slice().split_at_checked(text.len());
    Ok(written && parts.is_some_and(|(front, back)| front == text && all_filler(back)))
}

/// The refusal of an area of `length` bytes, if it leaves the area as it was.
fn refuses<S: Source>(
    heap: Global,
    source: &S,
    length: usize,
) -> Result<Option<Refusal>, AllocError> {
    let mut area = vec![in heap; FILLER; length]?;
    match write_sheet(source, area.as_mut_slice()) {
        Err(refusal) if all_filler(area.as_slice()) => Ok(Some(refusal)),
        _ => Ok(None),
    }
}

/// Tells what becomes of writing the sheet of a text that was found lawful.
fn written(rt: &HostRuntime, text: &[u8]) -> io::Result<()> {
    let source = SheetSource::new(text);
    let heap = rt.alloc();
    let exact = takes(heap, &source, text, text.len())?;
    let longer = takes(heap, &source, text, text.len().saturating_add(SPARE))?;
    let back = if exact && longer {
        "the same"
    } else {
        "NOT THE SAME"
    };
    print!(rt; ", written back {back}")?;
    told(
        rt,
        "one byte less",
        refuses(heap, &source, text.len().saturating_sub(1))?,
    )
}

/// Tells a refusal, or that there was none.
fn told(rt: &HostRuntime, what: &str, refusal: Option<Refusal>) -> io::Result<()> {
    match refusal {
        Some(refusal) => println!(rt; ", {what} {}", Refused(refusal)),
        None => println!(rt; ", {what} NOT REFUSED"),
    }
}

/// Tells what came of one text.
fn run(rt: &HostRuntime, text: &[u8]) -> io::Result<()> {
    match check(text) {
        Ok(mills) => {
            print!(rt; "lawful, {mills} mills")?;
            written(rt, text)
        }
        Err(refusal) => {
            print!(rt; "{}", Refused(refusal))?;
            told(
                rt,
                "its sheet",
                refuses(rt.alloc(), &SheetSource::new(text), SPARE)?,
            )
        }
    }
}

fn main(rt: HostRuntime) -> io::Result<()> {
    for line in rt.lines(rt.alloc()) {
        let line = line?;
        let text = spelled(rt.alloc(), line.as_bytes())?;
        run(&rt, text.as_slice())?;
    }
    Ok(())
}
