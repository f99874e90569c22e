//! A console over the shop's sheet, served line by line.
use crate::line::Line;
use capability::Source;
use console::Console;
use sheet::{SheetSource, check};
use sheet_file::sheet_text;
use std::io;
use std::io::{BufReader, Read, Write};
use vocabulary::Refusal;
use wire::{AREA, Reply, put_reply};

/// Answers standard input on a console over the sheet in the file cell.hex, until it ends; or writes why the sheet is refused.
pub fn run(rt: &HostRuntime) -> io::Result<()> {
    let text = sheet_text(rt)?;
    match check(text.as_slice()) {
        Ok(_) => serve(rt, SheetSource::new(text.as_slice())),
        Err(refusal) => refuse(rt, refusal),
    }
}

/// Answers each line of standard input on a console over a source, and a last line that has no line feed.
fn serve<S: Source + Drop>(rt: &HostRuntime, source: S) -> io::Result<()> {
    let mut area = vec![in rt.alloc(); 0u8; AREA]?;
    let mut console = Console::new(source);
    let mut line = Line::new(rt.alloc());
    for byte in BufReader::new(rt.alloc(), rt.stdin())?.bytes() {
        if line.push(byte?)? {
            console = answer(rt, console, line.bytes(), area.as_mut_slice())?;
            line.clear();
        }
    }
    if !line.is_empty() {
        answer(rt, console, line.bytes(), area.as_mut_slice())?;
    }
    Ok(())
}

/// Answers one line, and writes the answer at once.
fn answer<S: Source + Drop>(
    rt: &HostRuntime,
    console: Console<S>,
    line: &[u8],
    area: &mut [u8],
) -> io::Result<Console<S>> {
    let (console, length) = console.answer(line, area);
    match length {
        Ok(length) => write_out(rt, &area[..length])?,
        Err(refusal) => refuse(rt, refusal)?,
    }
    Ok(console)
}

/// Writes the line of a refusal.
fn refuse(rt: &HostRuntime, refusal: Refusal) -> io::Result<()> {
    let mut area = vec![in rt.alloc(); 0u8; AREA]?;
    let length = put_reply(area.as_mut_slice(), Reply::from(refusal), &[]);
    write_out(rt, &area.as_slice()[..length])
}

/// Writes to standard output at once.
fn write_out(rt: &HostRuntime, text: &[u8]) -> io::Result<()> {
    let mut out = rt.stdout();
    out.write_all(text)?;
    out.flush()
}
