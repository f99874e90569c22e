//! How lines and answers are told.
use console::Exchange;
use std::alloc::{AllocError, Global};
use std::io;
use telling::Refused;
use vocabulary::Refusal;

/// What areas are filled with beforehand: a byte that no answer has.
pub const MARKER: u8 = b'#';

/// The most bytes that are told in full.
const SHORT: usize = 60;

/// How many bytes of a longer text are told: the first line of an answer that tells only how many tickets were moved.
const FRONT: usize = 11;

/// A text on one line, with `|` for each line feed and `^` for each carriage return.
fn on_one_line(heap: Global, text: &[u8]) -> Result<String, AllocError> {
    text.iter()
        .map(|byte| match *byte {
            b'\n' => '|',
            b'\r' => '^',
            other => char::from(other),
        })
        .collect(heap)
}

/// Whether every byte is the marker.
fn is_untouched(bytes: &[u8]) -> bool {
    // As in the other programs of cases: one call, on a marker of its own.
    bytes.iter().all(|byte| *byte == MARKER)
}

/// What became of the area behind an answer.
fn rest_told(rest: &[u8]) -> &'static str {
    if is_untouched(rest) {
        "rest kept"
    } else {
        "REST CHANGED"
    }
}

/// How many lines a text has.
fn lines_in(text: &[u8]) -> usize {
    text.iter().filter(|byte| **byte == b'\n').count()
}

/// A sum over the bytes of a text that goes on from an earlier sum, and in which their order counts.
fn summed(before: u32, text: &[u8]) -> u32 {
    text.iter().fold(before, |sum, byte| {
        sum.wrapping_mul(31).wrapping_add(u32::from(*byte))
    })
}

/// Tells a text: in full if it is short, and else its front, how long it is and its sum.
fn text(rt: &HostRuntime, text: &[u8]) -> io::Result<()> {
    match text.split_at_checked(FRONT) {
        Some((front, _)) if text.len() > SHORT => {
            let front = on_one_line(rt.alloc(), front)?;
            let bytes = text.len();
            let lines = lines_in(text);
            let sum = summed(0, text);
            print!(rt; "{front}.. ({bytes} bytes, {lines} lines, sum {sum})")
        }
        _ => {
            let line = on_one_line(rt.alloc(), text)?;
            print!(rt; "{line}")
        }
    }
}

/// Tells what a line was answered, and whether the area behind the answer is as it was.
pub fn answered(
    rt: &HostRuntime,
    line: &[u8],
    answer: Result<usize, Refusal>,
    area: &[u8],
) -> io::Result<()> {
    text(rt, line)?;
    match answer {
        Ok(length) => written(rt, area, length),
        Err(refusal) => {
            let kept = rest_told(area);
            println!(rt; " {}, {kept}", Refused(refusal))
        }
    }
}

/// Tells an answer of so many bytes.
fn written(rt: &HostRuntime, area: &[u8], length: usize) -> io::Result<()> {
    match area.split_at_checked(length) {
        Some((answer, rest)) => {
            print!(rt; " gives ")?;
            text(rt, answer)?;
            let kept = rest_told(rest);
            println!(rt; ", {kept}")
        }
        None => println!(rt; " GIVES MORE THAN THE AREA HOLDS"),
    }
}

/// Tells answered lines, one by one.
pub fn one_by_one(rt: &HostRuntime, exchanges: &[Exchange]) -> io::Result<()> {
    for exchange in exchanges {
        print!(rt; "  ")?;
        answered(
            rt,
            exchange.line.as_slice(),
            exchange.answer,
            exchange.area.as_slice(),
        )?;
    }
    Ok(())
}

/// Tells of lines, if there are any, how many lines they were answered with altogether, and the sum of these.
pub fn together(rt: &HostRuntime, exchanges: &[Exchange]) -> io::Result<()> {
    if exchanges.is_empty() {
        return Ok(());
    }
    let mut lines = 0usize;
    let mut sum = 0u32;
    let mut kept = true;
    for exchange in exchanges {
        let (answer, rest) = parted(exchange);
        lines = lines.saturating_add(lines_in(answer));
        sum = summed(sum, answer);
        kept = kept && is_untouched(rest);
    }
    let count = exchanges.len();
    let kept = if kept { "rests kept" } else { "RESTS CHANGED" };
    println!(rt; "  {count} lines give {lines} lines of sum {sum}, {kept}")
}

/// The answer to a line, and the area behind it. A line without an answer has the whole area.
fn parted(exchange: &Exchange) -> (&[u8], &[u8]) {
    let area = exchange.area.as_slice();
    let length = exchange.answer.unwrap_or(0);
    area.split_at_checked(length).unwrap_or((&[], area))
}
