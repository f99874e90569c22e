//! Frames written as lines, for lists that are too long to be spelled out.
use std::alloc::{AllocError, Global};

// A kind is a bare byte here: these lines are written from the formats, and not by the kinds of the code that they test.

/// Adds the line of a frame to a text. A payload of over 255 bytes has no count byte of its own, and gets the low byte of its length.
pub fn push_frame(text: &mut String, kind: u8, payload: &[u8]) -> Result<(), AllocError> {
    let count = (payload.len() % 256) as u8;
    let sum = payload.iter().fold(
        kind.wrapping_add(count),
        |sum, byte| sum.wrapping_add(*byte),
    );
    write!(text, "{kind:02X}{count:02X}")?;
    for byte in payload {
        write!(text, "{byte:02X}")?;
    }
    writeln!(text, "{:02X}", sum.wrapping_neg())
}

/// The line of a frame.
pub fn frame(heap: Global, kind: u8, payload: &[u8]) -> Result<String, AllocError> {
    let mut text = String::new(heap);
    push_frame(&mut text, kind, payload)?;
    Ok(text)
}

/// The line that adds a ticket.
pub fn add_line(heap: Global, ticket: u16, program: u8) -> Result<String, AllocError> {
    let [high, low] = ticket.to_be_bytes();
    frame(heap, 0x11, &[high, low, program])
}
