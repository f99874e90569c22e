//! What a sheet means, line by line.
use capability::{Abilities, Source};
use sheet::{SheetSource, check, write_sheet};
use std::io;
use telling::Refused;
use vocabulary::{Program, Refusal};

/// Tells what was found in a text: what the sheet means and that it was written back, or why it is refused.
pub fn report(rt: &HostRuntime, text: &[u8]) -> io::Result<()> {
    match check(text) {
        Ok(mills) => {
            println!(rt; "the sheet is lawful: {mills} mills")?;
            let source = SheetSource::new(text);
            let pairs = programs(rt, &source)?;
            println!(rt; "able pairs: {pairs}")?;
            written_back(rt, &source, text)
        }
        Err(refusal) => refused(rt, "the sheet", refusal),
    }
}

/// Tells each program that some mill can cut, with its mills, and gives the number of able pairs.
// The mills are read off a copy of what the source means, which asks each pair once and allocates nothing.
fn programs<S: Source>(rt: &HostRuntime, source: &S) -> io::Result<usize> {
    let abilities = Abilities::of(source);
    let mut pairs = 0usize;
    for number in 0..=255 {
        let program = Program(number);
        let mills = abilities.row(program);
        if !mills.is_empty() {
            print!(rt; "program {program} can be cut on:")?;
            for mill in mills.iter() {
                print!(rt; " mill {mill}")?;
            }
            println!(rt; "")?;
        }
        pairs = pairs.saturating_add(usize::from(mills.count()));
    }
    Ok(pairs)
}

/// Writes the sheet of a source, and tells whether it is the text that the source was read from.
fn written_back<S: Source>(rt: &HostRuntime, source: &S, text: &[u8]) -> io::Result<()> {
    let mut area = vec![in rt.alloc(); 0u8; text.len()]?;
    match write_sheet(source, area.as_mut_slice()) {
        Ok(length) => {
            let verdict = if area.as_slice() == text {
                "the same bytes"
            } else {
                "other bytes"
            };
            println!(rt; "written back: {length} bytes, {verdict}")
        }
        Err(refusal) => refused(rt, "writing it back", refusal),
    }
}

/// Tells what was refused, and why.
fn refused(rt: &HostRuntime, what: &str, refusal: Refusal) -> io::Result<()> {
    println!(rt; "{what} is {}: {refusal}", Refused(refusal))
}
