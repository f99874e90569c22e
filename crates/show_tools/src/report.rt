//! The tool rule in words.
use capability::Source;
use sets::NumberSet;
use std::{fmt, io};
use telling::Refused;
use tools::{Extent, MillRow, ProgramRow, ToolSource, check_mills};
use vocabulary::{Mill, Program};

/// Three lengths, in words.
#[derive(Clone, Copy)]
struct Lengths(Extent);

impl fmt::Display for Lengths {
    fn fmt<W: fmt::Write>(&self, f: &mut fmt::Formatter<W>) -> fmt::Result {
        let Extent { x, y, z } = self.0;
        write!(f, "{x} x {y} x {z} mm")
    }
}

/// The tools of a set, in words.
#[derive(Clone, Copy)]
struct Tools(NumberSet);

impl fmt::Display for Tools {
    fn fmt<W: fmt::Write>(&self, f: &mut fmt::Formatter<W>) -> fmt::Result {
        for tool in self.0.iter() {
            write!(f, " tool {tool}")?;
        }
        Ok(())
    }
}

/// Tells whether a mill table is lawful, and if not, why.
pub fn check(rt: &HostRuntime, mills: &[MillRow]) -> io::Result<()> {
    let count = mills.len();
    match check_mills(mills) {
        Ok(()) => println!(rt; "a table of {count} mills is lawful"),
        Err(refusal) => {
            println!(rt;
                "a table of {count} mills is {}: {refusal}",
                Refused(refusal)
            )
        }
    }
}

/// Tells the mills of a shop, and of each of its programs which mills can cut it.
pub fn report(rt: &HostRuntime, mills: &[MillRow], programs: &[ProgramRow]) -> io::Result<()> {
    check(rt, mills)?;
    for (number, row) in (0..=255).zip(mills) {
        let mill = Mill(number);
        let tools = NumberSet::from_bits(row.tools);
        println!(rt;
            "mill {mill} travels {} and has{}",
            Lengths(row.travel),
            Tools(tools)
        )?;
    }
    let source = ToolSource::new(rt.alloc(), mills, programs)?;
    for (number, row) in (0..=255).zip(programs) {
        let program = Program(number);
        let tools = NumberSet::from_bits(row.tools);
        println!(rt;
            "program {program} has a blank of {} and needs{}",
            Lengths(row.blank),
            Tools(tools)
        )?;
        verdicts(rt, &source, mills, program, row)?;
    }
    Ok(())
}

/// Tells which mills can cut a program, and why the others cannot.
fn verdicts(
    rt: &HostRuntime,
    source: &ToolSource,
    mills: &[MillRow],
    program: Program,
    row: &ProgramRow,
) -> io::Result<()> {
    for (number, mill_row) in (0..source.mills()).zip(mills) {
        let mill = Mill(number);
        if source.able(program, mill) {
            println!(rt; "  mill {mill} can cut it")?;
        } else {
            reasons(rt, mill, mill_row, row)?;
        }
    }
    Ok(())
}

/// Tells each tool that a mill lacks for a program, and each axis on which the blank is too long for it.
fn reasons(rt: &HostRuntime, mill: Mill, mill_row: &MillRow, row: &ProgramRow) -> io::Result<()> {
    let missing = NumberSet::from_bits(row.tools).difference(NumberSet::from_bits(mill_row.tools));
    for tool in missing.iter() {
        println!(rt; "  mill {mill} cannot cut it: tool {tool} is missing")?;
    }
    for (name, blank, travel) in [
        ("x", row.blank.x, mill_row.travel.x),
        ("y", row.blank.y, mill_row.travel.y),
        ("z", row.blank.z, mill_row.travel.z),
    ] {
        if blank > travel {
            println!(rt;
                "  mill {mill} cannot cut it: its {name} axis travels {travel} mm, and the blank has {blank} mm"
            )?;
        }
    }
    Ok(())
}
