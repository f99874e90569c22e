//! The lines that tell what came of a case.
use capability::Source;
use std::io;
use telling::Refused;
use vocabulary::{Mill, Program, Refusal};

/// Tells whether a pair came out able.
pub fn able(rt: &HostRuntime, what: &str, able: bool) -> io::Result<()> {
    let verdict = if able { "able" } else { "not able" };
    println!(rt; "{what}: {verdict}")
}

/// Tells whether a source has a pair able.
fn pair<S: Source>(rt: &HostRuntime, source: &S, program: u8, mill: u8) -> io::Result<()> {
    print!(rt; "  program {program} on mill {mill}")?;
    able(rt, "", source.able(Program(program), Mill(mill)))
}

/// Tells of each of some pairs whether a source has it able.
pub fn pairs<S: Source>(rt: &HostRuntime, source: &S, pairs: &[(u8, u8)]) -> io::Result<()> {
    for (program, mill) in pairs {
        pair(rt, source, *program, *mill)?;
    }
    Ok(())
}

/// Tells whether a call was taken, or how it was refused.
pub fn taken(rt: &HostRuntime, what: &str, res: Result<(), Refusal>) -> io::Result<()> {
    match res {
        Ok(()) => println!(rt; "{what}: taken"),
        Err(refusal) => println!(rt; "{what}: {}", Refused(refusal)),
    }
}
