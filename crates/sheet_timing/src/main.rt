//! Takes the time of asking a sheet source of the longest sheet for all of its pairs.
//! What was asked goes to standard output, which is compared; the time goes to standard error, which is not.
#![tactic(auto)]

use capability::Source;
use sheet::SheetSource;
use std::time::Instant;
use std::{fs, io};
use vocabulary::{Mill, Program};

/// How often everything is asked.
const ROUNDS: u32 = 20;

/// Asks for a program on each of 64 mills, and tells how many are able.
// One chain, in two programs that share no crate.
fn able_mills<S: Source>(source: &S, program: Program) -> usize {
    (0..64)
        .filter(|number| source.able(program, Mill(*number)))
        .count()
}

/// Asks for each of 256 programs, and tells how many pairs are able.
fn able_pairs<S: Source>(source: &S) -> usize {
    (0..=255).fold(0usize, |pairs, number| {
        pairs.saturating_add(able_mills(source, Program(number)))
    })
}

fn main(rt: HostRuntime) -> io::Result<()> {
    let text = fs::read(&rt, "full.hex")?;
    let source = SheetSource::new(text.as_slice());
    let start = Instant::now(&rt)?;
    let mut able = 0;
    for _ in 0..ROUNDS {
        able = able_pairs(&source);
    }
    let micros = start.elapsed(&rt)?.as_micros() / u128::from(ROUNDS);
    let mills = source.mills();
    println!(rt; "{mills} mills, {able} able pairs")?;
    eprintln!(rt; "{micros} microseconds for all pairs")
}
