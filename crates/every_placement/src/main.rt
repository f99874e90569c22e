//! Tries every placement of small boards against what boards answer, and tells how much was compared.
#![tactic(auto)]

#[cfg(test)]
mod tests;

use anyhow::anyhow;
use witness::drive::drive_all;

/// Drives all boards and tells what was compared; an error where anything differed.
fn run(rt: &HostRuntime) -> anyhow::Result<()> {
    let counts = drive_all(rt)?;
    println!(rt; "{counts}")?;
    if counts.differing > 0 {
        return Err(anyhow!("a board differs from what is due"));
    }
    println!(rt; "none differed")?;
    Ok(())
}

fn main(rt: HostRuntime) -> anyhow::Result<()> {
    run(&rt)
}
