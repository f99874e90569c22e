//! One layer over the shop: strikes, or aliases.
use crate::sheets::sheet;
use crate::shop::shop;
use crate::tell;
use capability::Source;
use layers::{Aliases, Strikes};
use std::io;
use vocabulary::{Mill, Program, Refusal};

/// Strikes one by one.
pub fn strikes(rt: &HostRuntime) -> io::Result<()> {
    let mut layer = Strikes::new(shop(rt.alloc())?);
    println!(rt; "no strike")?;
    tell::pairs(rt, &layer, &[(5, 1), (5, 2)])?;
    tell::taken(rt, "strike 5 on 1", layer.strike(Program(5), Mill(1)))?;
    tell::pairs(rt, &layer, &[(5, 1), (5, 2), (9, 1)])?;
    tell::taken(rt, "strike 5 on 1 again", layer.strike(Program(5), Mill(1)))?;
    tell::pairs(rt, &layer, &[(5, 1)])?;
    tell::taken(
        rt,
        "strike 6 on 3, not able below",
        layer.strike(Program(6), Mill(3)),
    )?;
    tell::pairs(rt, &layer, &[(6, 2), (6, 3)])?;
    tell::taken(
        rt,
        "strike 255 on 255",
        layer.strike(Program(255), Mill(255)),
    )?;
    let mills = layer.mills();
    println!(rt; "  {mills} mills")
}

/// Makes an entry for each of the first so many programs, and tells how many were taken: in a loop, since each entry changes the
/// table.
fn taken_of<F: FnMut(Program) -> Result<(), Refusal>>(programs: u8, mut entry: F) -> u8
    requires { F.IsAlwaysCallable entry }
{
    let mut count = 0u8;
    for number in 0..programs {
        if entry(Program(number)).is_ok() {
            count = count.saturating_add(1);
        }
    }
    count
}

/// A table of 32 strikes.
pub fn full_strikes(rt: &HostRuntime) -> io::Result<()> {
    let mut layer = Strikes::new(shop(rt.alloc())?);
    let count = taken_of(31, |program| layer.strike(program, Mill(program.0 % 4)));
    println!(rt; "{count} strikes taken")?;
    tell::taken(
        rt,
        "a 32nd strike, 31 on 3",
        layer.strike(Program(31), Mill(3)),
    )?;
    tell::pairs(rt, &layer, &[(31, 3)])?;
    tell::taken(
        rt,
        "a 33rd strike, 32 on 0",
        layer.strike(Program(32), Mill(0)),
    )?;
    tell::pairs(rt, &layer, &[(32, 0)])?;
    tell::taken(
        rt,
        "a 33rd strike, 0 on 1",
        layer.strike(Program(0), Mill(1)),
    )?;
    tell::taken(
        rt,
        "a held strike, 0 on 0",
        layer.strike(Program(0), Mill(0)),
    )?;
    tell::taken(
        rt,
        "a held strike, 31 on 3",
        layer.strike(Program(31), Mill(3)),
    )?;
    tell::pairs(rt, &layer, &[(0, 0), (31, 3)])?;
    sheet(rt, "its sheet", &layer)
}

/// Aliases one by one.
pub fn aliases(rt: &HostRuntime) -> io::Result<()> {
    let mut layer = Aliases::new(shop(rt.alloc())?);
    println!(rt; "no alias")?;
    tell::pairs(rt, &layer, &[(5, 1), (5, 2)])?;
    tell::taken(rt, "5 cut as 6", layer.alias(Program(5), Program(6)))?;
    tell::pairs(rt, &layer, &[(5, 1), (5, 2), (6, 2)])?;
    tell::taken(
        rt,
        "5 cut as 7, which replaces it",
        layer.alias(Program(5), Program(7)),
    )?;
    tell::pairs(rt, &layer, &[(5, 2), (5, 3)])?;
    tell::taken(rt, "5 cut as 5", layer.alias(Program(5), Program(5)))?;
    tell::pairs(rt, &layer, &[(5, 1), (5, 3)])?;
    let mills = layer.mills();
    println!(rt; "  {mills} mills")
}

/// An alias of an alias, which is not followed, and aliases to and from programs that stand in no table.
pub fn chains(rt: &HostRuntime) -> io::Result<()> {
    let mut layer = Aliases::new(shop(rt.alloc())?);
    tell::taken(rt, "9 cut as 10", layer.alias(Program(9), Program(10)))?;
    tell::taken(rt, "10 cut as 11", layer.alias(Program(10), Program(11)))?;
    tell::pairs(rt, &layer, &[(9, 2), (9, 3), (10, 2), (10, 3)])?;
    tell::taken(rt, "12 cut as 200", layer.alias(Program(12), Program(200)))?;
    tell::pairs(rt, &layer, &[(12, 0)])?;
    tell::taken(rt, "255 cut as 12", layer.alias(Program(255), Program(12)))?;
    tell::pairs(rt, &layer, &[(255, 0)])?;
    sheet(rt, "its sheet", &layer)
}

/// A table of 32 aliases.
pub fn full_aliases(rt: &HostRuntime) -> io::Result<()> {
    let mut layer = Aliases::new(shop(rt.alloc())?);
    let count = taken_of(31, |program| layer.alias(program, Program(38)));
    println!(rt; "{count} aliases taken")?;
    tell::taken(
        rt,
        "a 32nd alias, 31 cut as 38",
        layer.alias(Program(31), Program(38)),
    )?;
    tell::pairs(rt, &layer, &[(31, 2), (31, 3)])?;
    tell::taken(
        rt,
        "a 33rd alias, 32 cut as 38",
        layer.alias(Program(32), Program(38)),
    )?;
    tell::pairs(rt, &layer, &[(32, 0), (32, 2)])?;
    tell::taken(
        rt,
        "one replaced, 0 cut as 37",
        layer.alias(Program(0), Program(37)),
    )?;
    tell::pairs(rt, &layer, &[(0, 1), (0, 2)])?;
    sheet(rt, "its sheet", &layer)
}
