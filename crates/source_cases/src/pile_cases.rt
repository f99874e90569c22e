//! Two layers over the shop, in both orders.
use crate::sheets::sheet;
use crate::shop::shop;
use crate::tell;
use capability::Source;
use layers::{Aliases, Strikes, able_aliased_over_struck, able_struck_over_aliased};
use std::io;
use vocabulary::{Mill, Program};

/// Tells which of the programs 7 and 8 a pile has able on mill 0, and its sheet.
fn told<S: Source, F: Fn(Program, Mill) -> bool>(
    rt: &HostRuntime,
    pile: &S,
    able: F,
) -> io::Result<()>
    requires { F.IsAlwaysCallable able }
{
    for (what, program) in [
        ("  program 7 on mill 0", Program(7)),
        ("  program 8 on mill 0", Program(8)),
    ] {
        tell::able(rt, what, able(program, Mill(0)))?;
    }
    sheet(rt, "  its sheet", pile)
}

/// Strikes over aliases: program 7 is cut as 8, and a program is struck on mill 0.
fn strikes_over_aliases(rt: &HostRuntime, struck: Program) -> io::Result<()> {
    let mut aliases = Aliases::new(shop(rt.alloc())?);
    tell::taken(rt, "7 cut as 8", aliases.alias(Program(7), Program(8)))?;
    let mut pile = Strikes::new(aliases);
    tell::taken(rt, "  and a strike above", pile.strike(struck, Mill(0)))?;
    told(
        rt,
        &pile,
        |program, mill| able_struck_over_aliased(&pile, program, mill),
    )
}

/// Aliases over strikes: the same alias and the same strike, the other way round.
fn aliases_over_strikes(rt: &HostRuntime, struck: Program) -> io::Result<()> {
    let mut strikes = Strikes::new(shop(rt.alloc())?);
    tell::taken(rt, "a strike", strikes.strike(struck, Mill(0)))?;
    let mut pile = Aliases::new(strikes);
    tell::taken(
        rt,
        "  and 7 cut as 8 above",
        pile.alias(Program(7), Program(8)),
    )?;
    told(
        rt,
        &pile,
        |program, mill| able_aliased_over_struck(&pile, program, mill),
    )
}

/// Where the two orders differ: a strike of the alias, and a strike of the program that has it.
pub fn piles(rt: &HostRuntime) -> io::Result<()> {
    println!(rt; "program 8 struck on mill 0")?;
    strikes_over_aliases(rt, Program(8))?;
    aliases_over_strikes(rt, Program(8))?;
    println!(rt; "program 7 struck on mill 0")?;
    strikes_over_aliases(rt, Program(7))?;
    aliases_over_strikes(rt, Program(7))
}
