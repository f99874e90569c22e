//! The tool rule: lengths, tools, magazines and tables.
use crate::shop::{mill_with, plain_shop, program_with};
use crate::tell;
use capability::Source;
use std::io;
use tools::{Extent, Magazine, MillRow, ProgramRow, ToolSource, check_mills};
use vocabulary::{Mill, Program};

/// The 20 tools 0 to 19, and one and two more.
const TWENTY: u64 = 0x000F_FFFF;

const TWENTY_ONE: u64 = 0x001F_FFFF;

const TWENTY_TWO: u64 = 0x003F_FFFF;

/// Tells whether a shop of one mill can cut its one program.
fn one_pair(rt: &HostRuntime, what: &str, mill: MillRow, program: ProgramRow) -> io::Result<()> {
    let source = ToolSource::new(rt.alloc(), &[mill], &[program])?;
    tell::able(rt, what, source.able(Program(0), Mill(0)))
}

/// Tells whether a blank fits a travel, where no tool is needed.
fn length(rt: &HostRuntime, what: &str, blank: Extent, travel: Extent) -> io::Result<()> {
    one_pair(
        rt,
        what,
        MillRow { tools: 0, travel },
        ProgramRow { tools: 0, blank },
    )
}

/// Blanks that equal the travel, and that pass it by one, on each axis.
pub fn lengths(rt: &HostRuntime) -> io::Result<()> {
    let (x, y, z) = (400, 300, 200);
    let travel = Extent { x, y, z };
    for (what, blank) in [
        ("blank as long as the travel", travel),
        ("no blank", Extent::default()),
        (
            "as long on x alone",
            Extent {
                x,
                ..Extent::default()
            },
        ),
        (
            "as long on y alone",
            Extent {
                y,
                ..Extent::default()
            },
        ),
        (
            "as long on z alone",
            Extent {
                z,
                ..Extent::default()
            },
        ),
        ("one over on x", Extent { x: 401, ..travel }),
        ("one over on y", Extent { y: 301, ..travel }),
        ("one over on z", Extent { z: 201, ..travel }),
    ] {
        length(rt, what, blank, travel)?;
    }
    let longest = Extent {
        x: 65_535,
        y: 65_535,
        z: 65_535,
    };
    length(rt, "the longest blank", longest, longest)?;
    length(
        rt,
        "the longest blank, one over on z",
        longest,
        Extent {
            z: 65_534,
            ..longest
        },
    )
}

/// What is told, the tools of a magazine, and those that are needed: none, some of those that are there, all of them, and one
/// that is missing.
const NEEDS: [(&str, u64, u64); 8] = [
    ("no tool needed of an empty magazine", 0, 0),
    ("no tool needed of tools 1 and 2", 0b110, 0),
    ("tool 1 needed of tools 1 and 2", 0b110, 0b10),
    ("tools 1 and 2 needed of tools 1 and 2", 0b110, 0b110),
    ("tools 1, 2 and 3 needed of tools 1 and 2", 0b110, 0b1110),
    ("tool 0 needed of tools 1 and 2", 0b110, 1),
    ("tool 63 needed of tool 63", 1 << 63, 1 << 63),
    ("tool 63 needed of tools 0 to 19", TWENTY, 1 << 63),
];

/// Whether a magazine has what a program needs, where every blank fits.
pub fn needs(rt: &HostRuntime) -> io::Result<()> {
    for (what, tools, needed) in NEEDS {
        one_pair(rt, what, mill_with(tools), program_with(needed))?;
    }
    Ok(())
}

/// Magazines at the limit and past it.
const MAGAZINES: [(&str, u64); 5] = [
    ("a magazine without tools", 0),
    ("a magazine of 20 tools", TWENTY),
    (
        "a magazine of 20 tools, the last of them 63",
        TWENTY / 2 + (1 << 63),
    ),
    ("a magazine of 21 tools", TWENTY_ONE),
    ("a magazine of 64 tools", u64::MAX),
];

/// Whether each magazine is taken.
pub fn magazines(rt: &HostRuntime) -> io::Result<()> {
    for (what, tools) in MAGAZINES {
        tell::taken(rt, what, Magazine::of(&mill_with(tools)).map(|_| ()))?;
    }
    Ok(())
}

/// How many pairs of program 0 a source has able, of all the mills that can be named.
// One chain, in two programs that share no crate.
fn able_mills(source: &ToolSource) -> usize {
    (0..=255)
        .filter(|number| source.able(Program(0), Mill(*number)))
        .count()
}

/// Tells what a mill table is checked to be, and what a source over it means with one program that needs nothing.
fn table(rt: &HostRuntime, what: &str, mills: &[MillRow]) -> io::Result<()> {
    tell::taken(rt, what, check_mills(mills))?;
    let source = ToolSource::new(rt.alloc(), mills, &[program_with(0)])?;
    let count = source.mills();
    let able = able_mills(&source);
    println!(rt; "  a source over it: {count} mills, {able} of them able")
}

/// Mill tables: faulty magazines in them, and their number of mills.
pub fn tables(rt: &HostRuntime) -> io::Result<()> {
    let heap = rt.alloc();
    table(rt, "no mill", &[])?;
    table(rt, "one mill of 20 tools", &[mill_with(TWENTY)])?;
    table(rt, "one mill of 21 tools", &[mill_with(TWENTY_ONE)])?;
    let faulty = [
        mill_with(TWENTY),
        mill_with(TWENTY_TWO),
        mill_with(TWENTY_ONE),
    ];
    table(rt, "mills of 20, 22 and 21 tools", &faulty)?;
    let mut mills = vec![in heap; mill_with(TWENTY); 64]?;
    table(rt, "64 mills", mills.as_slice())?;
    mills.push(mill_with(TWENTY))?;
    table(rt, "65 mills", mills.as_slice())?;
    mills.push(mill_with(TWENTY_ONE))?;
    table(rt, "66 mills, the last of 21 tools", mills.as_slice())
}

/// Programs and mills that stand in no table.
pub fn past_the_tables(rt: &HostRuntime) -> io::Result<()> {
    let heap = rt.alloc();
    println!(rt; "two mills and one program")?;
    let small = plain_shop(heap, 2, 0, 1)?;
    tell::pairs(rt, &small, &[(0, 1), (1, 0), (255, 0), (0, 2), (0, 255)])?;
    println!(rt; "one mill and 300 programs")?;
    let large = plain_shop(heap, 1, 0, 300)?;
    tell::pairs(rt, &large, &[(255, 0), (255, 1)])
}
