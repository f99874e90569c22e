//! Texts that are no lawful sheets.
use crate::run::Lines;
use crate::shop::THREE_MILLS;
use sheet::check;
use std::io;
use telling::Refused;

/// What is wrong with a text, and the text.
const TEXTS: &[(&str, &str)] = &[
    ("nothing wrong", THREE_MILLS),
    ("a lower-case digit", "010103fb\n"),
    (
        "no line feed at the end",
        "010103FB\n02020100FB\n0203020001F8\n0203030102F5\n0F00F1",
    ),
    ("a wrong count", "010103FB\n02030100FB\n"),
    ("a wrong sum", "010103FB\n02020100FB\n0203020001F9\n"),
    ("a program first", "02020100FB\n"),
    ("the count of mills twice", "010103FB\n010103FB\n"),
    ("a program without a mill", "010103FB\n020101FC\n"),
    ("no end frame", "010103FB\n02020100FB\n"),
    ("a frame behind the end", "010103FB\n0F00F1\n0F00F1\n"),
    ("zero mills", "010100FE\n0F00F1\n"),
    ("65 mills", "010141BD\n0F00F1\n"),
    ("a mill that is not there", "010103FB\n02020103F8\n0F00F1\n"),
    (
        "mills that do not rise",
        "010103FB\n02020100FB\n0203020101F7\n0F00F1\n",
    ),
    (
        "programs that do not rise",
        "010103FB\n02020100FB\n02020101FA\n0F00F1\n",
    ),
    ("an empty text", ""),
];

/// Every command, to a console that has no mills.
const COMMANDS: &[&str] = &[
    "21020301D9\n", // strike 3 on 1
    "22020901D2\n", // 9 cut as 1
    "1103000501E6\n", // add 5 of program 1
    "130100EC\n", // withdraw 0
    "140100EB\n", // return 0
    "12020005E7\n", // done 5
    "15020005E4\n", // where 5
    "1600EA\n", // report
];

/// Checks a text, and tells what came of it.
fn checked(rt: &HostRuntime, what: &str, text: &str) -> io::Result<()> {
    match check(text.as_bytes()) {
        Ok(mills) => println!(rt; "  {what}: lawful, {mills} mills"),
        Err(refusal) => println!(rt; "  {what}: {}", Refused(refusal)),
    }
}

/// Checks all texts.
pub fn texts(rt: &HostRuntime) -> io::Result<()> {
    println!(rt; "sheets")?;
    for (what, text) in TEXTS {
        checked(rt, what, text)?;
    }
    Ok(())
}

/// A console over a text that is no lawful sheet, which means no mills.
pub fn without_mills(rt: &HostRuntime) -> io::Result<()> {
    Lines::of(rt.alloc(), COMMANDS)?.run(rt, "no lawful sheet", "", 0)
}
