//! The sheet of a source, written and read back.
use crate::shop::{plain_shop, shop};
use capability::Source;
use sheet::{SheetSource, check, write_sheet};
use std::io;
use telling::Refused;
use vocabulary::{Mill, Program};

/// The length of the longest sheet.
const LONGEST: usize = 35_088;

/// Whether two sources answer alike for a program, for each of the 64 mills that there may be.
fn same_row<S: Source, R: Source>(one: &S, other: &R, program: Program) -> bool {
    (0..64).all(|number| {
        let mill = Mill(number);
        one.able(program, mill) == other.able(program, mill)
    })
}

/// Whether two sources answer alike, for each of the 256 programs.
fn same_answers<S: Source, R: Source>(one: &S, other: &R) -> bool {
    one.mills() == other.mills() && (0..=255).all(|number| same_row(one, other, Program(number)))
}

/// Writes the sheet of a source, and tells whether it reads back as what the source means.
pub fn sheet<S: Source>(rt: &HostRuntime, what: &str, source: &S) -> io::Result<()> {
    let mut area = vec![in rt.alloc(); 0u8; LONGEST]?;
    match write_sheet(source, area.as_mut_slice()) {
        Ok(length) => {
            let text = area.as_slice().split_at_checked(length);
            let same = text.is_some_and(|(text, _)| {
                check(text).is_ok() && same_answers(source, &SheetSource::new(text))
            });
            let back = if same { "the same" } else { "NOT THE SAME" };
            println!(rt; "{what}: {length} bytes, read back {back}")
        }
        Err(refusal) => println!(rt; "{what}: {}", Refused(refusal)),
    }
}

/// The sheets of tool sources.
pub fn sheets(rt: &HostRuntime) -> io::Result<()> {
    let heap = rt.alloc();
    sheet(rt, "the sheet of the shop", &shop(heap)?)?;
    sheet(
        rt,
        "of one mill and no program",
        &plain_shop(heap, 1, 0, 0)?,
    )?;
    sheet(
        rt,
        "of 64 mills and 256 programs",
        &plain_shop(heap, 64, 0, 256)?,
    )?;
    sheet(rt, "of 65 mills", &plain_shop(heap, 65, 0, 256)?)?;
    sheet(
        rt,
        "of a mill of 21 tools",
        &plain_shop(heap, 1, 0x001F_FFFF, 256)?,
    )
}
