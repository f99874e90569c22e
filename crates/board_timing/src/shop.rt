//! The shops of 64 mills in which the time is taken.
use std::alloc::{AllocError, Global};
use std::array;
use tools::{Extent, MillRow, ProgramRow, ToolSource};
use vocabulary::Program;

/// How many mills each shop has.
const MILLS: usize = 64;

/// How many programs there are.
const PROGRAMS: usize = 256;

/// The length that only the outermost mills of a chain have room for.
const LONG: u16 = 1;

/// A program that in the chain can be cut on mill 0 alone.
pub const FIRST_ALONE: Program = Program(63);

/// A program that in the chain can be cut on mill 63 alone.
pub const LAST_ALONE: Program = Program(64);

/// A program that in the crowded shop can be cut on mills 0 and 1.
pub const CROWDED: Program = Program(0);

/// A program that in the crowded shop can be cut on every mill but mill 0.
pub const ELSEWHERE: Program = Program(1);

/// Every program can be cut on every mill.
pub fn connected(heap: Global) -> Result<ToolSource, AllocError> {
    ToolSource::new(heap, &[having(0); MILLS], &[needing(0); PROGRAMS])
}

/// The mills in a row: of the first 63 programs each can be cut on the mill of its number and on the next, and two more programs
/// on one of the outermost mills each.
pub fn chain(heap: Global) -> Result<ToolSource, AllocError> {
    ToolSource::new(heap, &chain_mills(), &chain_programs())
}

/// The mill table of the row.
fn chain_mills() -> [MillRow; MILLS] {
    array::from_fn(|number| chain_mill(number as u8))
}

/// The program table of the row.
fn chain_programs() -> [ProgramRow; 65] {
    array::from_fn(|number| match Program(number as u8) {
        FIRST_ALONE => long_program(Extent {
            x: LONG,
            ..Extent::default()
        }),
        LAST_ALONE => long_program(Extent {
            y: LONG,
            ..Extent::default()
        }),
        Program(own) => needing(1 << own),
    })
}

/// A mill of the row: it has the tool of its own number, but for the last, and that of the mill before.
fn chain_mill(number: u8) -> MillRow {
    let own: u64 = if number < 63 { 1 << number } else { 0 };
    let before: u64 = if 0 < number && number < 64 {
        1 << (number - 1)
    } else {
        0
    };
    let travel = match number {
        0 => Extent {
            x: LONG,
            ..Extent::default()
        },
        63 => Extent {
            y: LONG,
            ..Extent::default()
        },
        _ => Extent::default(),
    };
    MillRow {
        tools: own | before,
        travel,
    }
}

/// Mills 0 and 1 have tool 0, and all but mill 0 have tool 1; each of two programs needs one of these tools.
pub fn crowded(heap: Global) -> Result<ToolSource, AllocError> {
    let mut mills = [having(0b10); MILLS];
    mills[0] = having(0b01);
    mills[1] = having(0b11);
    ToolSource::new(heap, &mills, &[needing(0b01), needing(0b10)])
}

// A struct update each, as in the cases of sources: no crate for the two.

/// A mill that has these tools.
fn having(tools: u64) -> MillRow {
    MillRow {
        tools,
        ..MillRow::default()
    }
}

/// A program that needs these tools.
fn needing(tools: u64) -> ProgramRow {
    ProgramRow {
        tools,
        ..ProgramRow::default()
    }
}

/// A program that needs no tool, and room for its blank.
fn long_program(blank: Extent) -> ProgramRow {
    ProgramRow { tools: 0, blank }
}
