//! The shop that the cases are run on.
use std::alloc::{AllocError, Global};
use tools::{MillRow, ProgramRow, ToolSource};

// A struct update each, as in the timing of boards: no crate for the two.

/// A mill that has these tools.
pub fn mill_with(tools: u64) -> MillRow {
    MillRow {
        tools,
        ..MillRow::default()
    }
}

/// A program that needs these tools.
pub fn program_with(tools: u64) -> ProgramRow {
    ProgramRow {
        tools,
        ..ProgramRow::default()
    }
}

/// Four mills and 40 programs: a program needs the tool of its own number, and each mill has every fourth tool.
/// So a program can be cut on the one mill whose number is left of the program's when it is divided by 4.
pub fn shop(heap: Global) -> Result<ToolSource, AllocError> {
    let mills = [
        mill_with(0x11_1111_1111),
        mill_with(0x22_2222_2222),
        mill_with(0x44_4444_4444),
        mill_with(0x88_8888_8888),
    ];
    let programs: Vec<ProgramRow> = (0..40).map(|tool| program_with(1 << tool)).collect(heap)?;
    ToolSource::new(heap, &mills, programs.as_slice())
}

/// So many mills with one set of tools, and so many programs that need no tool.
pub fn plain_shop(
    heap: Global,
    mills: usize,
    tools: u64,
    programs: usize,
) -> Result<ToolSource, AllocError> {
    let mills = vec![in heap; mill_with(tools); mills]?;
    let programs = vec![in heap; program_with(0); programs]?;
    ToolSource::new(heap, mills.as_slice(), programs.as_slice())
}
