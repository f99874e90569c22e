//! The shops that the cases are run on.
use sheet::SheetSource;
use std::alloc::{AllocError, Global};
use tools::{MillRow, ProgramRow, ToolSource};

/// How many programs there are.
const PROGRAMS: usize = 256;

/// Three mills: program 1 can be cut on mill 0, program 2 on mills 0 and 1, program 3 on mills 1 and 2, and no other anywhere.
const THREE_MILLS: &[u8] = b"010103FB\n02020100FB\n0203020001F8\n0203030102F5\n0F00F1\n";

/// The shop of three mills.
pub fn three_mills() -> SheetSource<'static> {
    SheetSource::new(THREE_MILLS)
}

/// A shop without mills: a text that is no sheet.
pub fn no_mills() -> SheetSource<'static> {
    SheetSource::new(b"")
}

/// So many mills, on each of which every program can be cut: no program needs a tool, and no blank has a length.
pub fn able_everywhere(heap: Global, mills: usize) -> Result<ToolSource, AllocError> {
    let mills = vec![in heap; MillRow::default(); mills]?;
    let programs = vec![in heap; ProgramRow::default(); PROGRAMS]?;
    ToolSource::new(heap, mills.as_slice(), programs.as_slice())
}
