//! The sheets that consoles are run over.
use crate::frames::push_frame;
use std::alloc::{AllocError, Global};

/// Three mills: program 1 on mill 0, program 2 on mills 0 and 1, program 3 on mills 1 and 2.
pub const THREE_MILLS: &str = "010103FB\n02020100FB\n0203020001F8\n0203030102F5\n0F00F1\n";

/// Two mills, and program 7 on both.
pub const TWO_MILLS: &str = "010102FC\n0203070001F3\n0F00F1\n";

/// How many mills stand in the row.
pub const ROW: u8 = 64;

/// A row of mills: each program on the mill of its number and on the next one, and the last program on the last mill alone.
pub fn row_of_mills(heap: Global) -> Result<String, AllocError> {
    let mut text = String::new(heap);
    push_frame(&mut text, 0x01, &[ROW])?;
    for mill in 0..ROW - 1 {
        push_frame(&mut text, 0x02, &[mill, mill, mill + 1])?;
    }
    push_frame(&mut text, 0x02, &[ROW - 1, ROW - 1])?;
    push_frame(&mut text, 0x0F, &[])?;
    Ok(text)
}
