//! Capability sheets: the shop's text, read, answered from, compared and written.
#![tactic(auto)]

mod compare;
mod digits;
mod frame;
mod frame_writer;
mod kind;
mod line;
mod reader;
mod source;
mod writer;

pub use compare::same_meaning;
pub use digits::byte_at;
pub use frame_writer::FrameWriter;
pub use line::{RawFrame, first_frame, only_frame};
pub use reader::check;
pub use source::SheetSource;
pub use writer::write_sheet;
