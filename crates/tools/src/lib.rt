//! The tool rule: a source that answers from a shop's tables of mills and programs.
#![tactic(auto)]

pub mod magazine;
pub mod tools;

pub use magazine::Magazine;
pub use tools::{Extent, MillRow, ProgramRow, ToolSource, check_mills};
