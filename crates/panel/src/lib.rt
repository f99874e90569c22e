//! The panel's side of the cell: lines from standard input, answers to standard output, as soon as a line is there.
#![tactic(auto)]

mod line;
mod panel;

pub use line::Line;
pub use panel::run;
