//! A console: one command line in, its answer lines out.
#![tactic(auto)]

mod answer;
mod console;
mod exchange;
mod lines;
mod obey;
mod runs;

pub use console::Console;
pub use exchange::Exchange;
pub use runs::answer_lines;
