//! The plain table of a board: which ticket stands where, how many stand on each mill, and which mills are in service.
#![tactic(auto)]

mod seat;
mod table;

pub use seat::Seat;
pub use table::Table;
