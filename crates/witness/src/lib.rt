//! An independent witness of a board: drives small boards by drawn calls, and compares after each call what the board answers with a
//! tally that is worked out here, and with the best of all placements and chains. It shares nothing with the board but the questions
//! that it asks.
#![tactic(auto)]

mod chains;
pub mod compare;
pub mod counts;
pub mod difference;
mod digits;
mod draw;
pub mod drive;
mod loads;
mod placements;
pub mod prices;
mod random;
mod refusals;
pub mod shop;
pub mod step;
pub mod tally;
