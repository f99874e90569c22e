//! Sets of the numbers 0 to 63: of mills, and of tools.
#![tactic(auto)]

pub mod number_set;

pub use number_set::NumberSet;
