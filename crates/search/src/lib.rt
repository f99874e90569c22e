//! The two searches of a board, and the carrying out of what they find.
#![tactic(auto)]

mod backward;
mod choice;
mod forward;
mod link;
mod trail;

pub use backward::shift;
pub use forward::place;
