//! Layers over a source: strikes take pairs out of it, aliases have programs cut as others.
#![tactic(auto)]

pub mod aliases;
pub mod piles;
pub mod strikes;
mod table;

pub use aliases::Aliases;
pub use piles::{able_aliased_over_struck, able_struck_over_aliased};
pub use strikes::Strikes;
