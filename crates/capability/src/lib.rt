//! What a shop can do: the meaning of a capability source, and what every source has to answer.
#![tactic(auto)]

pub mod abilities;
pub mod source;

pub use abilities::Abilities;
pub use source::Source;
