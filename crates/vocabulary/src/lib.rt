//! The words that every layer shares: the numbers of tickets, programs and mills, and refusals.
#![tactic(auto)]

pub mod numbers;
pub mod refusal;
pub mod words;

pub use numbers::{Mill, Program, Ticket};
pub use refusal::Refusal;
