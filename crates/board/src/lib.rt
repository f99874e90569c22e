//! A board of tickets on mills: the calls that change it, the questions that it answers, and runs of calls.
#![tactic(auto)]

mod board;
mod call;
mod calls;
mod moves;
mod perform;
mod questions;
mod records;
mod refusals;
mod report;
mod request;
mod rules;
mod runs;
mod theorems;

pub use board::Board;
pub use call::{Answer, Call};
pub use moves::Move;
pub use report::Report;
pub use request::Request;
pub use runs::run;
pub use theorems::calls_have_one_outcome;
