//! The board over a wire: commands read from lines of digits, and answers written as such lines.
#![tactic(auto)]

mod command;
mod kind;
mod reader;
mod reply;
mod theorems;
mod writer;

pub use command::{BoardCommand, SetupCommand};
pub use reader::{board_command, setup_command};
pub use reply::Reply;
pub use theorems::replies_read_back;
pub use writer::{AREA, put_reply};
