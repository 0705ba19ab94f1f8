//! The words of the program `dtx`: what they ask for.
#![tactic(auto)]

mod command;
mod words;

pub use command::{Command, Form};
pub use words::command_of;
