//! What reads one line of a script: the words of each command, and whether the names in them may follow the lines before.
//! `script_text` alone calls it.
#![tactic(auto)]

mod commands;
mod draft;
mod events;
mod front_lines;
mod parts;
mod scopes;
mod transactions;
pub mod verbs;

pub use draft::Draft;
pub use front_lines::next_line;
