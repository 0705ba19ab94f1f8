//! Runs a script on threads: the lines before its `par` by the caller, then each actor on a thread of its own, with helpers, and what the caller does after they ended.
#![tactic(auto)]

mod contexts;
mod gathering;
mod running;

pub use run_endings::RunStop;
pub use running::{Setting, run_on_threads};
