//! What the turns of a run on threads are made of, apart from what lies under its locks: the marks of replies that are out, and what a stop and a restart write at the log. What is said of a replay and of a run on threads alike is in its specs.
#![tactic(auto)]

mod log_words;
mod marks;

pub use log_words::{reopened, restart_answer, write_restart, write_stop};
pub use marks::{is_due, is_out, place_of, take_off};
