//! The listing of a log: a line for each slot whose gate is open, and a last line that says how many there are.
#![tactic(auto)]

mod listing;

pub use listing::list_log;
