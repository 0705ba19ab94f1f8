//! The coordinator's machine for one transaction: what it answers to messages and to ends, when it appends the record of the commit to
//! its log, and when it frees it; and in a single phase, whom it lets decide. No call takes memory.
#![tactic(auto)]

mod act;
mod ballots;
mod desks;
mod lists;
mod machine;
mod stages;
mod writer;

pub use act::CoreAct;
pub use machine::Core;
