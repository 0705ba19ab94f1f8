//! Tests of the turns under the locks of a run on threads, through public calls alone, and the scripts and logs that tests of threads begin with. They stand apart from the crates that
//! they test, since a crate with tests is proved twice.
#![tactic(auto)]

mod flags;
mod scripts;

pub use flags::looked;
pub use scripts::{empty_log, sure_log, threadable};

#[cfg(test)]
mod slow_disk;
#[cfg(test)]
mod stages;
#[cfg(test)]
mod turns;
