//! A run of a script over one map in memory, which answers for all its volatiles.
#![tactic(auto)]

mod load;
mod run;

pub use run::run_map;
