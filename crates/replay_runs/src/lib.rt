//! Replays of scripts: their lines in order, and the rounds after them; and the laws that each run of a script keeps.
#![tactic(auto)]

mod asking;
mod laws;
mod listed;
mod objects;
mod one;
mod replay;
mod run;
mod volatiles;
mod whose;

pub use laws::lawful;
pub use run::{run_replay, run_with};
