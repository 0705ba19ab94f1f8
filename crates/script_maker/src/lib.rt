//! The generator: scripts of any size from a number.
#![tactic(auto)]

mod lines;
mod maker;
mod numbers;

pub use maker::make_script;
