//! The dependent clones of one transaction (`DependentClone` of System.Transactions). No call but the constructor takes memory.
#![tactic(auto)]

mod clones;
mod refusal;

pub use clones::Clones;
pub use refusal::CloneRefusal;
