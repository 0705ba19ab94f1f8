//! Volatile enlistments: who is asked to prepare next, their votes, and who hears the outcome. (Waves are a definition of this project.)
#![tactic(auto)]

mod asks;
mod refusal;
mod votes;

pub use asks::{hears, next_ask};
pub use refusal::VoteRefusal;
pub use votes::take_vote;
