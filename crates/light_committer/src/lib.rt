//! The light committer: what a transaction that isn't promoted does with the commit once everybody voted.
#![tactic(auto)]

mod decision;

pub use decision::{LightAct, decide, owner_lost};
