//! The handover of a transaction to the coordinator: what is sent next, when it is over, and where the right to decide stands.
#![tactic(auto)]

mod handing;

pub use handing::{Handover, HandoverAct, Right};
