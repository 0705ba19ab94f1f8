//! The laws over the histories of one transaction that its world needs: what may be sent, how few things are on the way, what is left to do, and
//! the places of the right to commit.
#![tactic(auto)]

mod laws;

pub use laws::{rights, untried};
