//! What goes on inside a turn of a thread: what it does with the state of a transaction that it is lent, a reply that is asked for while no lock is held and brought back, and the round after the log was stopped or opened.
#![tactic(auto)]

mod hearing;
mod holds;
mod replying;
mod shared;
mod turning;

pub use hearing::go_round;
pub use holds::{Came, is_of, tell};
pub use shared::{SharedRun, unlent};
pub use turning::{begin_turn, end_turn};
