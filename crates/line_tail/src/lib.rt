//! Lines: cut off where they are read, and made from their end to their start where they are printed.
#![tactic(auto)]

mod cuts;
mod tail;

pub use cuts::{cut, parts};
pub use tail::{LINE_ROOM, NUMBER_ROOM, Tail};
