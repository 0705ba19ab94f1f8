//! The definitions over histories, scripts and traces, which every other crate's contracts cite. They stand in `specs/`, and
//! `docs/DEFINITIONS.md` is the order in which a reader should meet them, with a sentence on each. The code here is the types that
//! several crates' definitions speak of.
#![tactic(auto)]

mod branch;
mod desk;
mod listener;
mod waiting;

pub use branch::Branch;
pub use desk::{Ballot, Desk, Stage};
pub use listener::Listener;
pub use waiting::{EnteredCall, Wanted};
