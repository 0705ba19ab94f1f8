//! Lists of entries that take little room: the history of a transaction, and a trace. Most entries have few bytes, and stand in few.
#![tactic(auto)]

mod brief;
mod entries;
mod placed;
mod short;
mod trace;

pub use entries::Entries;
pub use placed::PlacedEntries;
pub use trace::Trace;
