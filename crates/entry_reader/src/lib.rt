//! Reads the parts of a trace's line: its place and its entry, with the answer or the message that stands in it.
#![tactic(auto)]

mod read_answers;
mod read_entries;
mod read_messages;
mod read_names;

pub use read_entries::entry_of;
pub use read_names::place_of;
