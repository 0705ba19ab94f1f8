//! Traces that are printed: their lines in the plain form and in the form wire, their objects in the form JSON, and their summaries.
//! What a text tells of its trace stands here too.
#![tactic(auto)]

pub mod answer_words;
mod answers;
mod entries;
pub mod entry_words;
mod keys;
mod laws;
pub mod message_words;
mod messages;
pub mod name_words;
mod names;
mod objects;
mod printer;
mod tally;
mod widths;
mod wire;

pub use answers::put_answer;
pub use entries::put_entry;
pub use laws::{one_trace, typed_trace};
pub use messages::put_message;
pub use objects::json_trace;
pub use printer::{print_lines, print_trace, put_line};
pub use tally::summary;
