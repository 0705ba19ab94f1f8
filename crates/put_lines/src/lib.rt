//! The input of a run over a table: lines `put`, a line `script`, and a script; and the text of a table.
#![tactic(auto)]

mod bodies;
mod error;
mod fronts;
mod keys;
mod laws;
mod lines;
mod names;
mod puts;
mod reader;
mod table;
mod words;

pub use error::InputError;
pub use laws::reads_one_input;
pub use reader::{PutScript, read_input};
pub use table::{TableRow, table_lines};
