//! Texts of scripts.
#![tactic(auto)]

mod laws;
mod print;
mod reader;

pub use dtx_values::{BadCause, Line, Script};
pub use laws::reads_exactly;
pub use print::print_script;
pub use reader::{ScriptError, read_script};
