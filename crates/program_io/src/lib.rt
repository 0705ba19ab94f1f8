//! What the top call takes and gives: it reads the script from the source and judges it, reads puts and the script after them, reads a trace that is to be checked, makes the disk an empty log, lists the log on a disk, and writes texts to the sink. How it ends, and how a script is run, have their words here.
#![tactic(auto)]

mod checking;
mod exit;
mod formatting;
mod inputs;
mod judging;
mod listing;
mod transfer;
mod verdict;
mod way;
mod writing;

pub use checking::{TRACE_BYTES, checks_exactly, trace_from};
pub use exit::Exit;
pub use formatting::{FormatStop, formatted};
pub use inputs::input_from;
pub use judging::script_from;
pub use listing::list_in;
pub use verdict::verdict_written;
pub use way::Way;
pub use writing::{written, written_in};
