//! Texts of traces: reads them line by line, and passes on what prints them, as lines, as JSON, as a summary, as why and as a page.
#![tactic(auto)]

mod reader;

pub use dtx_values::Place;
pub use entry_lists::{PlacedEntries, Trace};
pub use reader::{TraceError, read_trace, reads_traces_exactly};
pub use reason_text::why_text;
pub use trace_lines::{json_trace, one_trace, print_lines, print_trace, summary, typed_trace};
pub use trace_page::page;
