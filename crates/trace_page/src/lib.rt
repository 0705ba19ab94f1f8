//! The page of a trace: for each transaction why it ended so and a picture of its entries, and at the end the trace itself.
#![tactic(auto)]

mod columns;
mod drawn;
mod geometry;
mod labels;
mod laws;
mod pieces;
mod sheet;
mod style;

pub use laws::one_page;
pub use sheet::page;
