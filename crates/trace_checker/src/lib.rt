//! A checker of traces: in one pass over a trace, whether each transaction's history is just, agrees on one outcome and gets
//! what was sent, and the first place at which one isn't. It keeps a book of each transaction, and never looks back.
#![tactic(auto)]

mod book;
mod checked;
mod checker;
mod doubts;
mod heard;
mod intact;
mod left;
mod marks;
mod members;
mod names;
mod owner;
mod table;
mod voters;
mod ways;
mod wires;

pub use checked::{Checked, Why};
pub use checker::{Checker, check_trace};
