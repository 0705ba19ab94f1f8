//! The table of one transaction's enlistments: who enlisted, who was asked to prepare and in which order, and who voted. No call but the
//! constructor takes memory.
#![tactic(auto)]

mod refusal;
mod table;

pub use dtx_values::Row;
pub use refusal::{AddRefusal, TableRefusal};
pub use table::EnlistTable;
