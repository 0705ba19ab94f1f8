//! Whether an enlistment comes back: what a resource manager hands in after a crash, its recovery information, is checked against the kept history of
//! one transaction.
#![tactic(auto)]

mod ballot;
mod checking;
mod counts;
mod refusal;
mod seat;
mod standing;
mod wire;

pub use checking::check;
pub use refusal::ReenlistRefusal;
