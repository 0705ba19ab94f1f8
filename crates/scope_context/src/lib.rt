//! The scopes of one actor: which are open, and what closing one does to its transaction. (`TransactionScope` of System.Transactions.)
#![tactic(auto)]

mod context;
mod refusal;

pub use context::Context;
pub use dtx_values::{Closed, Entered, OpenScope};
pub use refusal::ScopeRefusal;
