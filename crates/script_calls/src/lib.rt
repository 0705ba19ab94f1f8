//! What a script's lines give the transactions and the log: whose each enlistment and each clone is, at which manager each
//! enlistment is, and whether a reply fits a note; what scope lines do at their actors' contexts; and the calls of each actor at
//! each place, with how many of them were entered.
#![tactic(auto)]

mod calls;
mod managers;
mod par;
mod plans;
mod replies;
mod rows;
mod scope_lines;

pub use calls::{LogCall, log_rows, transaction_rows};
pub use managers::managers_of;
pub use par::par_line;
pub use plans::{Plans, call_of};
pub use replies::fits;
pub use rows::{Due, Rows};
pub use scope_lines::{Acted, Gives, act, contexts};
