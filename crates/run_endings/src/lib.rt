//! What the caller of a run on threads does after its threads ended, and why a run gives no trace.
#![tactic(auto)]

mod finishing;
mod stop;

pub use finishing::finish;
pub use stop::RunStop;
