//! What the world of one transaction is put together from: its history with the connections that carry it, what its coordinator keeps of the log, what each side does with what comes, its pending
//! steps, and what its calls are answered and write.
#![tactic(auto)]

mod at_log;
mod hearing;
mod history;
mod local_calls;
mod managers;
mod names;
mod pending;
mod plans;
mod writing;

pub use at_log::AtLog;
pub use hearing::hear;
pub use history::History;
pub use local_calls::{answer_call, await_answer, write_return};
pub use managers::{manager_of, recovery_answer, returned};
pub use names::{is_entered, is_made};
pub use pending::{At, PendingStep, act_at, core_at, deliveries_at, replies_at};
pub use writing::{has_begun, live, stop_if, write_near};
