//! All or nothing, through the calls of a transaction manager: whatever a crash may leave of the log and of what the objects hold, each transaction is whole in it, after each call, whichever disk
//! failed in it.
//!
//! Each law is a public function. It does nothing when it runs. A caller calls it for its contract: after the call the proof of the caller has the law.
#![tactic(auto)]

mod holder;
mod law;

pub use holder::Holder;
pub use law::{
    asking_keeps_all_or_nothing, beginning_keeps_all_or_nothing, call_keeps_all_or_nothing,
    end_keeps_all_or_nothing, entry_keeps_all_or_nothing, hearing_keeps_all_or_nothing,
    objects_keep_all_or_nothing, pump_keeps_all_or_nothing, refusal_keeps_all_or_nothing,
    reply_keeps_all_or_nothing, scope_keeps_all_or_nothing,
};
