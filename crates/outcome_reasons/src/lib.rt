//! Why each transaction of a trace was promoted, and why it ended as it did: what the definitions of evidence, veto and doubt say of it, in an enum for programs.
#![tactic(auto)]

mod callers;
mod commits;
mod doubts;
mod ends;
mod histories;
mod lines;
mod opens;
mod owed;
mod promotions;
mod said;
mod vetoes;

pub use callers::number_at;
pub use histories::History;
pub use lines::{is_begun, why};
pub use said::{
    AbortReason, Caller, CommitReason, DoubtReason, Moment, OpenReason, PromotionReason, Root, Why,
};
