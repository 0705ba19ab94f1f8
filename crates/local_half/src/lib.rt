//! The local side of one transaction: its calls, the replies of its enlistments, its acts, and what it does at the
//! coordinator's messages.
#![tactic(auto)]

mod half;

pub use half::LocalHalf;
pub use promotion::Right;
