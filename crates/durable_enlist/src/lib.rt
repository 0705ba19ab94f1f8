//! Durable enlistments: who owns the commit, when a durable call promotes, and the recovery information of an enlistment.
#![tactic(auto)]

mod owner;

pub use dtx_values::{BadInfo, parse_info, write_info};
pub use owner::{cause_of, owner_of};
