//! The text of why each transaction of a trace was promoted, and why it ended as it did.
#![tactic(auto)]

mod aborts;
mod outcomes;
mod phrases;
mod places;
mod printed;

pub use phrases::{Head, push_phrases};
pub use printed::{push_why, why_text};
