//! A run of a script over one durable key store, which answers for all durables and promotables of one manager.
#![tactic(auto)]

mod load;
mod run;

pub use run::run_store;
