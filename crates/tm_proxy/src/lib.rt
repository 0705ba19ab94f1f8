//! The local side's ends of its connections to the coordinator: which it knows as open, which messages it sent and got on each, and what a message that
//! it gets tells it. No call takes memory.
#![tactic(auto)]

mod connections;
mod ends;
mod news;
mod tags;

pub use connections::Proxy;
pub use news::ProxyNews;
