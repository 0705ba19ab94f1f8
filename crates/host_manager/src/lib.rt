//! A transaction manager that a host polls: a program of another language, or one whose databases answer in their own time.
//!
//! [`HostManager`] knows transactions by their number for good, and keeps the log's disk in memory. The host asks what comes next ([`HostManager::next`]), does it, and replies
//! ([`HostManager::reply`]). What the log asks of its disk, the host does in its file ([`HostManager::next_request`]). Nothing is told ahead of that.
//!
//! ```text
//! loop {
//!     match manager.next(number)? {
//!         Next::Found(event) => .. // ask the enlistment, and reply; or tell it, or the client, the outcome
//!         Next::Disk => while manager.next_request() { .. } // write or sync the file, as manager.request() says
//!         Next::Nothing => break,
//!     }
//! }
//! ```
//!
//! All rules here are those of the crate `transactions`, but for the order of the disk's work and of what is told, which is a definition of this project.
#![tactic(auto)]

mod clock;
mod error;
mod host_call;
mod host_manager;
mod results;

pub use clock::HostClock;
pub use error::HostError;
pub use host_manager::HostManager;

#[cfg(test)]
mod tests;
