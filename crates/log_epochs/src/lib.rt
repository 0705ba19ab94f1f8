//! Epochs of the coordinator's log: each process that opens a log begins one, so that no number of a transaction comes twice in the life of the log.
//!
//! A transaction's number for good is 65,536 times its epoch and its number within that, from 1 on. An *epoch record* is a record of the log whose identifier is that of the
//! number 0 in its epoch, 2^64 + 65,536 n for n from 1 to 2^32 - 1, and that has no enlistment. So the log needs no form of its own for it, and no transaction has its identifier
//! ([`no_transaction_is_an_epoch`]). The epoch of a log is the greatest that it has a record of, and 0 where it has none.
//!
//! [`begin_epoch`] appends the record of the next epoch, and only then frees the earlier ones. Whatever breaks it off, a crash leaves the log with the same records of
//! transactions, and with the epoch of before or the next one. The rules are a definition of this project.
#![tactic(auto)]

mod beginning;
mod finding;
mod freeing;
mod law;
mod naming;
#[cfg(test)]
mod tests;

pub use beginning::begin_epoch;
pub use finding::epoch;
pub use law::no_transaction_is_an_epoch;
pub use naming::{epoch_in, identifier_of_epoch};
