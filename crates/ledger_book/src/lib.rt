//! Accounts in two stores, left and right, and moves between them as transactions: all of a move is done or nothing of it, whichever call of whichever disk is the last of a process.
//!
//! A [`Book`] is over three disks: the coordinator's log and the two stores. [`Book::make`] makes all three anew, and [`Book::open`] takes up what is there. Then
//! [`Book::recover`] finishes what an earlier process left in doubt, [`Book::write`] writes amounts as one transaction, and [`Book::amount`] reads them.
//!
//! The three disks of a run stop together ([`StoppingDisk`]): before the write or sync that their [`Stop`] names, as if the process ended there.
#![tactic(auto)]

mod account;
mod book;
mod disks;
mod moves;
mod recovery;
mod stop;
mod stopping_disk;
mod stores;
mod trouble;
mod writing;

pub use account::{ACCOUNTS, Account, Side};
pub use book::Book;
pub use disks::Disks;
pub use moves::{Amounts, moved, moving};
pub use recovery::{Ended, Recovery};
pub use stop::Stop;
pub use stopping_disk::StoppingDisk;
pub use stores::Stores;
pub use trouble::{Part, Trouble};
