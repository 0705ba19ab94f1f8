//! A durable store of keys, as a resource of transactions: what it wrote outlives a crash where its transaction committed.
//!
//! Writes that were put for an enlistment stay in memory until it prepares; then they are a record on the disk, behind a gate. A commit marks the record, and a rollback closes
//! its gate. The table of the store is what the marked records wrote, one after the other. A store on a disk is a slotted file, whose head is `DTXKV01`, LF and zeros. A slot,
//! 512 bytes:
//!
//!     0      1        2       4             8            12            24 ..       507     511
//!     +------+--------+-------+-------------+------------+-------------+--- .. ---+-------+------+
//!     | gate | format | count | transaction | enlistment | key | value | .. zeros | epoch | mark |
//!     | 1    | 1      | 1..40 | 4 bytes     | 4 bytes    | 4   | 8     |          | 4     | 1    |
//!     +------+--------+-------+-------------+------------+-------------+--- .. ---+-------+------+
//!       the gate and the mark are written by themselves, each with a sync: 1 is open, and 1 is committed
//!
//! All numbers have their lowest byte first, and the keys of a record rise. The transaction's number is that within its epoch; a store that was written without epochs has zeros
//! for them, and is read as of epoch 0. The layout and the order of the device calls are a definition of this project.
#![tactic(auto)]

mod device;
mod doubts;
mod draft;
mod drafts;
mod holdings;
mod kv;
mod layout;
mod opening;
mod reading;
mod record;
mod refusal;
mod rows;
mod slots;
mod writing;

pub use doubts::InDoubt;
pub use kv::Kv;
pub use layout::{KEYS, KV_BYTES};
pub use refusal::KvRefusal;
