//! Slotted files: a head, and slots with gates. The coordinator's log is one, and a store of keys another.
//!
//! A slotted file on a disk, 524,800 bytes:
//!
//!     0        512      1024     1536                524288    524800
//!     +--------+--------+--------+--- .. ---+--------+
//!     | head   | slot 0 | slot 1 |          | 1023   |
//!     +--------+--------+--------+--- .. ---+--------+
//!
//! The head is eight letters and zeros. Byte 0 of a slot is its gate: 1 is open, and anything else is closed. What comes after a closed gate isn't looked at. So a record
//! is written behind a closed gate, and synced; then its gate is opened, and synced. A crash between leaves the record whole, or no record. The layout and the order of the
//! device calls are a definition of this project.
#![tactic(auto)]

mod bytes;
mod empty;
mod layout;

pub use bytes::{put, read_zeros, same, zeros};
pub use empty::{blank, written_head};
pub use layout::{
    CLOSED, HEAD_BYTES, OPEN, RECORD_BYTES, SLOT_BYTES, SLOTS, SLOTTED_BYTES, slot_at,
};
