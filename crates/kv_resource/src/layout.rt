//! Where things are in a slot of a store. The layout is a definition of this project.
ghost use Rattle.std.specs.Prelude.{◌≡◌, ◌≤◌, ◌<◌, ◌+◌, ◌*◌};

use slotted::{RECORD_BYTES, SLOTTED_BYTES};

/// The length of a store in bytes.
pub const KV_BYTES: u64 = SLOTTED_BYTES;

/// The most keys that one enlistment writes.
pub const KEYS: usize = 40;

/// What the head begins with. Zeros follow.
pub const LETTERS: &[u8; 8] = b"DTXKV01\n";

/// The first byte of a record: its format.
pub const FORMAT: u8 = 1;

/// The place of the number of writes in a record, in two bytes.
pub const COUNT: usize = 1;

/// The place of the transaction's number within its epoch in a record, in four bytes.
pub const TRANSACTION: usize = 3;

/// The place of the enlistment's number in a record, in four bytes.
pub const ENLISTMENT: usize = 7;

/// The place of the first write in a record.
pub const FIRST_WRITE: usize = 11;

/// The length of a write in bytes: a key in four, and a value in eight.
pub const WRITE_BYTES: usize = 12;

/// The place of the transaction's epoch in a record, in four bytes.
pub const EPOCH: usize = 506;

/// The place of the mark in a record, its last byte.
pub const MARK: usize = 510;

/// The mark of a record that is committed.
pub const MARKED: u8 = 1;

const _: () = prove!(MARK == RECORD_BYTES - 1);

const _: () = prove!(EPOCH + 4 == MARK);

const _: () = prove!(FIRST_WRITE + KEYS * WRITE_BYTES <= EPOCH);
