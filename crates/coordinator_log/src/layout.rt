//! Where things are in a record of a log. The layout is a definition of this project.

use slotted::{RECORD_BYTES, SLOTTED_BYTES};

/// The length of a log in bytes: the head, and then the slots.
pub const LOG_BYTES: u64 = SLOTTED_BYTES;

/// How many slots there are.
pub const SLOTS: usize = slotted::SLOTS;

/// What the head begins with. Zeros follow.
pub const LETTERS: &[u8; 8] = b"DTXLOG1\n";

/// The first byte of a record: its format.
pub const FORMAT: u8 = 1;

/// The place of the number of enlistments in a record, in two bytes with the lowest first.
pub const COUNT: usize = 1;

/// The place of the identifier in a record, in 16 bytes with the highest first.
pub const IDENTIFIER: usize = 3;

/// The place of the first enlistment in a record: after the format, the number of enlistments and the identifier.
pub const FIRST_PAIR: usize = 19;

/// The length of an enlistment in bytes.
pub const PAIR_BYTES: usize = 20;

/// The most enlistments of a record.
pub const PAIRS: usize = 16;

const _: () = prove!(FIRST_PAIR + PAIRS * PAIR_BYTES <= RECORD_BYTES);
