//! Where things are in a slotted file. The layout is a definition of this project.
ghost use Rattle.std.specs.Prelude.{◌≡◌, ◌<◌, ◌+◌, ◌*◌};

/// The length of a slotted file in bytes: the head, and then the slots.
pub const SLOTTED_BYTES: u64 = 524_800;

/// The length of the head in bytes. The first slot comes right after it.
pub const HEAD_BYTES: usize = 512;

/// How many slots there are.
pub const SLOTS: usize = 1024;

/// The length of a slot in bytes: its gate, and a record.
pub const SLOT_BYTES: usize = 512;

/// The gate of a slot, its first byte, where the slot has a record.
pub const OPEN: u8 = 1;

/// The gate of a slot without a record.
pub const CLOSED: u8 = 0;

/// The length of a record in bytes, which is what is left of a slot after its gate.
pub const RECORD_BYTES: usize = 511;

const _: () = prove!(SLOTTED_BYTES == (HEAD_BYTES + SLOTS * SLOT_BYTES) as u64);

const _: () = prove!(RECORD_BYTES == SLOT_BYTES - 1);

/// The place of slot k on the disk, which is also that of its gate.
pub fn slot_at(k: usize) -> u64
    requires { k < SLOTS }
    ensures { result ≡ HEAD_BYTES + SLOT_BYTES * k }
{
    (HEAD_BYTES + SLOT_BYTES * k) as u64
}
