//! The writes and syncs of a store.
ghost use Rattle.std.specs.Prelude.{◌≡◌, ◌≤◌, ◌<◌, false, true, Some, None, Ok, IsTrue};
ghost use Rattle.outside.specs.Disk.{IsOnly};
ghost use Rattle.slotted.specs.Slotted.{IsSlotBy};
ghost use Rattle.kv_resource.specs.Bytes.{KvRecord, kv_slots, with_mark};
ghost use Rattle.kv_resource.specs.Images.{PutsSlot, Works};
ghost use Rattle.kv_resource.specs.Notes.{record_with};

use crate::draft::Draft;
use crate::layout::{KV_BYTES, MARK, MARKED};
use crate::writing::written_record;
use outside::{Disk, Failed};
use slotted::{CLOSED, OPEN, SLOTS, slot_at};

/// Writes a draft's record into slot k, whose gate is closed: the record, a sync, the gate and a sync.
///
/// # Errors
///
/// [`Failed`], only where the disk's count of faults rose.
pub fn store<D: Disk>(disk: &mut D, k: usize, d: &Draft) -> Result<(), Failed>
    requires slot { k < SLOTS }
    requires size { KV_BYTES ≤ D.size disk.old }
    ensures puts { IsTrue D.honest → IsOnly (D.seen disk.old) (D.image disk.old) → IsSlotBy kv_slots k (Ok None) (D.seen disk.old)
        → PutsSlot D.seen D.image disk.old disk.new k (Some (record_with false d.now)) result }
    ensures works { Works D.size D.faults disk.old disk.new result }
{
    let record = written_record(d);
    let gate = slot_at(k);
    // The record and its gate are two writes with a sync between, so that no crash leaves an open gate before a torn record.
    disk.write_at(gate + 1, &record)?;
    disk.sync()?;
    disk.write_at(gate, &[OPEN])?;
    disk.sync()
}

/// Marks the record of slot k as committed: a write and a sync.
///
/// # Errors
///
/// [`Failed`], only where the disk's count of faults rose.
pub fn mark<D: Disk>(disk: &mut D, k: usize) -> Result<(), Failed>
    requires slot { k < SLOTS }
    requires size { KV_BYTES ≤ D.size disk.old }
    ensures puts { IsTrue D.honest → IsOnly (D.seen disk.old) (D.image disk.old)
        → (r : KvRecord) → IsSlotBy kv_slots k (Ok (Some r)) (D.seen disk.old) → r.marked ≡ false
        → PutsSlot D.seen D.image disk.old disk.new k (Some (with_mark true r)) result }
    ensures works { Works D.size D.faults disk.old disk.new result }
{
    disk.write_at(slot_at(k) + 1 + MARK as u64, &[MARKED])?;
    disk.sync()
}

/// Closes the gate of slot k, which is open: a write and a sync.
///
/// # Errors
///
/// [`Failed`], only where the disk's count of faults rose.
pub fn close<D: Disk>(disk: &mut D, k: usize) -> Result<(), Failed>
    requires slot { k < SLOTS }
    requires size { KV_BYTES ≤ D.size disk.old }
    ensures puts { IsTrue D.honest → IsOnly (D.seen disk.old) (D.image disk.old)
        → (r : KvRecord) → IsSlotBy kv_slots k (Ok (Some r)) (D.seen disk.old)
        → PutsSlot D.seen D.image disk.old disk.new k None result }
    ensures works { Works D.size D.faults disk.old disk.new result }
{
    disk.write_at(slot_at(k), &[CLOSED])?;
    disk.sync()
}
