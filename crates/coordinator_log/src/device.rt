//! The writes and syncs of appends and frees, at each of which an armed stop may be reached.
ghost use Rattle.std.specs.Prelude.{◌≡◌, ◌⊎◌, ◌≤◌, ◌<◌, ◌+◌, List, ℕ, length, set, true, Some, None, Ok, OnErr, OnOk, IsTrue, if◌then◌else◌};
ghost use Rattle.outside.specs.Disk.{AreWithin, Follows, IsOnly, IsTorn, overwritten};
ghost use Rattle.outside.specs.Faults.{Rose};
ghost use Rattle.outside.specs.Images.{AreSame, after_sync, after_write, wished};
ghost use Rattle.dtx_values.specs.declared.Image.{Image};
ghost use Rattle.dtx_model.specs.Log.{record_of, slots_of};
ghost use Rattle.dtx_values.specs.RecoveryInfo.{is_id};
ghost use Rattle.coordinator_log.specs.Slots.{HasSlots, IsClosed, IsEither, IsOpen};
ghost use Rattle.coordinator_log.specs.Stop.{BreaksOff, Counts, after_calls, at_write, is_done, is_found_after_append, is_found_after_free, stop_in};
ghost use Rattle.coordinator_log.specs.declared.stop.ArmedStop.{ArmedStop};

use crate::law::records_are_read_again;
use crate::layout::{LOG_BYTES, SLOTS};
use crate::stop::{ArmedStop, reached};
use crate::writing::write_record;
use dtx_values::LogRecord;
use outside::{Disk, Failed, Image};
use slotted::{CLOSED, OPEN, RECORD_BYTES, slot_at};

/// A call that a fault of the disk or the armed stop broke off.
#[derive(Clone, Copy, PartialEq, Eq, Debug)]
pub struct Broken;

impl From<Failed> for Broken {
    fn from(_fault: Failed) -> Broken {
        Broken
    }
}

// What is written before the crash of a stop at a write.
fn write_before<D: Disk>(disk: &mut D, image: Image, at: u64, from: &[u8])
    requires { at + length from.now ≤ D.size disk.old }
    ensures done { IsTrue D.honest → Rose (D.faults disk.old) (D.faults disk.new) ⊎ (D.seen disk.new ≡ at_write image (D.seen disk.old) at from.now) }
    ensures ready { IsTrue D.obeys → Rose (D.faults disk.old) (D.faults disk.new)
        ⊎ (wished image (D.images disk.new) ≡ wished image (after_write at from.now (D.images disk.old))) }
    ensures images { IsTrue D.honest → Follows (IsTorn at (length from.now)) (D.image disk.old) (D.image disk.new) }
    ensures size { D.size disk.new ≡ D.size disk.old }
    ensures grows { D.faults disk.old ≤ D.faults disk.new }
{
    match image {
        Image::Lose => (),
        Image::Keep | Image::Torn => {
            // Whether it fails doesn't matter: the crash comes next, and the call is answered as broken off either way. What a failed write leaves in its range is
            // among the images already.
            let _ = disk.write_at(at, from);
        }
    }
}

// What is synced before the crash of a stop at a sync.
fn sync_before<D: Disk>(disk: &mut D, image: Image)
    ensures done { IsTrue D.honest → image ≡ Image.Keep → Rose (D.faults disk.old) (D.faults disk.new) ⊎ IsOnly (D.seen disk.old) (D.image disk.new) }
    ensures ready { IsTrue D.obeys → Rose (D.faults disk.old) (D.faults disk.new) ⊎ (wished image (D.images disk.new) ≡ wished image (D.images disk.old)) }
    ensures seen { IsTrue D.honest → D.seen disk.new ≡ D.seen disk.old }
    ensures images { IsTrue D.honest → AreWithin (D.image disk.old) (D.image disk.new) }
    ensures size { D.size disk.new ≡ D.size disk.old }
    ensures grows { D.faults disk.old ≤ D.faults disk.new }
{
    match image {
        Image::Lose | Image::Torn => (),
        Image::Keep => {
            // Whether it fails doesn't matter: the crash comes next. A sync that failed makes nothing safe.
            let _ = disk.sync();
        }
    }
}

// A write that counts.
fn write<D: Disk>(
    disk: &mut D,
    armed: &mut Option<ArmedStop>,
    at: u64,
    from: &[u8],
) -> Result<(), Broken>
    requires { at + length from.now ≤ D.size disk.old }
    ensures done { IsTrue D.honest → OnOk result (D.seen disk.new ≡ overwritten (D.seen disk.old) at from.now) }
    ensures images { IsTrue D.honest → Follows (IsTorn at (length from.now)) (D.image disk.old) (D.image disk.new) }
    ensures counts { Counts D.size D.faults disk.old disk.new armed.old armed.new result }
    ensures crashed { IsTrue D.honest → (image : Image) → stop_in 1 armed.old ≡ Some image → (d : D) × D.leaves image d (D.seen disk.new)
        × (Rose (D.faults disk.old) (D.faults disk.new) ⊎ (D.seen d ≡ at_write image (D.seen disk.old) at from.now)) }
    ensures put { IsTrue D.obeys → OnOk result (D.images disk.new ≡ after_write at from.now (D.images disk.old)) }
    ensures found { IsTrue D.obeys → (image : Image) → stop_in 1 armed.old ≡ Some image
        → Rose (D.faults disk.old) (D.faults disk.new) ⊎ (D.seen disk.new ≡ wished image (after_write at from.now (D.images disk.old))) }
{
    match reached(armed) {
        None => {
            disk.write_at(at, from)?;
            Ok(())
        }
        Some(image) => {
            write_before(disk, image, at, from);
            disk.crash(image);
            Err(Broken)
        }
    }
}

// A sync that counts.
fn sync<D: Disk>(disk: &mut D, armed: &mut Option<ArmedStop>) -> Result<(), Broken>
    ensures done { IsTrue D.honest → OnOk result (IsOnly (D.seen disk.old) (D.image disk.new)) }
    ensures seen { IsTrue D.honest → OnOk result (D.seen disk.new ≡ D.seen disk.old) }
    ensures images { IsTrue D.honest → AreWithin (D.image disk.old) (D.image disk.new) }
    ensures counts { Counts D.size D.faults disk.old disk.new armed.old armed.new result }
    ensures crashed { IsTrue D.honest → (image : Image) → stop_in 1 armed.old ≡ Some image
        → (d : D) × D.leaves image d (D.seen disk.new) × (D.seen d ≡ D.seen disk.old) }
    ensures kept { IsTrue D.honest → stop_in 1 armed.old ≡ Some Image.Keep → Rose (D.faults disk.old) (D.faults disk.new) ⊎ IsOnly (D.seen disk.old) (D.image disk.new) }
    ensures synced { IsTrue D.obeys → OnOk result (D.images disk.new ≡ after_sync (D.images disk.old)) }
    ensures found { IsTrue D.obeys → (image : Image) → stop_in 1 armed.old ≡ Some image
        → Rose (D.faults disk.old) (D.faults disk.new) ⊎ (D.seen disk.new ≡ wished image (D.images disk.old)) }
{
    match reached(armed) {
        None => {
            disk.sync()?;
            Ok(())
        }
        Some(image) => {
            sync_before(disk, image);
            disk.crash(image);
            Err(Broken)
        }
    }
}

/// Writes a record into slot k, whose gate is closed: the record, a sync, the gate and a sync.
///
/// # Errors
///
/// [`Broken`] where a call of the disk failed or the armed stop was reached.
pub fn store<D: Disk>(
    disk: &mut D,
    armed: &mut Option<ArmedStop>,
    k: usize,
    r: &LogRecord,
) -> Result<(), Broken>
    requires slot { k < SLOTS }
    requires size { LOG_BYTES ≤ D.size disk.old }
    requires valid { is_id r.now.id ≡ true }
    ensures done { IsTrue D.honest → IsOnly (D.seen disk.old) (D.image disk.old) → IsClosed k (D.seen disk.old)
        → OnOk result (HasSlots (D.seen disk.old) (set (slots_of (D.seen disk.old)) k (Ok (Some (record_of r.now)))) (D.seen disk.new)) }
    ensures durable { IsTrue D.honest → OnOk result (IsOnly (D.seen disk.new) (D.image disk.new)) }
    ensures images { IsTrue D.honest → IsOnly (D.seen disk.old) (D.image disk.old) → IsClosed k (D.seen disk.old) → (c : List ℕ) → D.image disk.new c
        → IsEither (D.seen disk.old) k (Ok (Some (record_of r.now))) c }
    ensures size { D.size disk.new ≡ D.size disk.old }
    ensures smooth { OnOk result (D.faults disk.new ≡ D.faults disk.old) }
    ensures grows { D.faults disk.old ≤ D.faults disk.new }
    ensures passed { OnOk result ((stop_in 4 armed.old ≡ None) × (armed.new ≡ after_calls 4 armed.old)) }
    ensures broken { OnErr result (BreaksOff 4 armed.old armed.new (Rose (D.faults disk.old) (D.faults disk.new))) }
    ensures crashed { IsTrue D.honest → IsOnly (D.seen disk.old) (D.image disk.old) → IsClosed k (D.seen disk.old)
        → (s : ArmedStop) → armed.old ≡ Some s → armed.new ≡ None → (d : D) × D.leaves s.image d (D.seen disk.new)
        × (Rose (D.faults disk.old) (D.faults disk.new)
        ⊎ HasSlots (D.seen disk.old) (if is_done 3 s then set (slots_of (D.seen disk.old)) k (Ok (Some (record_of r.now))) else slots_of (D.seen disk.old)) (D.seen d)) }
    ensures kept { IsTrue D.honest → IsOnly (D.seen disk.old) (D.image disk.old) → IsClosed k (D.seen disk.old)
        → (s : ArmedStop) → armed.old ≡ Some s → armed.new ≡ None → s.passes ≡ 3 → s.image ≡ Image.Keep → Rose (D.faults disk.old) (D.faults disk.new)
        ⊎ ((c : List ℕ) → D.image disk.new c → HasSlots (D.seen disk.old) (set (slots_of (D.seen disk.old)) k (Ok (Some (record_of r.now)))) c) }
    ensures synced { IsTrue D.obeys → OnOk result (AreSame (D.images disk.new)) }
    ensures found { IsTrue D.obeys → AreSame (D.images disk.old) → IsClosed k (D.seen disk.old) → (s : ArmedStop) → armed.old ≡ Some s → armed.new ≡ None
        → Rose (D.faults disk.old) (D.faults disk.new)
        ⊎ HasSlots (D.seen disk.old) (if is_found_after_append s.image s.passes then set (slots_of (D.seen disk.old)) k (Ok (Some (record_of r.now))) else slots_of (D.seen disk.old)) (D.seen disk.new) }
{
    // This does nothing when it runs. It brings in that what is written of a record is read as that record.
    records_are_read_again();
    let mut record = [0; RECORD_BYTES];
    write_record(r, &mut record);
    let gate = slot_at(k);
    // The record and its gate are two writes with a sync between. A crash may leave any bytes in a range that was written since the last sync. While the record is written
    // the gate is closed and outside that range, so whatever is left of the record isn't looked at. When the gate is written the record is safe, and the range is one byte:
    // it is 1, and the record counts, or it is anything else, and it doesn't. One write of all 512 bytes could leave an open gate and torn bytes.
    write(disk, armed, gate + 1, &record)?;
    sync(disk, armed)?;
    write(disk, armed, gate, &[OPEN])?;
    sync(disk, armed)?;
    Ok(())
}

/// Closes the gate of slot k, which is open: a write and a sync.
///
/// # Errors
///
/// [`Broken`] where a call of the disk failed or the armed stop was reached.
pub fn clear<D: Disk>(disk: &mut D, armed: &mut Option<ArmedStop>, k: usize) -> Result<(), Broken>
    requires slot { k < SLOTS }
    requires size { LOG_BYTES ≤ D.size disk.old }
    ensures done { IsTrue D.honest → IsOnly (D.seen disk.old) (D.image disk.old) → IsOpen k (D.seen disk.old)
        → OnOk result (HasSlots (D.seen disk.old) (set (slots_of (D.seen disk.old)) k (Ok None)) (D.seen disk.new)) }
    ensures durable { IsTrue D.honest → OnOk result (IsOnly (D.seen disk.new) (D.image disk.new)) }
    ensures images { IsTrue D.honest → IsOnly (D.seen disk.old) (D.image disk.old) → IsOpen k (D.seen disk.old) → (c : List ℕ) → D.image disk.new c
        → IsEither (D.seen disk.old) k (Ok None) c }
    ensures size { D.size disk.new ≡ D.size disk.old }
    ensures smooth { OnOk result (D.faults disk.new ≡ D.faults disk.old) }
    ensures grows { D.faults disk.old ≤ D.faults disk.new }
    ensures passed { OnOk result ((stop_in 2 armed.old ≡ None) × (armed.new ≡ after_calls 2 armed.old)) }
    ensures broken { OnErr result (BreaksOff 2 armed.old armed.new (Rose (D.faults disk.old) (D.faults disk.new))) }
    ensures crashed { IsTrue D.honest → IsOnly (D.seen disk.old) (D.image disk.old) → IsOpen k (D.seen disk.old)
        → (s : ArmedStop) → armed.old ≡ Some s → armed.new ≡ None → (d : D) × D.leaves s.image d (D.seen disk.new)
        × (Rose (D.faults disk.old) (D.faults disk.new)
        ⊎ HasSlots (D.seen disk.old) (if is_done 1 s then set (slots_of (D.seen disk.old)) k (Ok None) else slots_of (D.seen disk.old)) (D.seen d)) }
    ensures kept { IsTrue D.honest → IsOnly (D.seen disk.old) (D.image disk.old) → IsOpen k (D.seen disk.old)
        → (s : ArmedStop) → armed.old ≡ Some s → armed.new ≡ None → s.passes ≡ 1 → s.image ≡ Image.Keep → Rose (D.faults disk.old) (D.faults disk.new)
        ⊎ ((c : List ℕ) → D.image disk.new c → HasSlots (D.seen disk.old) (set (slots_of (D.seen disk.old)) k (Ok None)) c) }
    ensures synced { IsTrue D.obeys → OnOk result (AreSame (D.images disk.new)) }
    ensures found { IsTrue D.obeys → AreSame (D.images disk.old) → (s : ArmedStop) → armed.old ≡ Some s → armed.new ≡ None
        → Rose (D.faults disk.old) (D.faults disk.new)
        ⊎ HasSlots (D.seen disk.old) (if is_found_after_free s.image then slots_of (D.seen disk.old) else set (slots_of (D.seen disk.old)) k (Ok None)) (D.seen disk.new) }
{
    let gate = slot_at(k);
    // One byte is enough: a record with a closed gate isn't looked at. Its bytes stay until the slot is used again.
    write(disk, armed, gate, &[CLOSED])?;
    sync(disk, armed)?;
    Ok(())
}
