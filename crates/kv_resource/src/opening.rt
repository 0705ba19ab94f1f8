//! Reads a store from a disk.
ghost use Rattle.std.specs.Prelude.{◌≡◌, ◌⊎◌, ◌≤◌, ◌*◌, ◌++◌, ℕ, [], length, map, replicate, take, vec_capacity, IfErr, IfOk, OnOk, IsErrOf, IsTrue, Err, Ok, None};
ghost use Rattle.outside.specs.Disk.{AreWithin};
ghost use Rattle.outside.specs.Faults.{Rose};
ghost use Rattle.slotted.specs.Slotted.{formed};
ghost use Rattle.kv_resource.specs.Bytes.{kv_has, kv_head, kv_slots};

use crate::layout::{KEYS, KV_BYTES, LETTERS};
use crate::reading::read_slot;
use crate::record::Record;
use crate::refusal::KvRefusal;
use outside::Disk;
use slotted::{HEAD_BYTES, SLOT_BYTES, SLOTS, same, slot_at, written_head};
use std::alloc::{AllocError, Global};

/// Room for the slots of a store.
///
/// # Errors
///
/// Where no memory was left.
pub fn slot_room(alloc: Global) -> Result<Vec<Option<Record>>, AllocError>
    ensures empty { IfOk result (λ v. v.items ≡ []) }
    ensures room { IfOk result (λ v. vec_capacity v ≡ SLOTS) }
{
    Vec::with_capacity(alloc, SLOTS)
}

/// Room for the rows of a store: for all that its slots may ever have.
///
/// # Errors
///
/// Where no memory was left.
pub fn row_room(alloc: Global) -> Result<Vec<(u32, u64)>, AllocError>
    ensures empty { IfOk result (λ v. v.items ≡ []) }
    ensures room { IfOk result (λ v. vec_capacity v ≡ KEYS * SLOTS) }
{
    Vec::with_capacity(alloc, KEYS * SLOTS)
}

/// Closes each slot.
pub fn close_all(slots: &mut Vec<Option<Record>>)
    requires empty { slots.old.items ≡ [] }
    requires room { vec_capacity slots.old ≡ SLOTS }
    ensures closed { slots.new.items ≡ replicate (length slots.new.items) None }
    ensures many { length slots.new.items ≡ SLOTS }
{
    while slots.len() < SLOTS {
        slots.push_reserved(None);
    }
}

/// The head of a store.
pub fn store_head() -> [u8; HEAD_BYTES]
    ensures { result ≡ kv_head }
{
    written_head(LETTERS)
}

/// Reads the head and each slot of a store.
///
/// # Errors
///
/// - [`KvRefusal::Fault`], only where the disk's count of faults rose.
/// - [`KvRefusal::NotAStore`] with the first place of another form.
pub fn read_all<D: Disk>(disk: &mut D, slots: &mut Vec<Option<Record>>) -> Result<(), KvRefusal>
    requires size { KV_BYTES ≤ D.size disk.old }
    requires empty { slots.old.items ≡ [] }
    requires room { vec_capacity slots.old ≡ SLOTS }
    ensures seen { IsTrue D.honest → D.seen disk.new ≡ D.seen disk.old }
    ensures images { IsTrue D.honest → AreWithin (D.image disk.old) (D.image disk.new) }
    ensures at_head { IsTrue D.honest → OnOk result (take HEAD_BYTES (D.seen disk.old) ≡ kv_head) }
    ensures slots { IsTrue D.honest → OnOk result (kv_slots (D.seen disk.old) ≡ map formed slots.new.items) }
    ensures many { OnOk result (length slots.new.items ≡ SLOTS) }
    ensures bad { IsTrue D.honest → (p : ℕ) → IsErrOf result (KvRefusal.NotAStore p) → kv_has (D.seen disk.old) ≡ Err p }
    ensures fault { IsErrOf result KvRefusal.Fault → Rose (D.faults disk.old) (D.faults disk.new) }
    ensures only { IfErr result (λ e. (e ≡ KvRefusal.Fault) ⊎ ((p : ℕ) × (e ≡ KvRefusal.NotAStore p))) }
    ensures size { D.size disk.new ≡ D.size disk.old }
    ensures smooth { OnOk result (D.faults disk.new ≡ D.faults disk.old) }
    ensures grows { D.faults disk.old ≤ D.faults disk.new }
{
    let mut block = [0; SLOT_BYTES];
    let wanted = store_head();
    disk.read(0, &mut block)?;
    match same(&wanted, &block) {
        Ok(_) => (),
        Err(p) => return Err(KvRefusal::NotAStore(p as u64)),
    }
    for k in 0..SLOTS {
        let at = slot_at(k);
        disk.read(at, &mut block)?;
        match read_slot(&block) {
            Ok(s) => slots.push_reserved(s),
            Err(p) => return Err(KvRefusal::NotAStore(at + p as u64)),
        }
    }
    Ok(())
}
