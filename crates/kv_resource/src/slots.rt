//! The slots of a store in memory.
ghost use Rattle.std.specs.Prelude.{◌≡◌, ◌≤◌, length, find, is_some, position, set, ◌<◌, slice_index_or, vec_capacity, None, Some, true, IsTrue};
ghost use Rattle.std.specs.List.{count_by};
ghost use Rattle.std.specs.Option.{option_map};
ghost use Rattle.dtx_values.specs.TxIds.{number_of};
ghost use Rattle.kv_resource.specs.Bytes.{KvRecord, with_mark};
ghost use Rattle.dtx_model.specs.Words.{has};
ghost use Rattle.kv_resource.specs.Store.{is_busy_record, is_record_of, is_unmarked, is_unmarked_of, next_slot, numbers_of, on_open, open_records, pair_of_record};
ghost use Rattle.kv_resource.specs.Table.{IsTabled, is_marked_write};

use crate::record::Record;
use dtx_values::{EnlNo, TxId};
use slotted::SLOTS;

/// The slot after the highest open one, where there is one.
pub fn next_slot(slots: &[Option<Record>]) -> Option<usize>
    requires { length slots.now ≤ SLOTS }
    ensures { result ≡ next_slot slots.now }
{
    let mut next = 0;
    for (k, slot) in slots.iter().enumerate() {
        if slot.is_some() {
            next = k + 1;
        }
    }
    if next < SLOTS { Some(next) } else { None }
}

/// How many slots are open.
pub fn open_slots(slots: &[Option<Record>]) -> usize
    ensures { result ≡ count_by is_some slots.now }
{
    slots.iter().filter(|s| s.is_some()).count()
}

/// The lowest open slot of this enlistment.
pub fn slot_of(slots: &[Option<Record>], t: TxId, e: EnlNo) -> Option<usize>
    ensures { result ≡ position (on_open (is_record_of (number_of t, e.value))) slots.now }
{
    slots.iter().position(|s| is_of(s, t, e))
}

/// The lowest open slot of this enlistment that isn't marked.
pub fn unmarked_slot_of(slots: &[Option<Record>], t: TxId, e: EnlNo) -> Option<usize>
    ensures { result ≡ position (on_open (is_unmarked_of (number_of t, e.value))) slots.now }
{
    slots.iter().position(|s| is_unmarked_of(s, t, e))
}

/// Whether slot k is open and marked.
pub fn is_marked(slots: &[Option<Record>], k: usize) -> bool
    requires { k < length slots.now }
    ensures { result ≡ on_open (λ r. r.marked) (slice_index_or slots.now k None) }
{
    match &slots[k] {
        Some(r) => r.is_marked(),
        None => false,
    }
}

/// Marks the record of slot k.
pub fn mark_slot(slots: &mut [Option<Record>], k: usize)
    requires { k < length slots.old }
    ensures { (r : KvRecord) → slice_index_or slots.old k None ≡ Some r → slots.new ≡ set slots.old k (Some (with_mark true r)) }
{
    if let Some(r) = &mut slots[k] {
        r.mark();
    }
}

/// Puts the rows of slot k, whose record is about to be marked, under those of the slots after it.
pub fn put_marked(rows: &mut Vec<(u32, u64)>, slots: &[Option<Record>], k: usize)
    requires slot { k < length slots.now }
    requires unmarked { IsTrue (on_open is_unmarked (slice_index_or slots.now k None)) }
    requires tabled { IsTabled rows.old.items (vec_capacity rows.old) slots.now }
    ensures { (r : KvRecord) → slice_index_or slots.now k None ≡ Some r → IsTabled rows.new.items (vec_capacity rows.new) (set slots.now k (Some (with_mark true r))) }
{
    if let Some(r) = &slots[k] {
        r.put_rows(rows, &slots[k + 1..]);
    }
}

/// The first other enlistment that is in doubt and wrote the key.
pub fn busy_slot(slots: &[Option<Record>], t: TxId, e: EnlNo, key: u32) -> Option<(TxId, EnlNo)>
    ensures { option_map numbers_of result ≡ option_map pair_of_record (find (is_busy_record (number_of t, e.value) key) (open_records slots.now)) }
{
    for slot in slots {
        if let Some(r) = slot {
            if r.is_busy(t, e, key) {
                return Some(r.pair());
            }
        }
    }
    None
}

/// Whether a marked record of these slots wrote the key.
pub fn is_overwritten(slots: &[Option<Record>], key: u32) -> bool
    ensures { result ≡ has (on_open (is_marked_write key)) slots.now }
{
    slots.iter().any(|s| is_marked_write(s, key))
}

// Whether a slot is open, with a record of this enlistment.
fn is_of(slot: &Option<Record>, t: TxId, e: EnlNo) -> bool
    ensures { result ≡ on_open (is_record_of (number_of t, e.value)) slot.now }
{
    match slot {
        Some(r) => r.is_of(t, e),
        None => false,
    }
}

// Whether a slot is open, with a marked record that wrote the key.
fn is_marked_write(slot: &Option<Record>, key: u32) -> bool
    ensures { result ≡ on_open (is_marked_write key) slot.now }
{
    match slot {
        Some(r) => r.is_marked_write(key),
        None => false,
    }
}

// Whether a slot is open, with a record of this enlistment that isn't marked.
fn is_unmarked_of(slot: &Option<Record>, t: TxId, e: EnlNo) -> bool
    ensures { result ≡ on_open (is_unmarked_of (number_of t, e.value)) slot.now }
{
    match slot {
        Some(r) => r.is_unmarked_of(t, e),
        None => false,
    }
}
