//! The table of a store: rows in order of key, each key once, found by halving.
ghost use Rattle.std.specs.Prelude.{◌≡◌, ◌+◌, ◌*◌, ◌≤◌, ◌<◌, [], ◌∷◌, length, vec_capacity, vec_len, IfErr, IfOk};
ghost use Rattle.kv_resource.specs.Store.{get_in, open_records, table_onto, with_write};
ghost use Rattle.kv_resource.specs.Table.{IsGapAt, IsRising, IsRowAt, IsTabled, unmarked_in, with_write_under, with_writes_under};

use crate::layout::KEYS;
use crate::record::Record;
use crate::slots::is_overwritten;

/// Where the row of the key is, or where it would go.
fn search(rows: &[(u32, u64)], key: u32) -> Result<usize, usize>
    requires { IsRising rows.now }
    ensures found { IfOk result (IsRowAt key rows.now) }
    ensures absent { IfErr result (IsGapAt key rows.now) }
{
    rows.binary_search_by_key(&key, |w| w.0)
}

/// What the key has in these rows.
pub fn value_in(rows: &[(u32, u64)], key: u32) -> Option<u64>
    requires { IsRising rows.now }
    ensures { result ≡ get_in key rows.now }
{
    match search(rows, key) {
        Ok(at) => Some(rows[at].1),
        Err(_) => None,
    }
}

// Puts a row to the others, or in place of that of the same key. There is room for it.
fn put_row(rows: &mut Vec<(u32, u64)>, key: u32, value: u64)
    requires rises { IsRising rows.old.items }
    requires room { vec_len rows.old < vec_capacity rows.old }
    ensures items { rows.new.items ≡ with_write key value rows.old.items }
    ensures rises { IsRising rows.new.items }
    ensures few { vec_len rows.new ≤ vec_len rows.old + 1 }
    ensures capacity { vec_capacity rows.old ≤ vec_capacity rows.new }
{
    match search(rows, key) {
        Ok(at) => rows[at] = (key, value),
        Err(at) => match rows.insert(at, (key, value)) {
            Ok(()) => {}
            Err(_) => unreachable!(),
        },
    }
}

// Puts a write to the rows, unless a marked record of the later slots wrote its key. There is room for it.
fn put_under(rows: &mut Vec<(u32, u64)>, key: u32, value: u64, later: &[Option<Record>])
    requires rises { IsRising rows.old.items }
    requires room { vec_len rows.old < vec_capacity rows.old }
    ensures items { rows.new.items ≡ with_write_under later.now key value rows.old.items }
    ensures rises { IsRising rows.new.items }
    ensures few { vec_len rows.new ≤ vec_len rows.old + 1 }
    ensures capacity { vec_capacity rows.old ≤ vec_capacity rows.new }
{
    if !is_overwritten(later, key) {
        put_row(rows, key, value);
    }
}

/// Puts these writes to the rows, but for those to keys that a marked record of the later slots wrote. There is room for them.
pub fn put_rows(rows: &mut Vec<(u32, u64)>, writes: &[(u32, u64)], later: &[Option<Record>])
    requires rises { IsRising rows.old.items }
    requires room { vec_len rows.old + length writes.now ≤ vec_capacity rows.old }
    ensures items { rows.new.items ≡ with_writes_under later.now writes.now rows.old.items }
    ensures rises { IsRising rows.new.items }
    ensures few { vec_len rows.new ≤ vec_len rows.old + length writes.now }
    ensures capacity { vec_capacity rows.old ≤ vec_capacity rows.new }
{
    for w in writes {
        put_under(rows, w.0, w.1, later);
    }
}

// Puts the rows of a slot, where its record is marked. There is room for them.
fn put_slot(rows: &mut Vec<(u32, u64)>, slot: &Option<Record>)
    requires rises { IsRising rows.old.items }
    requires room { vec_len rows.old + KEYS ≤ vec_capacity rows.old }
    ensures items { rows.new.items ≡ table_onto rows.old.items (open_records (slot.now ∷ [])) }
    ensures rises { IsRising rows.new.items }
    ensures few { vec_len rows.new + KEYS * unmarked_in (slot.now ∷ []) ≤ vec_len rows.old + KEYS }
    ensures capacity { vec_capacity rows.old ≤ vec_capacity rows.new }
{
    if let Some(r) = slot {
        if r.is_marked() {
            r.put_rows(rows, &[]);
        }
    }
}

/// Puts the rows of these slots. There is room for all that they may ever have.
pub fn fill(rows: &mut Vec<(u32, u64)>, slots: &[Option<Record>])
    requires empty { rows.old.items ≡ [] }
    requires room { KEYS * length slots.now ≤ vec_capacity rows.old }
    ensures { IsTabled rows.new.items (vec_capacity rows.new) slots.now }
{
    for slot in slots {
        put_slot(rows, slot);
    }
}
