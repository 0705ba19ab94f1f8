//! Reads records.
ghost use Rattle.std.specs.Prelude.{◌≡◌, ◌≤◌, ◌<◌, ◌+◌, ◌*◌, length, None, true, IfErr, IfOk, drop, false};
ghost use Rattle.std.specs.Option.{option_map};
ghost use Rattle.arrayvec.specs.ArrayVec.{array_vec_len};
ghost use Rattle.slotted.specs.Reading.{IsReadAs};
ghost use Rattle.slotted.specs.Slotted.{gated};
ghost use Rattle.kv_resource.specs.Bytes.{are_spelled, is_above, kv_record_at, number16, number32, number64, unmarked_at, writes_at};
ghost use Rattle.kv_resource.specs.Notes.{record_with};

use crate::draft::Draft;
use crate::layout::{
    COUNT, ENLISTMENT, EPOCH, FIRST_WRITE, FORMAT, KEYS, MARK, MARKED, TRANSACTION, WRITE_BYTES,
};
use crate::record::Record;
use arrayvec::ArrayVec;
use dtx_values::{EnlNo, TxId, TxNo};
use slotted::{OPEN, RECORD_BYTES, SLOT_BYTES, read_zeros};

/// The record of a slot, or none where its gate is closed.
///
/// # Errors
///
/// The first place in the slot of another form.
pub fn read_slot(b: &[u8]) -> Result<Option<Record>, usize>
    requires { length b.now ≡ SLOT_BYTES }
    ensures slot { IsReadAs (λ s. s) result (gated kv_record_at b.now) }
    ensures place { IfErr result (λ p. p < SLOT_BYTES) }
{
    if b[0] != OPEN {
        return Ok(None);
    }
    let (_, body) = b.split_at(1);
    match read_record(body) {
        Ok(r) => Ok(Some(r)),
        Err(p) => Err(p),
    }
}

// The record whose bytes come after an open gate.
#[tactic(auto, unfolding(crate::specs::Bytes::kv_record_at))]
fn read_record(b: &[u8]) -> Result<Record, usize>
    requires { length b.now ≡ RECORD_BYTES }
    ensures record { IsReadAs (λ r. r) result (kv_record_at b.now) }
    ensures place { IfErr result (λ p. p < SLOT_BYTES) }
{
    let (front, _) = b.split_at(EPOCH);
    match read_draft(u32_at(b, EPOCH), front) {
        Ok(draft) => Ok(Record::new(draft, b[MARK] == MARKED)),
        Err(p) => Err(p),
    }
}

// The draft of the bytes between a gate and an epoch, of a transaction of this epoch.
#[tactic(auto, unfolding(crate::specs::Bytes::unmarked_at))]
fn read_draft(epoch: u32, b: &[u8]) -> Result<Draft, usize>
    requires { length b.now ≡ EPOCH }
    ensures record { IsReadAs (record_with false) result (unmarked_at epoch b.now) }
    ensures place { IfErr result (λ p. p < SLOT_BYTES) }
{
    if b[0] != FORMAT {
        return Err(1);
    }
    let n = usize::from(u16_at(b, COUNT));
    if n < 1 || n > KEYS {
        return Err(1 + COUNT);
    }
    let Some(t) = TxNo::new(u32_at(b, TRANSACTION)) else {
        return Err(1 + TRANSACTION);
    };
    let Some(e) = EnlNo::new(u32_at(b, ENLISTMENT)) else {
        return Err(1 + ENLISTMENT);
    };
    let (_, rest) = b.split_at(FIRST_WRITE);
    let (writes, rest) = read_writes(n, rest)?;
    read_zeros(rest, 1 + FIRST_WRITE + WRITE_BYTES * n)?;
    Ok(Draft::of(TxId::new(epoch, t), e, writes))
}

// The writes that come first in the bytes, and the bytes after them.
fn read_writes(n: usize, b: &[u8]) -> Result<(ArrayVec<(u32, u64), KEYS>, &[u8]), usize>
    requires few { n ≤ KEYS }
    requires long { length b.now + FIRST_WRITE ≡ EPOCH }
    ensures writes { IsReadAs (λ x. (x.0.items, x.1.now)) result (writes_at n 12 None b.now) }
    ensures place { IfErr result (λ p. p < SLOT_BYTES) }
    ensures many { IfOk result (λ x. array_vec_len x.0 ≡ n) }
    ensures spelled { IfOk result (λ x. are_spelled None x.0.items ≡ true) }
    ensures rest { IfOk result (λ x. length x.1.now + WRITE_BYTES * n + FIRST_WRITE ≡ EPOCH) }
{
    let mut writes = ArrayVec::new();
    let mut before = None;
    let mut rest = b;
    for i in 0..n {
        let key = u32_at(rest, 0);
        if !is_above(before, key) {
            return Err(1 + FIRST_WRITE + WRITE_BYTES * i);
        }
        writes.push((key, u64_at(rest, 4)));
        before = Some(key);
        let (_, after) = rest.split_at(WRITE_BYTES);
        rest = after;
    }
    Ok((writes, rest))
}

// Whether a key is above the one before it, where one is.
fn is_above(before: Option<u32>, key: u32) -> bool
    ensures { result ≡ is_above before key }
{
    match before {
        Some(before) => before < key,
        None => true,
    }
}

// The number in the 2 bytes from this place on.
#[tactic(auto, unfolding(crate::specs::Bytes::number16))]
fn u16_at(b: &[u8], at: usize) -> u16
    requires { at + 2 ≤ length b.now }
    ensures { result ≡ number16 (drop at b.now) }
{
    u16::from_le_bytes([b[at], b[at + 1]])
}

// The number in the 4 bytes from this place on.
#[tactic(auto, unfolding(crate::specs::Bytes::number32))]
fn u32_at(b: &[u8], at: usize) -> u32
    requires { at + 4 ≤ length b.now }
    ensures { result ≡ number32 (drop at b.now) }
{
    u32::from_le_bytes([b[at], b[at + 1], b[at + 2], b[at + 3]])
}

// The number in the 8 bytes from this place on.
#[tactic(auto, unfolding(crate::specs::Bytes::number64))]
fn u64_at(b: &[u8], at: usize) -> u64
    requires { at + 8 ≤ length b.now }
    ensures { result ≡ number64 (drop at b.now) }
{
    u64::from_le_bytes([
        b[at],
        b[at + 1],
        b[at + 2],
        b[at + 3],
        b[at + 4],
        b[at + 5],
        b[at + 6],
        b[at + 7],
    ])
}
