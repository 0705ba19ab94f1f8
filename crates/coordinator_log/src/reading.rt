//! Reads records.
ghost use Rattle.std.specs.Prelude.{◌≡◌, ◌≤◌, ◌<◌, ◌+◌, ◌*◌, length, map, take, IfErr, IfOk};
ghost use Rattle.dtx_values.specs.RecoveryInfo.{pair_of};
ghost use Rattle.dtx_model.specs.Log.{count_at, pair_at, pairs_at, record_at, record_of};
ghost use Rattle.slotted.specs.Reading.{IsReadAs};

use crate::layout::{COUNT, FIRST_PAIR, FORMAT, IDENTIFIER, PAIR_BYTES, PAIRS};
use dtx_values::{EnlNo, LogRecord, RmNo, read_identifier, read_pair};
use slotted::{RECORD_BYTES, SLOT_BYTES, read_zeros};

/// The record whose bytes come after an open gate, or the first place in the slot, from 1, of another form.
#[tactic(auto, unfolding(dtx_model::specs::Log::record_at))]
pub fn read_record(b: &[u8]) -> Result<LogRecord, usize>
    requires { length b.now ≡ RECORD_BYTES }
    ensures record { IsReadAs record_of result (record_at b.now) }
    ensures place { IfErr result (λ p. p < SLOT_BYTES) }
{
    if b[0] != FORMAT {
        return Err(1);
    }
    let n = usize::from(count(b, COUNT));
    if n > PAIRS {
        return Err(2);
    }
    let (_, identifier) = b.split_at(IDENTIFIER);
    let id = match read_identifier(identifier) {
        Ok(id) => id,
        Err(p) => return Err(1 + IDENTIFIER + usize::from(p)),
    };
    let (_, pairs) = b.split_at(FIRST_PAIR);
    let (r, rest) = read_pairs(id, n, pairs)?;
    read_zeros(rest, 1 + FIRST_PAIR + PAIR_BYTES * n)?;
    Ok(r)
}

/// A record of this identifier and the enlistments that come first in the bytes, and the bytes after them.
fn read_pairs(id: u128, n: usize, b: &[u8]) -> Result<(LogRecord, &[u8]), usize>
    requires few { n ≤ PAIRS }
    requires long { length b.now + FIRST_PAIR ≡ RECORD_BYTES }
    ensures pairs { IsReadAs (λ x. (map pair_of (take x.0.count x.0.durables), x.1.now)) result (pairs_at n 20 b.now) }
    ensures place { IfErr result (λ p. p < SLOT_BYTES) }
    ensures id { IfOk result (λ x. x.0.id ≡ id) }
    ensures rest { IfOk result (λ x. length x.1.now + PAIR_BYTES * n + FIRST_PAIR ≡ RECORD_BYTES) }
{
    let mut r = LogRecord::new(id);
    let mut rest = b;
    for i in 0..n {
        let (rm, enl) = pair_in_slot(rest, 1 + FIRST_PAIR + PAIR_BYTES * i)?;
        r.add(rm, enl);
        let (_, after) = rest.split_at(PAIR_BYTES);
        rest = after;
    }
    Ok((r, rest))
}

/// The enlistment that comes first in the bytes, which begin at this place of the slot.
#[tactic(auto, unfolding(dtx_model::specs::Log::pair_at))]
fn pair_in_slot(b: &[u8], place: usize) -> Result<(RmNo, EnlNo), usize>
    requires long { PAIR_BYTES ≤ length b.now }
    requires room { place ≤ 1000 }
    ensures pair { IsReadAs pair_of result (pair_at place b.now) }
    ensures place { IfErr result (λ p. p ≤ place + 16) }
{
    match read_pair(b) {
        Ok(pair) => Ok(pair),
        Err(p) => Err(place + usize::from(p)),
    }
}

/// The number in the 2 bytes from this place on, the lowest first.
#[tactic(auto, unfolding(dtx_model::specs::Log::count_at))]
fn count(b: &[u8], at: usize) -> u16
    requires { at + 2 ≤ length b.now }
    ensures { result ≡ count_at at b.now }
{
    u16::from_le_bytes([b[at], b[at + 1]])
}
