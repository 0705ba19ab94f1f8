//! The lines of a listing.
ghost use Rattle.std.specs.Prelude.{◌≡◌, ◌≤◌, ◌+◌, ◌++◌, [], count_by, is_some, length, map, IfOk, OnOk};
ghost use Rattle.std.specs.List.{enumerate_from, flat_map};
ghost use Rattle.std.specs.Option.{option_map};
ghost use Rattle.dtx_values.specs.RecoveryInfo.{pair_of};
ghost use Rattle.dtx_model.specs.Log.{record_of};
ghost use Rattle.line_tail.specs.declared.tail.TheConstants.{LINE_ROOM};
ghost use Rattle.coordinator_log.specs.Slots.{with_closed};
ghost use Rattle.log_listing.specs.Listing.{count_line, listing_of, name_of, pair_text, record_name, slot_line, slot_text};
ghost use Rattle.log_listing.specs.declared.listing.TheConstants.{ROOM};

use dtx_values::{EnlNo, LogRecord, RmNo, TxId};
use line_tail::Tail;
use line_words::{put_enlistment, put_identifier, put_manager, put_numbered};
use log_epochs::epoch_in;
use std::alloc::{AllocError, Global};

/// Room for the longest name of a record.
const ROOM: usize = 41;

/// Puts the transaction of this identifier by its epoch and its number, or the identifier where it is that of none.
fn put_name(tail: &mut Tail, id: u128)
    requires { tail.old ≡ [] }
    ensures text { tail.new ≡ name_of id }
    ensures length { length tail.new ≤ ROOM }
{
    match TxId::of_identifier(id) {
        Some(x) => {
            tail.put_number(u64::from(x.t().get()));
            tail.put(b".");
            tail.put_number(u64::from(x.epoch()));
        }
        None => put_identifier(tail, id),
    }
}

/// Puts what a record is of: an epoch, or a transaction.
fn put_record_name(tail: &mut Tail, r: &LogRecord)
    requires { tail.old ≡ [] }
    ensures text { tail.new ≡ record_name (record_of r.now) }
    ensures length { length tail.new ≤ ROOM }
{
    match epoch_in(r) {
        Some(n) => put_numbered(tail, b"epoch ", u64::from(n)),
        None => put_name(tail, r.id),
    }
}

/// Appends the words of an enlistment.
fn push_pair(text: &mut Vec<u8>, pair: (RmNo, EnlNo)) -> Result<(), AllocError>
    ensures { OnOk result (text.new.items ≡ text.old.items ++ pair_text (pair_of pair)) }
{
    let mut tail = Tail::new();
    put_enlistment(&mut tail, pair.1);
    tail.put(b" ");
    put_manager(&mut tail, pair.0);
    tail.put(b" ");
    text.extend_from_slice(tail.as_slice())
}

/// Appends the words of enlistments, in order.
fn push_pairs(text: &mut Vec<u8>, pairs: &[(RmNo, EnlNo)]) -> Result<(), AllocError>
    ensures { OnOk result (text.new.items ≡ text.old.items ++ flat_map pair_text (map pair_of pairs.now)) }
{
    for i in 0..pairs.len() {
        push_pair(text, pairs[i])?;
    }
    Ok(())
}

/// Appends the line of an open slot.
fn push_slot(text: &mut Vec<u8>, k: usize, r: &LogRecord) -> Result<(), AllocError>
    ensures { OnOk result (text.new.items ≡ text.old.items ++ slot_line k (record_of r.now)) }
{
    let mut tail = Tail::new();
    put_record_name(&mut tail, r);
    tail.put(b" ");
    put_numbered(&mut tail, b"slot ", k as u64);
    text.extend_from_slice(tail.as_slice())?;
    push_pairs(text, r.pairs())?;
    text.extend_from_slice(b"\n")
}

/// Appends the lines of the open ones of these slots, in order.
fn push_slots(text: &mut Vec<u8>, records: &[Option<LogRecord>]) -> Result<(), AllocError>
    ensures { OnOk result (text.new.items ≡ text.old.items ++ flat_map slot_text (enumerate_from 0 (map (option_map record_of) records.now))) }
{
    for k in 0..records.len() {
        if let Some(r) = &records[k] {
            push_slot(text, k, r)?;
        }
    }
    Ok(())
}

/// How many of these slots are open.
fn open_slots(records: &[Option<LogRecord>]) -> usize
    ensures { result ≡ count_by is_some records.now }
{
    records.iter().filter(|s| s.is_some()).count()
}

/// Appends the last line, which says how many slots are used.
fn push_count(text: &mut Vec<u8>, used: usize) -> Result<(), AllocError>
    ensures { OnOk result (text.new.items ≡ text.old.items ++ count_line used) }
{
    let mut tail = Tail::new();
    tail.put(b" of 1024 slots used\n");
    tail.put_number(used as u64);
    text.extend_from_slice(tail.as_slice())
}

/// The listing of the log that has these records in its first slots, with none where the gate is closed, and whose other slots are closed.
///
/// # Errors
///
/// [`AllocError`] where memory ran out.
pub fn list_log(alloc: Global, records: &[Option<LogRecord>]) -> Result<Vec<u8>, AllocError>
    ensures { IfOk result (λ v. v.items ≡ listing_of (map (option_map record_of) (with_closed 1024 records.now))) }
{
    let mut text = Vec::new(alloc);
    push_slots(&mut text, records)?;
    push_count(&mut text, open_slots(records))?;
    Ok(text)
}
