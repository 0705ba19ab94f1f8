//! What the log says of transactions of earlier processes, and the freeing of its records.
ghost use Rattle.std.specs.Prelude.{◌≡◌, ◌≤◌, ◌<◌, ℕ, [], None, Some, IfOk, IfSome, IsFalse, IsTrue, Ok, OnErr, OnOk, true, length, vec_capacity};
ghost use Rattle.std.specs.Option.{option_map};
ghost use Rattle.outside.specs.Faults.{Rose};
ghost use Rattle.dtx_model.specs.Log.{first_of, record_of, without_first_of};
ghost use Rattle.coordinator_log.specs.Slots.{open_records};
ghost use Rattle.log_epochs.specs.Beginning.{AllAre};
ghost use Rattle.transactions.specs.Keeping.{AreNumbered};
ghost use Rattle.transactions.specs.Recovering.{FreesLog, NoneIsFound, OnlyFrees, has_place, is_found, is_passed, may_be_freed, names, outcome_by, without_each};

use crate::desk::RecoveryDesk;
use crate::live::Live;
use coordinator_log::{Log, LogRefusal};
use dtx_values::{EnlNo, LogRecord, Outcome, TxId};
use log_epochs::epoch_in;
use outside::Disk;
use std::alloc::{AllocError, Global};

/// Whether a record names an enlistment of this number.
fn names(r: &LogRecord, e: EnlNo) -> bool
    ensures { result ≡ names e.value (record_of r.now) }
{
    r.pairs().iter().any(|p| p.1.get() == e.get())
}

/// The outcome of an enlistment, by what was found of its transaction.
pub(crate) fn outcome_by(found: Option<&LogRecord>, e: EnlNo) -> Outcome
    ensures { result ≡ outcome_by e.value (option_map (λ r. record_of r.now) found.entry) }
{
    match found {
        Some(r) if names(r, e) => Outcome::Committed,
        _ => Outcome::Aborted,
    }
}

/// Whether a place is that of the transaction with this identifier.
pub(crate) fn has_place(lives: &[Live], id: u128) -> bool
    requires { AreNumbered lives.now }
    ensures { result ≡ has_place id lives.now }
{
    let Some(t) = TxId::of_identifier(id) else {
        return false;
    };
    match lives.get(t.t().index()) {
        Some(live) => live.number().identifier() == id,
        None => false,
    }
}

/// Whether a record may be freed.
fn may_be_freed(r: &LogRecord, lives: &[Live], desk: &RecoveryDesk) -> bool
    requires { AreNumbered lives.now }
    ensures { result ≡ may_be_freed desk.now lives.now (record_of r.now) }
{
    epoch_in(r).is_none() && !has_place(lives, r.id) && desk.covers(r)
}

/// Whether a record was found that may be freed.
fn is_found(found: Option<&LogRecord>, lives: &[Live], desk: &RecoveryDesk) -> bool
    requires { AreNumbered lives.now }
    ensures { result ≡ is_found desk.now lives.now (option_map (λ r. record_of r.now) found.entry) }
{
    match found {
        Some(r) => may_be_freed(r, lives, desk),
        None => false,
    }
}

/// The identifier of the record in a slot, where it may be freed, and so may what the log finds under it.
fn to_free_in<D: Disk>(
    log: &Log<D>,
    slot: &Option<LogRecord>,
    lives: &[Live],
    desk: &RecoveryDesk,
) -> Option<u128>
    requires { AreNumbered lives.now }
    ensures found { IfSome result (λ id. is_found desk.now lives.now (first_of id (open_records log.now.slots)) ≡ true) }
    ensures none { result ≡ None → is_passed desk.now lives.now (open_records log.now.slots) (option_map record_of slot.now) ≡ true }
{
    match slot {
        Some(r) if may_be_freed(r, lives, desk) && is_found(log.lookup(r.id), lives, desk) => {
            Some(r.id)
        }
        _ => None,
    }
}

/// An identifier under which the log finds a record that may be freed; `None` where there is none.
fn next_to_free<D: Disk>(log: &Log<D>, lives: &[Live], desk: &RecoveryDesk) -> Option<u128>
    requires { AreNumbered lives.now }
    ensures found { IfSome result (λ id. is_found desk.now lives.now (first_of id (open_records log.now.slots)) ≡ true) }
    ensures none { result ≡ None → NoneIsFound desk.now lives.now (open_records log.now.slots) }
{
    let slots = log.records();
    for slot in slots {
        if let Some(id) = to_free_in(log, slot, lives, desk) {
            return Some(id);
        }
    }
    None
}

/// Room for as many identifiers as the log has records.
#[tactic(auto, using(crate::proofs::Freeing::few_open))]
pub(crate) fn room<D: Disk>(alloc: Global, log: &Log<D>) -> Result<Vec<u128>, AllocError>
    ensures { IfOk result (λ v. (v.items ≡ []) × (length (open_records log.now.slots) ≤ vec_capacity v)) }
{
    Vec::with_capacity(alloc, log.records().len())
}

/// Frees a record that may be freed, and gives its identifier; `None` where the log finds none.
fn free_one<D: Disk>(
    log: &mut Log<D>,
    lives: &[Live],
    desk: &RecoveryDesk,
) -> Result<Option<u128>, LogRefusal>
    requires numbered { AreNumbered lives.now }
    requires up { IsTrue log.old.is_up }
    ensures records { OnlyFrees desk.now lives.now (open_records log.old.slots) (open_records log.new.slots) }
    ensures fewer { (id : ℕ) → result ≡ Ok (Some id) → length (open_records log.new.slots) < length (open_records log.old.slots) }
    ensures one { (id : ℕ) → result ≡ Ok (Some id) → open_records log.new.slots ≡ without_first_of id (open_records log.old.slots) }
    ensures none { result ≡ Ok None → NoneIsFound desk.now lives.now (open_records log.new.slots) }
    ensures still { result ≡ Ok None → log.new ≡ log.old }
    ensures nothing { NoneIsFound desk.now lives.now (open_records log.old.slots) → (result ≡ Ok None) × (log.new ≡ log.old) }
    ensures images { IsTrue D.honest → AllAre (D.image log.new.disk) (OnlyFrees desk.now lives.now (open_records log.old.slots)) }
    ensures left { IsTrue D.honest → AllAre (D.image log.new.disk) (OnlyFrees desk.now lives.now (open_records log.new.slots)) }
    ensures up { OnOk result (IsTrue log.new.is_up) }
    ensures stopped { OnErr result (IsFalse log.new.is_up) }
    ensures cause { OnErr result (log.old.armed ≡ None → Rose (D.faults log.old.disk) (D.faults log.new.disk)) }
    ensures unarmed { log.old.armed ≡ None → log.new.armed ≡ None }
    ensures smooth { OnOk result (D.faults log.new.disk ≡ D.faults log.old.disk) }
    ensures grows { D.faults log.old.disk ≤ D.faults log.new.disk }
{
    // A proof sees here what the images have.
    let _ = log.is_up();
    let Some(id) = next_to_free(log, lives, desk) else {
        return Ok(None);
    };
    log.free(log.life(), id)?;
    Ok(Some(id))
}

/// Frees the records that may be freed, where the log is up, and puts their identifiers to the others.
fn free_all<D: Disk>(
    log: &mut Log<D>,
    lives: &[Live],
    desk: &RecoveryDesk,
    freed: &mut Vec<u128>,
) -> Result<(), LogRefusal>
    requires numbered { AreNumbered lives.now }
    requires up { IsTrue log.old.is_up }
    requires empty { freed.old.items ≡ [] }
    requires room { length (open_records log.old.slots) ≤ vec_capacity freed.old }
    ensures frees { FreesLog D.honest D.image D.faults desk.now lives.now log.old log.new result }
    ensures listed { OnOk result (open_records log.new.slots ≡ without_each freed.new.items (open_records log.old.slots)) }
    ensures left { IsTrue D.honest → AllAre (D.image log.new.disk) (OnlyFrees desk.now lives.now (open_records log.new.slots)) }
    ensures unarmed { log.old.armed ≡ None → log.new.armed ≡ None }
{
    while let Some(id) = free_one(log, lives, desk)? {
        freed.push_reserved(id);
    }
    // A proof sees here what the images have.
    let _ = log.is_up();
    Ok(())
}

/// Frees the records that may be freed, one by one, and puts their identifiers to the others.
///
/// The log frees the record of the lowest slot with an identifier. Where that one may not be freed, one in a later slot is left.
///
/// # Errors
///
/// - [`LogRefusal::Stopped`] where the log is stopped, and finds a record that may be freed.
/// - [`LogRefusal::StoppedNow`] where the log is stopped by this call. Each image has the records that may not be freed.
pub(crate) fn free_recovered<D: Disk>(
    log: &mut Log<D>,
    lives: &[Live],
    desk: &RecoveryDesk,
    freed: &mut Vec<u128>,
) -> Result<(), LogRefusal>
    requires numbered { AreNumbered lives.now }
    requires empty { freed.old.items ≡ [] }
    requires room { length (open_records log.old.slots) ≤ vec_capacity freed.old }
    ensures frees { FreesLog D.honest D.image D.faults desk.now lives.now log.old log.new result }
    ensures listed { OnOk result (open_records log.new.slots ≡ without_each freed.new.items (open_records log.old.slots)) }
    ensures left { IsTrue D.honest → IsTrue log.old.is_up → AllAre (D.image log.new.disk) (OnlyFrees desk.now lives.now (open_records log.new.slots)) }
    ensures unarmed { log.old.armed ≡ None → log.new.armed ≡ None }
{
    if log.is_up() {
        return free_all(log, lives, desk, freed);
    }
    match next_to_free(log, lives, desk) {
        Some(_) => Err(LogRefusal::Stopped),
        None => Ok(()),
    }
}
