//! The freeing of earlier epochs' records.
ghost use Rattle.std.specs.Prelude.{◌≡◌, ◌⊎◌, ◌≤◌, ◌<◌, ◌&&◌, ℕ, length, None, true, false, IfErr, IfSome, IsNone, IsFalse, IsTrue, OnErr, OnOk};
ghost use Rattle.std.specs.Option.{option_map};
ghost use Rattle.outside.specs.Faults.{Rose};
ghost use Rattle.dtx_model.specs.Log.{first_of, record_of};
ghost use Rattle.coordinator_log.specs.Crash.{AllHold};
ghost use Rattle.coordinator_log.specs.Slots.{open_records};
ghost use Rattle.log_epochs.specs.Beginning.{AllAre, AreFreed, IsAtEpoch, is_earlier, is_passed};
ghost use Rattle.log_epochs.specs.Epochs.{epoch_of};

use crate::naming::epoch_in;
use coordinator_log::{Log, LogRefusal};
use dtx_values::LogRecord;
use outside::Disk;

/// Frees the records of the epochs before n, the log's epoch.
///
/// The log frees the record of the lowest slot with an identifier. Where that one has enlistments, a record of the epoch in a later slot is left.
pub fn free_earlier<D: Disk>(log: &mut Log<D>, n: u32) -> Result<(), LogRefusal>
    requires up { IsTrue log.old.is_up }
    requires latest { epoch_of (open_records log.old.slots) ≡ n }
    ensures records { IsAtEpoch n (open_records log.old.slots) (open_records log.new.slots) }
    ensures freed { OnOk result (AreFreed n (open_records log.new.slots)) }
    ensures images { IsTrue D.honest → AllAre (D.image log.new.disk) (IsAtEpoch n (open_records log.old.slots)) }
    ensures durable { IsTrue D.honest → OnOk result (AllHold (D.image log.new.disk) (open_records log.new.slots)) }
    ensures up { OnOk result (IsTrue log.new.is_up) }
    ensures only { IfErr result (λ e. e ≡ LogRefusal.StoppedNow) }
    ensures stopped { OnErr result (IsFalse log.new.is_up) }
    ensures cause { OnErr result (log.old.armed ≡ None → Rose (D.faults log.old.disk) (D.faults log.new.disk)) }
    ensures used { OnErr result (Rose (D.faults log.old.disk) (D.faults log.new.disk) ⊎ (log.new.armed ≡ None)) }
    ensures unarmed { log.old.armed ≡ None → log.new.armed ≡ None }
    ensures smooth { OnOk result (D.faults log.new.disk ≡ D.faults log.old.disk) }
    ensures grows { D.faults log.old.disk ≤ D.faults log.new.disk }
    ensures life { log.new.life ≡ log.old.life }
{
    while let Some(id) = earlier(log, n) {
        free_record(log, n, id)?;
    }
    // A proof sees here what the images have.
    let _ = log.is_up();
    Ok(())
}

// Frees the record of an epoch before n.
fn free_record<D: Disk>(log: &mut Log<D>, n: u32, id: u128) -> Result<(), LogRefusal>
    requires up { IsTrue log.old.is_up }
    requires latest { epoch_of (open_records log.old.slots) ≡ n }
    requires found { is_earlier n (first_of id (open_records log.old.slots)) ≡ true }
    ensures records { IsAtEpoch n (open_records log.old.slots) (open_records log.new.slots) }
    ensures fewer { OnOk result (length (open_records log.new.slots) < length (open_records log.old.slots)) }
    ensures images { IsTrue D.honest → AllAre (D.image log.new.disk) (IsAtEpoch n (open_records log.old.slots)) }
    ensures up { OnOk result (IsTrue log.new.is_up) }
    ensures only { IfErr result (λ e. e ≡ LogRefusal.StoppedNow) }
    ensures stopped { OnErr result (IsFalse log.new.is_up) }
    ensures cause { OnErr result (log.old.armed ≡ None → Rose (D.faults log.old.disk) (D.faults log.new.disk)) }
    ensures used { OnErr result (Rose (D.faults log.old.disk) (D.faults log.new.disk) ⊎ (log.new.armed ≡ None)) }
    ensures unarmed { log.old.armed ≡ None → log.new.armed ≡ None }
    ensures smooth { OnOk result (D.faults log.new.disk ≡ D.faults log.old.disk) }
    ensures grows { D.faults log.old.disk ≤ D.faults log.new.disk }
    ensures life { log.new.life ≡ log.old.life }
{
    log.free(log.life(), id)
}

// The identifier of an epoch before n whose record the log finds; `None` where it finds none.
fn earlier<D: Disk>(log: &Log<D>, n: u32) -> Option<u128>
    ensures found { IfSome result (λ id. is_earlier n (first_of id (open_records log.now.slots)) ≡ true) }
    ensures none { result ≡ None → (id : ℕ) → is_earlier n (first_of id (open_records log.now.slots)) ≡ false }
{
    let slots = log.records();
    for slot in slots {
        if let Some(id) = earlier_in(log, slot, n) {
            return Some(id);
        }
    }
    None
}

// The identifier of the record in a slot, where it is of an epoch before n and the log finds one under it.
fn earlier_in<D: Disk>(log: &Log<D>, slot: &Option<LogRecord>, n: u32) -> Option<u128>
    ensures found { IfSome result (λ id. is_earlier n (first_of id (open_records log.now.slots)) ≡ true) }
    ensures none { result ≡ None → is_passed n (open_records log.now.slots) (option_map record_of slot.now) ≡ true }
{
    match slot {
        Some(r) if is_earlier(Some(r), n) && is_earlier(log.lookup(r.id), n) => Some(r.id),
        _ => None,
    }
}

// Whether a record was found, of an epoch before n.
fn is_earlier(found: Option<&LogRecord>, n: u32) -> bool
    ensures { result ≡ is_earlier n (option_map (λ r. record_of r.now) found.entry) }
{
    match found {
        Some(r) => epoch_in(r).is_some_and(|m| m < n),
        None => false,
    }
}
