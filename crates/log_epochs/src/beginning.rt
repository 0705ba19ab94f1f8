//! The beginning of an epoch.
ghost use Rattle.std.specs.Prelude.{◌≡◌, ◌≢◌, ◌⊎◌, ◌↔◌, ◌≤◌, ◌<◌, ◌+◌, ◌-◌, ◌^◌, ℕ, None, IfErr, IfOk, IsErrOf, IsFalse, IsTrue, OnOk, filter};
ghost use Rattle.outside.specs.Faults.{Rose};
ghost use Rattle.dtx_model.specs.Log.{first_of, is_record_of};
ghost use Rattle.coordinator_log.specs.Crash.{AllHold};
ghost use Rattle.coordinator_log.specs.Slots.{lowest_closed, open_records};
ghost use Rattle.log_epochs.specs.Beginning.{AllAre, AreFreed, IsAtEpoch, IsSameOrNext};
ghost use Rattle.log_epochs.specs.Epochs.{commits_of, epoch_of, identifier_of_epoch, is_epoch};

use crate::finding::epoch;
use crate::freeing::free_earlier;
use crate::naming::identifier_of_epoch;
use coordinator_log::{Log, LogRefusal};
use dtx_values::LogRecord;
use outside::Disk;

/// The identifier that the epoch after the last would have: there is no such epoch.
const PAST: u128 = (1 << 64) + (1 << 48);

/// Begins the next epoch of a log, and gives it: appends its record, and then frees the records of the earlier ones. It takes no memory, and the log's life stays.
///
/// The records of transactions stay as they are, whatever it answers. A crash at any moment leaves them too, with the epoch of before or the next one, and after Ok with the next
/// one. Where a stop comes between the new record and the freeing of an old one, the log has both, and the greater counts; the next beginning frees both.
///
/// The log finds the record of the lowest slot with an identifier. Where that one has enlistments, it is no epoch's, and a record of the epoch in a later slot is left.
///
/// # Errors
///
/// - [`LogRefusal::Stopped`] exactly where the log is stopped.
/// - [`LogRefusal::NoSuch`] exactly where the log's epoch is the last, 2^32 - 1: epochs end there. It names the identifier that the next would have.
/// - [`LogRefusal::Full`] exactly where the gates of all 1,024 slots are open. Nothing is freed then.
/// - [`LogRefusal::StoppedNow`] where the armed stop was reached in this call, and else only where the disk's count of faults rose. The log is then stopped.
///
/// The first three change nothing.
pub fn begin_epoch<D: Disk>(log: &mut Log<D>) -> Result<u32, LogRefusal>
    // The epoch that begins, and what is left of the earlier ones.
    ensures next { IfOk result (λ n. n ≡ epoch_of (open_records log.old.slots) + 1) }
    ensures latest { IfOk result (λ n. epoch_of (open_records log.new.slots) ≡ n) }
    ensures freed { IfOk result (λ n. AreFreed n (open_records log.new.slots)) }

    // Whatever it answers, transactions keep their records, and the epoch is that of before or the next one.
    ensures commits { commits_of (open_records log.new.slots) ≡ commits_of (open_records log.old.slots) }
    ensures others { (id : ℕ) → IsFalse (is_epoch id)
        → filter (is_record_of id) (open_records log.new.slots) ≡ filter (is_record_of id) (open_records log.old.slots) }
    ensures found { (id : ℕ) → IsFalse (is_epoch id) → first_of id (open_records log.new.slots) ≡ first_of id (open_records log.old.slots) }
    ensures either { (epoch_of (open_records log.new.slots) ≡ epoch_of (open_records log.old.slots))
        ⊎ (epoch_of (open_records log.new.slots) ≡ epoch_of (open_records log.old.slots) + 1) }

    // What a crash leaves.
    ensures images { IsTrue D.honest → IsTrue log.old.is_up → AllAre (D.image log.new.disk) (IsSameOrNext (open_records log.old.slots)) }
    ensures durable { IsTrue D.honest → OnOk result (AllHold (D.image log.new.disk) (open_records log.new.slots)) }

    // Each refusal exactly where.
    ensures stopped { IsErrOf result LogRefusal.Stopped ↔ IsFalse log.old.is_up }
    ensures last { IsErrOf result (LogRefusal.NoSuch (identifier_of_epoch (2 ^ 32))) ↔ (IsTrue log.old.is_up × (epoch_of (open_records log.old.slots) ≡ 2 ^ 32 - 1)) }
    ensures full { IsErrOf result (LogRefusal.Full 1024)
        ↔ (IsTrue log.old.is_up × (epoch_of (open_records log.old.slots) < 2 ^ 32 - 1) × (lowest_closed log.old.slots ≡ 1024)) }
    ensures only { IfErr result (λ e. (e ≡ LogRefusal.Stopped) ⊎ ((e ≡ LogRefusal.NoSuch (identifier_of_epoch (2 ^ 32))) ⊎ ((e ≡ LogRefusal.Full 1024) ⊎ (e ≡ LogRefusal.StoppedNow)))) }
    ensures unchanged { IfErr result (λ e. e ≢ LogRefusal.StoppedNow → log.new ≡ log.old) }
    ensures stopped_now { IsErrOf result LogRefusal.StoppedNow → IsFalse log.new.is_up }
    ensures cause { IsErrOf result LogRefusal.StoppedNow → log.old.armed ≡ None → Rose (D.faults log.old.disk) (D.faults log.new.disk) }
    ensures used { IsErrOf result LogRefusal.StoppedNow → Rose (D.faults log.old.disk) (D.faults log.new.disk) ⊎ (log.new.armed ≡ None) }

    // The log and its disk afterwards.
    ensures up { OnOk result (IsTrue log.new.is_up) }
    ensures unarmed { log.old.armed ≡ None → log.new.armed ≡ None }
    ensures smooth { OnOk result (D.faults log.new.disk ≡ D.faults log.old.disk) }
    ensures grows { D.faults log.old.disk ≤ D.faults log.new.disk }
    ensures life { log.new.life ≡ log.old.life }
{
    if !log.is_up() {
        return Err(LogRefusal::Stopped);
    }
    let Some(n) = epoch(log).checked_add(1) else {
        return Err(LogRefusal::NoSuch(PAST));
    };
    append_epoch(log, n)?;
    free_earlier(log, n)?;
    Ok(n)
}

// Appends the record of epoch n, the one after the log's.
fn append_epoch<D: Disk>(log: &mut Log<D>, n: u32) -> Result<(), LogRefusal>
    requires up { IsTrue log.old.is_up }
    requires next { n ≡ epoch_of (open_records log.old.slots) + 1 }
    ensures records { OnOk result (IsAtEpoch n (open_records log.old.slots) (open_records log.new.slots)) }
    ensures images { IsTrue D.honest → AllAre (D.image log.new.disk) (IsSameOrNext (open_records log.old.slots)) }
    ensures full { IsErrOf result (LogRefusal.Full 1024) ↔ (lowest_closed log.old.slots ≡ 1024) }
    ensures only { IfErr result (λ e. (e ≡ LogRefusal.Full 1024) ⊎ (e ≡ LogRefusal.StoppedNow)) }
    ensures unchanged { IfErr result (λ e. e ≢ LogRefusal.StoppedNow → log.new ≡ log.old) }
    ensures stopped_now { IsErrOf result LogRefusal.StoppedNow → IsFalse log.new.is_up × (log.new.slots ≡ log.old.slots) }
    ensures cause { IsErrOf result LogRefusal.StoppedNow → log.old.armed ≡ None → Rose (D.faults log.old.disk) (D.faults log.new.disk) }
    ensures used { IsErrOf result LogRefusal.StoppedNow → Rose (D.faults log.old.disk) (D.faults log.new.disk) ⊎ (log.new.armed ≡ None) }
    ensures up { OnOk result (IsTrue log.new.is_up) }
    ensures unarmed { log.old.armed ≡ None → log.new.armed ≡ None }
    ensures smooth { OnOk result (D.faults log.new.disk ≡ D.faults log.old.disk) }
    ensures grows { D.faults log.old.disk ≤ D.faults log.new.disk }
    ensures life { log.new.life ≡ log.old.life }
{
    let record = LogRecord::new(identifier_of_epoch(n));
    log.append(log.life(), &record)?;
    Ok(())
}
