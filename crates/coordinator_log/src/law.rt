//! The laws of the log, as contracts of functions with an empty body, so that what calls one has its law.
ghost use Rattle.std.specs.Prelude.{◌≡◌, ◌⊎◌, ℕ, length, true, IsTrue, Ok, OnOk, Result};
ghost use Rattle.dtx_values.specs.declared.record.LogRecord.{LogRecord};
ghost use Rattle.dtx_model.specs.Log.{CommitRecord, record_at, record_of, without_first_of};
ghost use Rattle.dtx_values.specs.RecoveryInfo.{is_id};
ghost use Rattle.coordinator_log.specs.Crash.{Appends, Frees, IsOpened, with_record};
ghost use Rattle.coordinator_log.specs.Slots.{open_records};
ghost use Rattle.coordinator_log.specs.Spelling.{record_bytes};
ghost use Rattle.coordinator_log.specs.State.{LogState};
ghost use Rattle.coordinator_log.specs.declared.refusal.LogRefusal.{LogRefusal};

use outside::Disk;
use slotted::RECORD_BYTES;

/// The law of the log: a crash leaves whole records, whatever breaks an append or a free off.
///
/// Let an append of a record be made on a log that is up, over a disk that is honest, and let it answer what it may: done, broken off by a fault at any of its device calls, or
/// by an armed stop. Then let a crash leave any image that it can. The log that is opened from this image has the records as they were, or those with the new one, and where the
/// append answered Ok, those with the new one. Of a free the same holds, with the records as they were, or those without the one that was freed.
///
/// [`Log::append`](crate::Log::append) and [`Log::free`](crate::Log::free) ensure `Appends` and `Frees`, [`Log::from_disk`](crate::Log::from_disk) and
/// [`Log::reopen`](crate::Log::reopen) ensure `IsOpened`, and [`Disk::crash`] leaves one of the images. A caller has the law by calling this function, which does nothing.
pub fn crashes_leave_whole_records<D: Disk>()
    ensures append { IsTrue D.honest → (r : CommitRecord) (old new : LogState D) (result : Result ℕ LogRefusal) → Appends D.image r old new result
        → (crashed : D) → D.image new.disk (D.seen crashed) → (opened : LogState D) → IsOpened D.seen crashed opened
        → ((open_records opened.slots ≡ open_records old.slots) ⊎ (open_records opened.slots ≡ with_record r old.slots))
        × OnOk result (open_records opened.slots ≡ with_record r old.slots) }
    ensures free { IsTrue D.honest → (id : ℕ) (old new : LogState D) (result : Result (Unit {0}) LogRefusal) → Frees D.image id old new result
        → (crashed : D) → D.image new.disk (D.seen crashed) → (opened : LogState D) → IsOpened D.seen crashed opened
        → ((open_records opened.slots ≡ open_records old.slots) ⊎ (open_records opened.slots ≡ without_first_of id (open_records old.slots)))
        × OnOk result (open_records opened.slots ≡ without_first_of id (open_records old.slots)) }
{}

/// What was written of a record is read as this record. A law: the body is empty, and who calls this has the law in its proof.
pub fn records_are_read_again()
    ensures again { (r : LogRecord) → is_id r.id ≡ true → record_at (record_bytes (record_of r)) ≡ Ok (record_of r) }
    ensures long { (r : LogRecord) → length (record_bytes (record_of r)) ≡ RECORD_BYTES }
{}
