//! Reads a log from a disk.
ghost use Rattle.std.specs.Prelude.{◌≡◌, ◌⊎◌, ◌≤◌, ◌<◌, ℕ, length, map, take, IfErr, OnOk, IsErrOf, IsTrue, Err, Ok, Option};
ghost use Rattle.std.specs.Option.{option_map};
ghost use Rattle.outside.specs.Disk.{AreWithin};
ghost use Rattle.outside.specs.Faults.{Rose};
ghost use Rattle.dtx_model.specs.Log.{head, log_has, record_at, record_of, slots_of};
ghost use Rattle.slotted.specs.Reading.{IsReadAs};
ghost use Rattle.slotted.specs.Slotted.{gated};
ghost use Rattle.coordinator_log.specs.Slots.{formed};

use crate::layout::{LETTERS, LOG_BYTES, SLOTS};
use crate::reading::read_record;
use crate::refusal::LogRefusal;
use crate::slots::Slots;
use dtx_values::LogRecord;
use outside::Disk;
use slotted::{HEAD_BYTES, OPEN, SLOT_BYTES, same, slot_at, written_head};

// The record of a slot, or none where its gate is closed; or the first place in it of another form.
fn read_slot(b: &[u8]) -> Result<Option<LogRecord>, usize>
    requires { length b.now ≡ SLOT_BYTES }
    ensures slot { IsReadAs (option_map record_of) result (gated record_at b.now) }
    ensures place { IfErr result (λ p. p < SLOT_BYTES) }
{
    if b[0] != OPEN {
        return Ok(None);
    }
    let (_, body) = b.split_at(1);
    match read_record(body) {
        Ok(r) => Ok(Some(r)),
        Err(p) => Err(p),
    }
}

/// The bytes that a log begins with.
#[tactic(auto, unfolding(dtx_model::specs::Log::head))]
pub fn log_head() -> [u8; HEAD_BYTES]
    ensures { result ≡ head }
{
    written_head(LETTERS)
}

/// Reads the head and each slot of a log.
///
/// # Errors
///
/// - [`LogRefusal::Fault`], only where the disk's count of faults rose.
/// - [`LogRefusal::NotALog`] with the first place of another form.
pub fn read_all<D: Disk>(disk: &mut D, slots: &mut Slots) -> Result<(), LogRefusal>
    requires { LOG_BYTES ≤ D.size disk.old }
    ensures seen { IsTrue D.honest → D.seen disk.new ≡ D.seen disk.old }
    ensures images { IsTrue D.honest → AreWithin (D.image disk.old) (D.image disk.new) }
    ensures same { IsTrue D.obeys → D.images disk.new ≡ D.images disk.old }
    ensures at_head { IsTrue D.honest → OnOk result (take HEAD_BYTES (D.seen disk.old) ≡ head) }
    ensures slots { IsTrue D.honest → OnOk result (slots_of (D.seen disk.old) ≡ map formed slots.new) }
    ensures bad { IsTrue D.honest → (p : ℕ) → IsErrOf result (LogRefusal.NotALog p) → log_has (D.seen disk.old) ≡ Err p }
    ensures fault { IsErrOf result LogRefusal.Fault → Rose (D.faults disk.old) (D.faults disk.new) }
    ensures only { IfErr result (λ e. (e ≡ LogRefusal.Fault) ⊎ ((p : ℕ) × (e ≡ LogRefusal.NotALog p))) }
    ensures size { D.size disk.new ≡ D.size disk.old }
    ensures smooth { OnOk result (D.faults disk.new ≡ D.faults disk.old) }
    ensures grows { D.faults disk.old ≤ D.faults disk.new }
{
    let mut block = [0; SLOT_BYTES];
    let wanted = log_head();
    disk.read(0, &mut block)?;
    match same(&wanted, &block) {
        Ok(_) => (),
        Err(p) => return Err(LogRefusal::NotALog(p as u64)),
    }
    for k in 0..SLOTS {
        let at = slot_at(k);
        disk.read(at, &mut block)?;
        match read_slot(&block) {
            Ok(s) => slots.set(k, s),
            Err(p) => return Err(LogRefusal::NotALog(at + p as u64)),
        }
    }
    Ok(())
}
