//! The log.
ghost use Rattle.std.specs.Prelude.{◌≡◌, ◌≢◌, ◌⊎◌, ◌↔◌, ◌≤◌, ◌<◌, ◌+◌, ◌-◌, ◌^◌, List, [], ℕ, length, true, IfOk, IfErr, IsOk, OnOk, is_ok, if◌then◌else◌, Err, Ok, IsErrOf, IsTrue, IsFalse, None, Some, false, map};
ghost use Rattle.std.specs.List.{filter_map, insert};
ghost use Rattle.std.specs.Option.{option_map};
ghost use Rattle.outside.specs.Disk.{AreWithin};
ghost use Rattle.outside.specs.Faults.{Rose};
ghost use Rattle.outside.specs.Images.{AreSame};
ghost use Rattle.dtx_model.specs.Log.{first_of, log_has, record_of, slots_of, without_first_of};
ghost use Rattle.dtx_values.specs.RecoveryInfo.{is_id};
ghost use Rattle.coordinator_log.specs.Crash.{AllHold, AllHoldEither, Appends, Frees, IsLeftOf, IsOpened, with_record};
ghost use Rattle.coordinator_log.specs.Slots.{Agrees, formed, lowest_closed, open_records, with_closed};
ghost use Rattle.coordinator_log.specs.Stop.{BreaksOff, after_calls, is_done, is_found_after_append, is_found_after_free, stop_in};
ghost use Rattle.coordinator_log.specs.declared.stop.ArmedStop.{ArmedStop};

use crate::device::{clear, store};
use crate::layout::{LOG_BYTES, SLOTS};
use crate::opening::{log_head, read_all};
use crate::refusal::LogRefusal;
use crate::slots::Slots;
use crate::stop::ArmedStop;
use dtx_values::LogRecord;
use outside::{Disk, Image, Relay};
use slotted::{blank, zeros};
use std::alloc::Global;
use std::marker::Model;

/// The log over a disk of at least [`LOG_BYTES`] bytes.
///
/// A clause sees it as a `LogState`: its disk, the records of its slots, whether it is up, its life, and the stop that is armed.
///
/// It keeps its slots in memory. While it is up, they are those on the disk, and each image that a crash can leave has the same records. A log counts its lives: it begins
/// with life 0, and each reopening raises the life, so that who speaks to it of an earlier life is refused. After its making no call takes memory.
#[derive(Drop)]
pub struct Log<D: Disk> {
    disk: D,
    slots: Slots,
    up: bool,
    life: u64,
    armed: Option<ArmedStop>,
}

impl<D: Disk> Model for Log<D> {
    ghost use Rattle.coordinator_log.specs.State.{IsKept, LogState};

    ghost Value = { LogState D };

    ghost view = { λ l. record { disk = l.disk; slots = l.slots; is_up = l.up; life = l.life; armed = l.armed } };

    ghost invariant = { λ l. IsKept D.honest D.obeys (D.seen l.disk) (D.image l.disk) (D.images l.disk) (D.size l.disk) l.slots l.up };
}

impl<D: Disk> Log<D> {
    /// Makes the disk an empty log: after Ok each image that a crash can leave is one. The log is up, its life is 0, and no stop is armed.
    ///
    /// # Errors
    ///
    /// The disk is handed back with [`LogRefusal::Fault`], only where its count of faults rose, or with [`LogRefusal::Memory`], and then it wasn't touched.
    pub fn format(alloc: Global, disk: D) -> Result<Log<D>, (LogRefusal, D)>
        requires { LOG_BYTES ≤ D.size disk }
        ensures up { IfOk result (λ l. IsTrue l.is_up) }
        ensures life { IfOk result (λ l. l.life ≡ 0) }
        ensures unarmed { IfOk result (λ l. l.armed ≡ None) }
        ensures empty { IfOk result (λ l. open_records l.slots ≡ []) }
        ensures images { IsTrue D.honest → IfOk result (λ l. AllHold (D.image l.disk) []) }
        ensures smooth { IfOk result (λ l. D.faults l.disk ≡ D.faults disk) }
        ensures only { IfErr result (λ e. (e.0 ≡ LogRefusal.Fault) ⊎ (e.0 ≡ LogRefusal.Memory)) }
        ensures fault { IfErr result (λ e. e.0 ≡ LogRefusal.Fault → Rose (D.faults disk) (D.faults e.1)) }
        ensures memory { IfErr result (λ e. e.0 ≡ LogRefusal.Memory → e.1 ≡ disk) }
        ensures size { IfErr result (λ e. D.size e.1 ≡ D.size disk) }
    {
        let mut disk = disk;
        let slots = match Slots::new(alloc) {
            Ok(slots) => slots,
            Err(_) => return Err((LogRefusal::Memory, disk)),
        };
        let blanks = match zeros(alloc, LOG_BYTES as usize) {
            Ok(blanks) => blanks,
            Err(_) => return Err((LogRefusal::Memory, disk)),
        };
        match blank(&mut disk, &log_head(), &blanks) {
            Ok(()) => Ok(Log::over(disk, slots)),
            Err(_) => Err((LogRefusal::Fault, disk)),
        }
    }

    /// The log that is on the disk. It is up, its life is 0, and no stop is armed. It syncs before it reads: nothing that was read before is safe.
    ///
    /// # Errors
    ///
    /// The disk is handed back with [`LogRefusal::Fault`], only where its count of faults rose; with [`LogRefusal::NotALog`] exactly where what was read is no log, and the
    /// first place of another form; or with [`LogRefusal::Memory`], and then it wasn't touched.
    pub fn from_disk(alloc: Global, disk: D) -> Result<Log<D>, (LogRefusal, D)>
        requires { LOG_BYTES ≤ D.size disk }
        ensures up { IfOk result (λ l. IsTrue l.is_up) }
        ensures life { IfOk result (λ l. l.life ≡ 0) }
        ensures unarmed { IfOk result (λ l. l.armed ≡ None) }
        ensures records { IsTrue D.honest → IfOk result (λ l. IsOpened D.seen disk l) }
        ensures images { IsTrue D.honest → IfOk result (λ l. AllHold (D.image l.disk) (open_records l.slots)) }
        ensures slots { IsTrue D.honest → IfOk result (λ l. slots_of (D.seen disk) ≡ map formed l.slots) }
        ensures seen { IsTrue D.honest → IfOk result (λ l. D.seen l.disk ≡ D.seen disk) }
        ensures within { IsTrue D.honest → IfOk result (λ l. AreWithin (D.image disk) (D.image l.disk)) }
        ensures same_size { IfOk result (λ l. D.size l.disk ≡ D.size disk) }
        ensures smooth { IfOk result (λ l. D.faults l.disk ≡ D.faults disk) }
        ensures grows { IfErr result (λ e. D.faults disk ≤ D.faults e.1) }
        ensures only { IfErr result (λ e. (e.0 ≡ LogRefusal.Fault) ⊎ ((e.0 ≡ LogRefusal.Memory) ⊎ ((p : ℕ) × (e.0 ≡ LogRefusal.NotALog p)))) }
        ensures fault { IfErr result (λ e. e.0 ≡ LogRefusal.Fault → Rose (D.faults disk) (D.faults e.1)) }
        ensures not_a_log { IsTrue D.honest → IfErr result (λ e. (p : ℕ) → e.0 ≡ LogRefusal.NotALog p → log_has (D.seen disk) ≡ Err p) }
        ensures memory { IfErr result (λ e. e.0 ≡ LogRefusal.Memory → e.1 ≡ disk) }
        ensures handed_back { IsTrue D.honest → IfErr result (λ e. (D.seen e.1 ≡ D.seen disk) × AreWithin (D.image disk) (D.image e.1)) }
        ensures size { IfErr result (λ e. D.size e.1 ≡ D.size disk) }
    {
        let mut disk = disk;
        let mut slots = match Slots::new(alloc) {
            Ok(slots) => slots,
            Err(_) => return Err((LogRefusal::Memory, disk)),
        };
        match disk.sync() {
            Ok(()) => (),
            Err(_) => return Err((LogRefusal::Fault, disk)),
        }
        match read_all(&mut disk, &mut slots) {
            Ok(()) => Ok(Log::over(disk, slots)),
            Err(e) => Err((e, disk)),
        }
    }

    /// Writes a record into the lowest slot whose gate is closed, and gives the slot's number: the record, a sync, the gate, a sync. After that every image has the record.
    /// Whatever the call answers, a crash leaves the records as they were, or those with this one:
    /// [`crashes_leave_whole_records`](crate::crashes_leave_whole_records). The record's identifier is one; [`is_identifier`](crate::is_identifier) tests it.
    ///
    /// Over a disk that obeys, what is found after a reached stop is told by the stop: with `Keep` at the third or the fourth of the four calls the record is there, and else it isn't.
    ///
    /// # Errors
    ///
    /// - [`LogRefusal::Stopped`] exactly where the log is stopped or `life` isn't its life.
    /// - [`LogRefusal::Full`] exactly where the gates of all 1,024 slots are open.
    /// - [`LogRefusal::StoppedNow`] where the armed stop was reached in this call, and else only where the disk's count of faults rose. Each image is then as before, or has
    ///   the record.
    ///
    /// The first two change nothing.
    pub fn append(&mut self, life: u64, r: &LogRecord) -> Result<u16, LogRefusal>
        requires { is_id r.now.id ≡ true }

        // What is appended, and what a crash leaves of it.
        ensures place { IfOk result (λ k. k ≡ lowest_closed self.old.slots) }
        ensures records { IfOk result (λ k. open_records self.new.slots ≡ insert (open_records self.old.slots) k (record_of r.now)) }
        ensures durable { IsTrue D.honest → OnOk result (AllHold (D.image self.new.disk) (open_records self.new.slots)) }
        ensures up { OnOk result (IsTrue self.new.is_up) }
        ensures images { IsTrue D.honest → IsTrue self.old.is_up → Appends D.image (record_of r.now) self.old self.new result }

        // Each refusal exactly where.
        ensures stopped { IsErrOf result LogRefusal.Stopped ↔ (IsFalse self.old.is_up ⊎ (life ≢ self.old.life)) }
        ensures full { IsErrOf result (LogRefusal.Full SLOTS) ↔ (IsTrue self.old.is_up × (life ≡ self.old.life) × (lowest_closed self.old.slots ≡ SLOTS)) }
        ensures only { IfErr result (λ e. (e ≡ LogRefusal.Stopped) ⊎ ((e ≡ LogRefusal.Full SLOTS) ⊎ (e ≡ LogRefusal.StoppedNow))) }
        ensures unchanged { IfErr result (λ e. e ≢ LogRefusal.StoppedNow → self.new ≡ self.old) }
        ensures stopped_now { IsErrOf result LogRefusal.StoppedNow → IsFalse self.new.is_up × (self.new.slots ≡ self.old.slots) }
        ensures reached { IsTrue self.old.is_up → life ≡ self.old.life → lowest_closed self.old.slots < SLOTS → stop_in 4 self.old.armed ≢ None
            → IsErrOf result LogRefusal.StoppedNow }
        ensures cause { IsErrOf result LogRefusal.StoppedNow → stop_in 4 self.old.armed ≡ None → Rose (D.faults self.old.disk) (D.faults self.new.disk) }

        // What is armed afterwards: four calls count, or those up to the one that broke the append off. A stop that was reached is armed no more, and has crashed the disk.
        ensures counted { OnOk result ((stop_in 4 self.old.armed ≡ None) × (self.new.armed ≡ after_calls 4 self.old.armed)) }
        ensures broken { IsErrOf result LogRefusal.StoppedNow → BreaksOff 4 self.old.armed self.new.armed (Rose (D.faults self.old.disk) (D.faults self.new.disk)) }
        ensures used { IsErrOf result LogRefusal.StoppedNow → Rose (D.faults self.old.disk) (D.faults self.new.disk) ⊎ (self.new.armed ≡ None) }
        ensures image { (s t : ArmedStop) → self.old.armed ≡ Some s → self.new.armed ≡ Some t → t.image ≡ s.image }
        ensures crashed { IsTrue D.honest → IsTrue self.old.is_up → (s : ArmedStop) → self.old.armed ≡ Some s → self.new.armed ≡ None
            → IsLeftOf (D.leaves s.image) D.seen (Rose (D.faults self.old.disk) (D.faults self.new.disk))
            (if is_done 3 s then with_record (record_of r.now) self.old.slots else open_records self.old.slots) self.new.disk }
        ensures kept { IsTrue D.honest → IsTrue self.old.is_up → (s : ArmedStop) → self.old.armed ≡ Some s → self.new.armed ≡ None → s.passes ≡ 3 → s.image ≡ Image.Keep
            → Rose (D.faults self.old.disk) (D.faults self.new.disk) ⊎ AllHold (D.image self.new.disk) (with_record (record_of r.now) self.old.slots) }
        ensures found { IsTrue D.obeys → IsTrue self.old.is_up → (s : ArmedStop) → self.old.armed ≡ Some s → self.new.armed ≡ None
            → Rose (D.faults self.old.disk) (D.faults self.new.disk)
            ⊎ (log_has (D.seen self.new.disk) ≡ Ok (if is_found_after_append s.image s.passes then with_record (record_of r.now) self.old.slots else open_records self.old.slots)) }
        ensures smooth { OnOk result (D.faults self.new.disk ≡ D.faults self.old.disk) }
        ensures grows { D.faults self.old.disk ≤ D.faults self.new.disk }
        ensures life { self.new.life ≡ self.old.life }
    {
        if !self.up || life != self.life {
            return Err(LogRefusal::Stopped);
        }
        let Some(k) = self.slots.lowest_closed() else {
            return Err(LogRefusal::Full(SLOTS as u16));
        };
        self.up = false;
        store(&mut self.disk, &mut self.armed, k, r)?;
        self.slots.set(k, Some(*r));
        self.up = true;
        Ok(k as u16)
    }

    /// Frees the record of the lowest slot with this identifier: closes the gate and syncs. After that every image has the same records without it. Whatever the call answers, a
    /// crash leaves the records as they were, or those without this one: [`crashes_leave_whole_records`](crate::crashes_leave_whole_records).
    ///
    /// Over a disk that obeys, what is found after a reached stop is told by the stop: with `Lose`, at either of the two calls, the record is there, and else it isn't.
    ///
    /// # Errors
    ///
    /// - [`LogRefusal::Stopped`] exactly where the log is stopped or `life` isn't its life.
    /// - [`LogRefusal::NoSuch`] exactly where no record has the identifier.
    /// - [`LogRefusal::StoppedNow`] where the armed stop was reached in this call, and else only where the disk's count of faults rose. Each image is then as before, or
    ///   without the record.
    ///
    /// The first two change nothing.
    pub fn free(&mut self, life: u64, id: u128) -> Result<(), LogRefusal>
        // What is freed, and what a crash leaves of it.
        ensures records { OnOk result (open_records self.new.slots ≡ without_first_of id (open_records self.old.slots)) }
        ensures durable { IsTrue D.honest → OnOk result (AllHold (D.image self.new.disk) (open_records self.new.slots)) }
        ensures up { OnOk result (IsTrue self.new.is_up) }
        ensures images { IsTrue D.honest → IsTrue self.old.is_up → Frees D.image id self.old self.new result }

        // Each refusal exactly where.
        ensures stopped { IsErrOf result LogRefusal.Stopped ↔ (IsFalse self.old.is_up ⊎ (life ≢ self.old.life)) }
        ensures none { IsErrOf result (LogRefusal.NoSuch id) ↔ (IsTrue self.old.is_up × (life ≡ self.old.life) × (first_of id (open_records self.old.slots) ≡ None)) }
        ensures only { IfErr result (λ e. (e ≡ LogRefusal.Stopped) ⊎ ((e ≡ LogRefusal.NoSuch id) ⊎ (e ≡ LogRefusal.StoppedNow))) }
        ensures unchanged { IfErr result (λ e. e ≢ LogRefusal.StoppedNow → self.new ≡ self.old) }
        ensures stopped_now { IsErrOf result LogRefusal.StoppedNow → IsFalse self.new.is_up × (self.new.slots ≡ self.old.slots) }
        ensures reached { IsTrue self.old.is_up → life ≡ self.old.life → (first_of id (open_records self.old.slots) ≢ None) → stop_in 2 self.old.armed ≢ None
            → IsErrOf result LogRefusal.StoppedNow }
        ensures cause { IsErrOf result LogRefusal.StoppedNow → stop_in 2 self.old.armed ≡ None → Rose (D.faults self.old.disk) (D.faults self.new.disk) }

        // What is armed afterwards: two calls count, or those up to the one that broke the free off. A stop that was reached is armed no more, and has crashed the disk.
        ensures counted { OnOk result ((stop_in 2 self.old.armed ≡ None) × (self.new.armed ≡ after_calls 2 self.old.armed)) }
        ensures broken { IsErrOf result LogRefusal.StoppedNow → BreaksOff 2 self.old.armed self.new.armed (Rose (D.faults self.old.disk) (D.faults self.new.disk)) }
        ensures used { IsErrOf result LogRefusal.StoppedNow → Rose (D.faults self.old.disk) (D.faults self.new.disk) ⊎ (self.new.armed ≡ None) }
        ensures image { (s t : ArmedStop) → self.old.armed ≡ Some s → self.new.armed ≡ Some t → t.image ≡ s.image }
        ensures crashed { IsTrue D.honest → IsTrue self.old.is_up → (s : ArmedStop) → self.old.armed ≡ Some s → self.new.armed ≡ None
            → IsLeftOf (D.leaves s.image) D.seen (Rose (D.faults self.old.disk) (D.faults self.new.disk))
            (if is_done 1 s then without_first_of id (open_records self.old.slots) else open_records self.old.slots) self.new.disk }
        ensures kept { IsTrue D.honest → IsTrue self.old.is_up → (s : ArmedStop) → self.old.armed ≡ Some s → self.new.armed ≡ None → s.passes ≡ 1 → s.image ≡ Image.Keep
            → Rose (D.faults self.old.disk) (D.faults self.new.disk) ⊎ AllHold (D.image self.new.disk) (without_first_of id (open_records self.old.slots)) }
        ensures found { IsTrue D.obeys → IsTrue self.old.is_up → (s : ArmedStop) → self.old.armed ≡ Some s → self.new.armed ≡ None
            → Rose (D.faults self.old.disk) (D.faults self.new.disk)
            ⊎ (log_has (D.seen self.new.disk) ≡ Ok (if is_found_after_free s.image then open_records self.old.slots else without_first_of id (open_records self.old.slots))) }
        ensures smooth { OnOk result (D.faults self.new.disk ≡ D.faults self.old.disk) }
        ensures grows { D.faults self.old.disk ≤ D.faults self.new.disk }
        ensures life { self.new.life ≡ self.old.life }
    {
        if !self.up || life != self.life {
            return Err(LogRefusal::Stopped);
        }
        let Some(k) = self.slots.found(id) else {
            return Err(LogRefusal::NoSuch(id));
        };
        self.up = false;
        clear(&mut self.disk, &mut self.armed, k)?;
        self.slots.set(k, None);
        self.up = true;
        Ok(())
    }

    /// Opens the log again: syncs, reads the head and each slot, and raises the life. It gives the number of records. An armed stop stays armed.
    ///
    /// The records that it finds are those of one of the images that the disk had before it: what a read gave then is one of them.
    ///
    /// # Errors
    ///
    /// The log is then stopped, and its life stays.
    ///
    /// - [`LogRefusal::Fault`], only where the disk's count of faults rose.
    /// - [`LogRefusal::NotALog`], never on a disk that is honest.
    pub fn reopen(&mut self) -> Result<u16, LogRefusal>
        requires { self.old.life < 2 ^ 64 - 1 }
        ensures records { IsTrue D.honest → OnOk result (IsOpened D.seen self.old.disk self.new) }
        ensures images { IsTrue D.honest → OnOk result (AllHold (D.image self.new.disk) (open_records self.new.slots)) }
        ensures within { IsTrue D.honest → AreWithin (D.image self.old.disk) (D.image self.new.disk) }
        ensures among { IsTrue D.honest → D.image self.old.disk (D.seen self.old.disk) }
        ensures count { IfOk result (λ n. n ≡ length (open_records self.new.slots)) }
        ensures up { IsTrue self.new.is_up ↔ IsOk result }
        ensures life { self.new.life ≡ (if is_ok result then self.old.life + 1 else self.old.life) }
        ensures only { IfErr result (λ e. (e ≡ LogRefusal.Fault) ⊎ ((p : ℕ) × (e ≡ LogRefusal.NotALog p))) }
        ensures fault { IsErrOf result LogRefusal.Fault → Rose (D.faults self.old.disk) (D.faults self.new.disk) }
        ensures never { IsTrue D.honest → (p : ℕ) → result ≢ Err (LogRefusal.NotALog p) }
        ensures armed { self.new.armed ≡ self.old.armed }
        ensures smooth { OnOk result (D.faults self.new.disk ≡ D.faults self.old.disk) }
        ensures grows { D.faults self.old.disk ≤ D.faults self.new.disk }
    {
        // A proof sees here that what a read gives is one of the disk's images.
        let _ = self.disk.len();
        self.up = false;
        self.disk.sync()?;
        read_all(&mut self.disk, &mut self.slots)?;
        self.up = true;
        self.life += 1;
        Ok(self.slots.count())
    }

    /// The record of the lowest slot with this identifier, which is also the one that [`Log::free`] frees. While the log is up, it looks at the records of the disk.
    pub fn lookup(&self, id: u128) -> Option<&LogRecord>
        ensures found { option_map (λ r. record_of r.now) result ≡ first_of id (open_records self.now.slots) }
        ensures on_disk { IsTrue D.honest → IsTrue self.now.is_up → IsOpened D.seen self.now.disk self.now }
        ensures images { IsTrue D.honest → IsTrue self.now.is_up → AllHold (D.image self.now.disk) (open_records self.now.slots) }
    {
        let k = self.slots.found(id)?;
        self.slots.record(k)
    }

    /// The records of the first slots, in order of slots, with none where the gate is closed; the gates of the slots after them are closed.
    pub fn records(&self) -> &[Option<LogRecord>]
        ensures slots { map (option_map record_of) (with_closed 1024 result.now) ≡ self.now.slots }
        ensures open { filter_map (option_map record_of) result.now ≡ open_records self.now.slots }
    {
        self.slots.records()
    }

    /// Arms a stop at the n-th write or sync of the appends and frees that come, n at least 1. A stop that was armed before is replaced.
    ///
    /// Of a record that wasn't there before the append, or was there before the free, this is found after a stop that was reached, over a disk that obeys and without a fault
    /// (`found` of [`Log::append`] and [`Log::free`]):
    ///
    ///     stop at                       lose    keep    torn
    ///     calls 1 and 2 of an append    none    none    none
    ///     calls 3 and 4 of an append    none    found   none
    ///     calls 1 and 2 of a free       found   none    none
    pub fn arm(&mut self, n: u8, image: Image)
        requires { 1 ≤ n }
        ensures { self.new ≡ record self.old { armed = Some (record { passes = n - 1; image = image }) } }
    {
        self.armed = Some(ArmedStop {
            passes: n - 1,
            image,
        });
    }

    /// Stops the log. No device is touched, and the life and an armed stop stay.
    pub fn halt(&mut self)
        ensures { self.new ≡ record self.old { is_up = false } }
    {
        self.up = false;
    }

    /// The life.
    pub fn life(&self) -> u64
        ensures { result ≡ self.now.life }
    {
        self.life
    }

    /// Whether the log is up. While it is, each image that a crash can leave has its records.
    pub fn is_up(&self) -> bool
        ensures up { result ≡ self.now.is_up }
        ensures images { IsTrue D.honest → IsTrue self.now.is_up → AllHold (D.image self.now.disk) (open_records self.now.slots) }
    {
        self.up
    }

    /// The disk.
    pub fn disk(&self) -> &D
        ensures { result.now ≡ self.now.disk }
    {
        &self.disk
    }

    /// Hands the disk back.
    pub fn into_disk(self) -> D
        ensures disk { result ≡ self.disk }
        ensures room { LOG_BYTES ≤ D.size result }
        ensures images { IsTrue D.honest → IsTrue self.is_up → AllHold (D.image result) (open_records self.slots) }
    {
        self.disk
    }

    // The log over a disk that has these slots, in its first life, with no stop armed.
    fn over(disk: D, slots: Slots) -> Log<D>
        requires agrees { IsTrue D.honest → Agrees (D.seen disk) (D.image disk) slots }
        requires synced { IsTrue D.obeys → AreSame (D.images disk) }
        requires room { LOG_BYTES ≤ D.size disk }
        ensures { result ≡ record { disk = disk; slots = slots; is_up = true; life = 0; armed = None } }
    {
        Log {
            disk,
            slots,
            up: true,
            life: 0,
            armed: None,
        }
    }
}

impl<D: Relay> Log<D> {
    /// All that the disk was asked for is done ([`Relay::settle`]). The log stays as it is.
    pub fn settle(&mut self)
        ensures settled { IsTrue (D.is_settled self.new.disk) }
        ensures kept { self.new ≡ record self.old { disk = self.new.disk } }
        ensures seen { D.seen self.new.disk ≡ D.seen self.old.disk }
        ensures images { AreWithin (D.image self.old.disk) (D.image self.new.disk) }
        ensures faults { D.faults self.new.disk ≡ D.faults self.old.disk }
    {
        self.disk.settle();
    }
}
