//! The beginning of transactions, and their numbers.
ghost use Rattle.std.specs.Prelude.{ℕ, ◌≡◌, ◌≢◌, ◌≤◌, ◌<◌, ◌+◌, ◌-◌, ◌*◌, ◌⊎◌, Option, Some, None, Ok, Err, IfOk, IfErr, OnOk, OnErr, IfSome, IsTrue, true, false, length, slice_get};
ghost use Rattle.dtx_values.specs.TxIds.{number_of};
ghost use Rattle.dtx_values.specs.declared.call.Call.TheVariants.{Begin};
ghost use Rattle.dtx_values.specs.declared.entry.Answer.TheVariants.{Fine};
ghost use Rattle.dtx_values.specs.declared.tx_id.TxId.{TxId};
ghost use Rattle.dtx_values.specs.declared.number.TxNo.{TxNo};
ghost use Rattle.dtx_model.specs.Log.{first_of};
ghost use Rattle.dtx_model.specs.Promotes.{identifier_of};
ghost use Rattle.coordinator_log.specs.Slots.{open_records};
ghost use Rattle.log_epochs.specs.Epochs.{epoch_of};
ghost use Rattle.transactions.specs.Calling.{IsCalled};
ghost use Rattle.tx_world.specs.AtLog.{AreFit, Fits};
ghost use Rattle.transactions.specs.Numbering.{AreFrom, AreNone, IsRecorded, MayNotBegin, MayNotNumber, NumbersLog, last_in};
ghost use Rattle.transactions.specs.Slots.{AreSame, KeepsRest, KeepsClock, is_live, is_vacant, live_at};
ghost use Rattle.transactions.specs.State.{LiveState, blank};

use super::{TransactionManager, index};
use crate::error::{TxError, number_error};
use crate::handle::CommittableTransaction;
use crate::live::Live;
use dtx_values::{Call, Timeout, TxId, TxNo};
use log_epochs::{begin_epoch, no_transaction_is_an_epoch};
use outside::{Clock, Disk};

impl<D: Disk + Drop, C: Clock + Drop> TransactionManager<D, C> {
    /// Whether this transaction may begin: no other has its place, and the log has no record of it.
    fn is_free(&self, t: TxId) -> bool
        ensures vacant { IsTrue result → is_vacant (slice_get self.now.lives (t.t.value - 1)) ≡ true }
        ensures unrecorded { IsTrue result → first_of (identifier_of (number_of t)) (open_records self.now.log.slots) ≡ None }
        ensures taken { result ≡ false → (is_vacant (slice_get self.now.lives (t.t.value - 1)) ≡ false) ⊎ (first_of (identifier_of (number_of t)) (open_records self.now.log.slots) ≢ None) }
    {
        self.is_vacant(t.t()) && self.log.lookup(t.identifier()).is_none()
    }

    /// Whether no transaction has this place.
    fn is_vacant(&self, place: TxNo) -> bool
        ensures { result ≡ is_vacant (slice_get self.now.lives (place.value - 1)) }
    {
        match self.lives.get(place.index()) {
            Some(live) => !live.is_used(),
            None => true,
        }
    }

    /// The least number of an epoch, after this one, with which a transaction may begin.
    fn vacant(&self, epoch: u32, after: u32) -> Option<TxId>
        ensures free { IfSome result (λ t. is_vacant (slice_get self.now.lives (t.t.value - 1)) ≡ true) }
        ensures within { IfSome result (λ t. t.t.value ≤ length self.now.lives + 1) }
        ensures unrecorded { IfSome result (λ t. first_of (identifier_of (number_of t)) (open_records self.now.log.slots) ≡ None) }
        ensures later { IfSome result (λ t. (t.epoch ≡ epoch) × (after < t.t.value)) }
        ensures full { result ≡ None → AreNone self.now.log epoch after self.now.lives }
    {
        for n in after..TxNo::MAX {
            let t = TxId::new(epoch, TxNo::new(n + 1)?);
            if index(t) > self.lives.len() {
                return None;
            }
            if self.is_free(t) {
                return Some(t);
            }
        }
        None
    }

    /// Whether each place has a transaction.
    pub(super) fn is_crowded(&self) -> bool
        ensures { result ≡ true → (p : TxNo) → is_vacant (slice_get self.now.lives (p.value - 1)) ≡ false }
    {
        for n in 0..TxNo::MAX {
            let Some(place) = TxNo::new(n + 1) else {
                return false;
            };
            if self.is_vacant(place) {
                return false;
            }
        }
        true
    }

    /// The least number of this epoch, after the last one, with which a transaction may begin.
    pub(super) fn vacant_now(&self) -> Option<TxId>
        ensures free { IfSome result (λ t. is_vacant (slice_get self.now.lives (t.t.value - 1)) ≡ true) }
        ensures within { IfSome result (λ t. t.t.value ≤ length self.now.lives + 1) }
        ensures unrecorded { IfSome result (λ t. first_of (identifier_of (number_of t)) (open_records self.now.log.slots) ≡ None) }
        ensures above { IfSome result (λ t. self.now.last < number_of t) }
        ensures recorded { IfSome result (λ t. IsRecorded D.honest D.image self.now.log (number_of t)) }
    {
        self.vacant(self.epoch, self.given)
    }

    /// Begins the next epoch of the log, of which no number is given yet.
    pub(super) fn next_epoch(&mut self) -> Result<u32, TxError>
        ensures next { IfOk result (λ n. (self.new.last ≡ 65536 * n) × (n ≡ epoch_of (open_records self.new.log.slots))) }
        ensures above { OnOk result (self.old.last < self.new.last) }
        ensures same { OnErr result (self.new.last ≡ self.old.last) }
        ensures recorded { IfOk result (λ n. IsRecorded D.honest D.image self.new.log (last_in n)) }
        ensures log { NumbersLog D.honest D.image D.faults self.old.log self.new.log }
        ensures rest { self.new ≡ record self.old { log = self.new.log; last = self.new.last } }
        ensures cause { IfErr result (MayNotNumber D.faults self.old.log self.new.log) }
    {
        no_transaction_is_an_epoch();
        let n = match begin_epoch(&mut self.log) {
            Ok(n) => n,
            Err(e) => return Err(number_error(e)),
        };
        self.epoch = n;
        self.given = 0;
        Ok(n)
    }

    /// The number for good of the next transaction: the least one after the last whose place is vacant and of which the log has no record, in this epoch or else in the next
    /// one, which then begins at the log.
    fn next_number(&mut self) -> Result<TxId, TxError>
        ensures free { IfOk result (λ t. is_vacant (slice_get self.old.lives (t.t.value - 1)) ≡ true) }
        ensures within { IfOk result (λ t. t.t.value ≤ length self.old.lives + 1) }
        ensures unrecorded { IfOk result (λ t. first_of (identifier_of (number_of t)) (open_records self.new.log.slots) ≡ None) }
        ensures above { IfOk result (λ t. self.new.last < number_of t) }
        ensures recorded { IfOk result (λ t. IsRecorded D.honest D.image self.new.log (number_of t)) }
        ensures rises { self.old.last ≤ self.new.last }
        ensures log { NumbersLog D.honest D.image D.faults self.old.log self.new.log }
        ensures rest { self.new ≡ record self.old { log = self.new.log; last = self.new.last } }
        ensures cause { IfErr result (MayNotBegin D.faults self.old.log self.new.log self.old.lives) }
    {
        if let Some(t) = self.vacant_now() {
            return Ok(t);
        }
        if self.is_crowded() {
            return Err(TxError::Many);
        }
        let n = match self.next_epoch() {
            Ok(n) => n,
            Err(e) => return Err(e),
        };
        match self.vacant(n, 0) {
            Some(t) => Ok(t),
            None => Err(TxError::Many),
        }
    }

    /// A transaction of this number, whose begin is entered.
    fn begun(&mut self, t: TxId, timeout: Timeout) -> Result<Live, TxError>
        requires unrecorded { first_of (identifier_of (number_of t)) (open_records self.old.log.slots) ≡ None }
        requires above { self.old.last < number_of t }
        ensures begun { IfOk result (λ y. IsCalled D.faults self.old.log (Begin t.t timeout) 1 Fine (blank t self.old.reading) y) }
        ensures fits { IfOk result (λ y. Fits y.tx (open_records self.old.log.slots)) }
        ensures imaged { IsTrue D.honest → IfOk result (λ y. AreFit (D.image self.old.log.disk) (Fits y.tx)) }
        ensures kept { self.new ≡ self.old }
        ensures memory { IfErr result (λ e. e ≡ TxError.Memory) }
    {
        let mut live = match Live::new(self.alloc, t, self.reading) {
            Ok(live) => live,
            Err(e) => return Err(e),
        };
        let c = Call::Begin(t.t(), timeout);
        match live.call(&self.log, &mut self.out, self.actor, &c) {
            Ok(_) => {}
            Err(e) => return Err(e),
        }
        Ok(live)
    }

    /// Puts a transaction that begins at its place: its number is the last that was given.
    fn put(&mut self, t: TxId, live: Live) -> Result<(), TxError>
        requires live { is_live t live ≡ true }
        requires free { is_vacant (slice_get self.old.lives (t.t.value - 1)) ≡ true }
        requires within { t.t.value ≤ length self.old.lives + 1 }
        requires fits { Fits live.tx (open_records self.old.log.slots) }
        requires imaged { IsTrue D.honest → AreFit (D.image self.old.log.disk) (Fits live.tx) }
        requires above { self.old.last < number_of t }
        requires recorded { IsRecorded D.honest D.image self.old.log (number_of t) }
        ensures now { OnOk result (live_at t self.new.lives ≡ Some live) }
        ensures others { OnOk result (AreSame t self.old.lives self.new.lives) }
        ensures last { OnOk result (self.new.last ≡ number_of t) }
        ensures refused { OnErr result (self.new ≡ self.old) }
        ensures rest { self.new ≡ record self.old { lives = self.new.lives; last = self.new.last } }
        ensures memory { IfErr result (λ e. e ≡ TxError.Memory) }
    {
        live.is_sound();
        let i = index(t);
        if i < self.lives.len() {
            self.lives[i] = live;
            self.epoch = t.epoch();
            self.given = t.t().get();
            return Ok(());
        }
        match self.lives.push(live) {
            Ok(()) => {}
            Err(_) => return Err(TxError::Memory),
        }
        self.epoch = t.epoch();
        self.given = t.t().get();
        Ok(())
    }

    /// Begins a transaction, under a number for good that is above all that were given before, by this process or by an earlier one over the log.
    /// (`new CommittableTransaction(timeout)` of System.Transactions.)
    ///
    /// The first one of a process, and then each for which no number of the epoch is left, begins an epoch at the log: its record is appended, and those of earlier ones are freed.
    ///
    /// # Errors
    ///
    /// - [`TxError::Many`] where each place has a transaction: 256 go on; or the log has a record of the next number of each that has none.
    /// - [`TxError::LogFull`] where an epoch is to begin, and the log has no room for its record.
    /// - [`TxError::LogStopped`] where an epoch is to begin, and the log is stopped: its disk failed, now or before.
    /// - [`TxError::NoEpoch`] where an epoch is to begin, and the log's is the last, 2^32 - 1.
    /// - [`TxError::Memory`] where memory ran out.
    pub fn begin(&mut self, timeout: Timeout) -> Result<CommittableTransaction, TxError>
        ensures fresh { IfOk result (λ tx. live_at tx.number self.old.lives ≡ None) }
        ensures begun { IfOk result (λ tx. (y : LiveState) × (live_at tx.number self.new.lives ≡ Some y) × IsCalled D.faults self.new.log (Begin tx.number.t timeout) 1 Fine (blank tx.number self.old.reading) y) }
        ensures above { IfOk result (λ tx. (self.old.last < number_of tx.number) × (self.new.last ≡ number_of tx.number)) }
        ensures rises { self.old.last ≤ self.new.last }
        ensures others { IfOk result (λ tx. AreSame tx.number self.old.lives self.new.lives) }
        ensures refused { OnErr result (self.new.lives ≡ self.old.lives) }
        ensures log { NumbersLog D.honest D.image D.faults self.old.log self.new.log }
        ensures time { KeepsClock self.old self.new }
        ensures cause { IfErr result (MayNotBegin D.faults self.old.log self.new.log self.old.lives) }
    {
        let t = match self.next_number() {
            Ok(t) => t,
            Err(e) => return Err(e),
        };
        self.begin_as(t, timeout)
    }

    /// Begins the transaction of this number, of an epoch that the log recorded.
    pub(super) fn begin_as(
        &mut self,
        t: TxId,
        timeout: Timeout,
    ) -> Result<CommittableTransaction, TxError>
        requires free { is_vacant (slice_get self.old.lives (t.t.value - 1)) ≡ true }
        requires within { t.t.value ≤ length self.old.lives + 1 }
        requires unrecorded { first_of (identifier_of (number_of t)) (open_records self.old.log.slots) ≡ None }
        requires recorded { IsRecorded D.honest D.image self.old.log (number_of t) }
        requires above { self.old.last < number_of t }
        ensures number { IfOk result (λ tx. tx.number ≡ t) }
        ensures fresh { live_at t self.old.lives ≡ None }
        ensures begun { OnOk result ((y : LiveState) × (live_at t self.new.lives ≡ Some y) × IsCalled D.faults self.old.log (Begin t.t timeout) 1 Fine (blank t self.old.reading) y) }
        ensures last { OnOk result (self.new.last ≡ number_of t) }
        ensures others { OnOk result (AreSame t self.old.lives self.new.lives) }
        ensures refused { OnErr result (self.new ≡ self.old) }
        ensures rest { self.new ≡ record self.old { lives = self.new.lives; last = self.new.last } }
        ensures memory { IfErr result (λ e. e ≡ TxError.Memory) }
    {
        let live = match self.begun(t, timeout) {
            Ok(live) => live,
            Err(e) => return Err(e),
        };
        if let Err(e) = self.put(t, live) {
            return Err(e);
        }
        Ok(CommittableTransaction { number: t })
    }

    /// The law of numbers over all processes: each image that a crash can leave of an honest disk is a log whose epoch is at least that of the last number that was given here.
    /// So what any later process begins over it has a number above that. It does nothing when it runs.
    pub fn numbers_last(&self)
        ensures { IsTrue D.honest → AreFrom self.now.last (D.image self.now.log.disk) }
    {
        let _ = &self.given;
    }
}
