//! The end of a transaction, and the time.
ghost use Rattle.std.specs.Prelude.{ℕ, ◌≡◌, ◌⊎◌, ◌-◌, Option, Some, None, Ok, Err, IfOk, IfErr, OnOk, OnErr, true, false, max, not, length, slice_get};
ghost use Rattle.transactions.specs.Ending.{IsLeft, IsOver};
ghost use Rattle.transactions.specs.Slots.{AreSame, KeepsRest, KeepsTime, is_vacant, live_at};
ghost use Rattle.transactions.specs.State.{LiveState};
ghost use Rattle.transactions.specs.Turning.{PassedAt, Stopped, StoppedAfter, TickFails, Turned, TurnedUpTo};
ghost use Rattle.transactions.specs.declared.usage.Usage.TheVariants.{Free, Left};

use super::{TransactionManager, index};
use crate::error::TxError;
use crate::handle::CommittableTransaction;
use crate::usage::Usage;
use dtx_values::{TxId, TxNo};
use outside::{Clock, Disk};
use resource_managers::ResourceManager;

impl<D: Disk + Drop, C: Clock + Drop> TransactionManager<D, C> {
    /// Takes this transaction off. Another may take its place, with a number of its own.
    pub(super) fn take_off(&mut self, t: TxId)
        ensures gone { live_at t self.new.lives ≡ None }
        ensures kept { (x : LiveState) → live_at t self.old.lives ≡ Some x → slice_get self.new.lives (t.t.value - 1) ≡ Some (record x { usage = Free }) }
        ensures others { AreSame t self.old.lives self.new.lives }
        ensures rest { KeepsRest self.old self.new }
    {
        let Some(live) = self.lives.get_mut(index(t)) else {
            return;
        };
        if !live.is_live(t) {
            return;
        }
        live.set_usage(Usage::Free);
    }

    /// Whether nothing of a transaction is left to do.
    fn is_over(&self, t: TxId) -> bool
        ensures over { result ≡ true → (x : LiveState) × (live_at t self.now.lives ≡ Some x) × IsOver x }
        ensures not { result ≡ false → (x : LiveState) → live_at t self.now.lives ≡ Some x → IsOver x → ⊥ }
    {
        match self.live(t) {
            Some(live) => live.is_over(),
            None => false,
        }
    }

    /// Ends a transaction of which nothing is left to do: its client was told the outcome, nothing is pending, its record was freed, and each enlistment that
    /// voted yes was told. Otherwise it is handed back.
    pub fn end(&mut self, tx: CommittableTransaction) -> Result<(), CommittableTransaction>
        ensures over { OnOk result ((x : LiveState) × (live_at tx.number self.old.lives ≡ Some x) × IsOver x) }
        ensures gone { OnOk result (live_at tx.number self.new.lives ≡ None) }
        ensures vacant { OnOk result (is_vacant (slice_get self.new.lives (tx.number.t.value - 1)) ≡ true) }
        ensures refused { IfErr result (λ u. (u ≡ tx) × (self.new ≡ self.old)) }
        ensures cause { OnErr result ((x : LiveState) → live_at tx.number self.old.lives ≡ Some x → IsOver x → ⊥) }
        ensures others { AreSame tx.number self.old.lives self.new.lives }
        ensures rest { KeepsRest self.old self.new }
    {
        if !self.is_over(tx.number) {
            return Err(tx);
        }
        let CommittableTransaction { number } = tx;
        self.take_off(number);
        Ok(())
    }

    /// Gives a transaction up: nobody holds it any more, and it is taken off once it is over, now or by [`TransactionManager::pump`].
    pub fn release(&mut self, tx: CommittableTransaction)
        ensures left { (x : LiveState) → live_at tx.number self.old.lives ≡ Some x → IsLeft tx.number x self.new.lives }
        ensures others { AreSame tx.number self.old.lives self.new.lives }
        ensures rest { KeepsRest self.old self.new }
    {
        let CommittableTransaction { number } = tx;
        self.leave(number);
    }

    /// Nobody holds a transaction any more: it is taken off once it is over.
    pub(super) fn leave(&mut self, t: TxId)
        ensures left { (x : LiveState) → live_at t self.old.lives ≡ Some x → IsLeft t x self.new.lives }
        ensures nobody { live_at t self.old.lives ≡ None → live_at t self.new.lives ≡ None }
        ensures others { AreSame t self.old.lives self.new.lives }
        ensures rest { KeepsRest self.old self.new }
    {
        let Some(live) = self.lives.get_mut(index(t)) else {
            return;
        };
        if !live.is_live(t) {
            return;
        }
        live.set_usage(Usage::Left);
        self.sweep(t);
    }

    /// Takes a transaction off that nobody holds any more, where it is over.
    fn sweep(&mut self, t: TxId)
        ensures swept { (x : LiveState) → live_at t self.old.lives ≡ Some x → (live_at t self.new.lives ≡ Some x) ⊎ ((live_at t self.new.lives ≡ None) × IsOver x × (x.usage ≡ Left)) }
        ensures others { AreSame t self.old.lives self.new.lives }
        ensures rest { KeepsRest self.old self.new }
    {
        let Some(live) = self.live(t) else {
            return;
        };
        let Usage::Left = live.usage() else {
            return;
        };
        if self.is_over(t) {
            self.take_off(t);
        }
    }

    /// Time goes on in this transaction to the greatest reading of the clock.
    fn pass(&mut self, t: TxId) -> Result<(), TxError>
        ensures passed { OnOk result (PassedAt D.faults self.old.log self.old.reading t self.old.lives self.new.lives) }
        ensures failed { OnErr result (live_at t self.new.lives ≡ live_at t self.old.lives) }
        ensures cause { IfErr result (TickFails t self.old.lives) }
        ensures others { AreSame t self.old.lives self.new.lives }
        ensures rest { KeepsRest self.old self.new }
    {
        let Some(live) = self.lives.get_mut(index(t)) else {
            return Ok(());
        };
        if !live.is_live(t) {
            return Ok(());
        }
        let passed = live.pass(&self.log, &mut self.out, self.actor, self.reading);
        live.is_sound();
        passed
    }

    /// Lets the time of a transaction go on, and does what is pending there.
    fn turn<O: ResourceManager>(&mut self, t: TxId, o: &mut O) -> Result<(), TxError>
        ensures turned { OnOk result (Turned D.faults D.honest D.image O.gives t self.old self.new o.old o.new) }
        ensures stopped { OnErr result (Stopped D.faults D.honest D.image O.gives t self.old self.new o.old o.new) }
        ensures cause { IfErr result (TickFails t self.old.lives) }
        ensures others { AreSame t self.old.lives self.new.lives }
        ensures time { KeepsTime self.old self.new }
    {
        let Some(_) = self.live(t) else {
            return Ok(());
        };
        self.has_run_at(t);
        if let Err(e) = self.pass(t) {
            return Err(e);
        }
        let driven = self.drive(t, o);
        self.has_run_at(t);
        if let Err(e) = driven {
            return Err(e);
        }
        self.sweep(t);
        Ok(())
    }

    /// Reads the clock, lets the time of each transaction go on, and does what is pending in each. A reading below the greatest one so far counts as that.
    ///
    /// # Errors
    ///
    /// [`TxError::Memory`] where memory ran out, and [`TxError::Many`] where a transaction has no number left for the tick.
    pub fn pump<O: ResourceManager>(&mut self, o: &mut O) -> Result<(), TxError>
        ensures reads { (r : ℕ) × C.reads self.old.clock r self.new.clock × (self.new.reading ≡ max self.old.reading r) }
        ensures heard { OnOk result (TurnedUpTo D.faults D.honest D.image O.gives (length self.old.lives) (record self.old { clock = self.new.clock; reading = self.new.reading }) self.new o.old o.new) }
        ensures stopped { OnErr result (StoppedAfter D.faults D.honest D.image O.gives (record self.old { clock = self.new.clock; reading = self.new.reading }) self.new o.old o.new) }
        ensures cause { IfErr result (λ e. (e ≡ TxError.Memory) ⊎ (e ≡ TxError.Many)) }
    {
        let reading = self.clock.now();
        self.reading = self.reading.max(reading);
        for i in 0..self.lives.len() {
            let Ok(number) = u32::try_from(i + 1) else {
                return Ok(());
            };
            let Some(place) = TxNo::new(number) else {
                return Ok(());
            };
            let t = self.at_place(place);
            if let Err(e) = self.turn(t, o) {
                return Err(e);
            }
        }
        Ok(())
    }
}
