//! What a program calls that asks what comes next and has no objects: calls that only enter, numbers in place of handles, and the work of the log's disk.
ghost use Rattle.std.specs.Prelude.{ℕ, ◌≡◌, ◌≢◌, ◌⊎◌, ◌≤◌, ◌<◌, List, Option, Some, None, Ok, Err, IfOk, IfErr, OnOk, OnErr, IfSome, IsTrue, true, false, length};
ghost use Rattle.outside.specs.Disk.{AreWithin};
ghost use Rattle.dtx_values.specs.TxIds.{identifier_of_id, number_of};
ghost use Rattle.dtx_values.specs.declared.call.Call.TheVariants.{Begin, Complete, Gone, Marshal, Tick};
ghost use Rattle.dtx_values.specs.declared.entry.Answer.{Answer};
ghost use Rattle.dtx_values.specs.declared.entry.Answer.TheVariants.{False, Fine, Id, NoSuch, Wait};
ghost use Rattle.dtx_values.specs.declared.number.EnlNo.{EnlNo};
ghost use Rattle.dtx_values.specs.declared.tx_id.TxId.{TxId};
ghost use Rattle.transactions.specs.Calling.{IsCalled};
ghost use Rattle.transactions.specs.Doing.{AdvancesAt, CallsAt, Enters, IsUnidentified, is_done};
ghost use Rattle.transactions.specs.Enlisting.{EnlistsAt, IsNotEnlisted, IsTaken};
ghost use Rattle.transactions.specs.Hearing.{found_in};
ghost use Rattle.transactions.specs.Logged.{KeepsRecords};
ghost use Rattle.transactions.specs.Numbering.{MayNotBegin, NumbersLog};
ghost use Rattle.transactions.specs.Slots.{AreSame, KeepsClock, KeepsRest, KeepsTime, live_at};
ghost use Rattle.transactions.specs.State.{LiveState, blank, past};
ghost use Rattle.transactions.specs.Waiting.{AllAsked};
ghost use Rattle.transactions.specs.declared.event.Next.TheVariants.{Disk as FirstDisk, Nothing};
ghost use Rattle.transactions.specs.declared.kind.Kind.TheVariants.{Durable, Promotable};

use super::{NODE, TransactionManager};
use crate::error::TxError;
use crate::event::{Advance, Next};
use crate::handle::{CommittableTransaction, Phases};
use crate::kind::Kind;
use dtx_values::{Answer, Call, CloneNo, RmNo, Timeout, TxId};
use outside::{Clock, Disk, Relay};
use resource_managers::Enlistment;

/// Whether nothing was enlisted since another resource is.
fn is_taken(e: TxError) -> bool
    ensures { result ≡ true → e ≡ TxError.Refused False }
{
    matches!(e, TxError::Refused(Answer::False))
}

impl<D: Disk + Drop, C: Clock + Drop> TransactionManager<D, C> {
    /// The handle of the transaction of this number for good ([`CommittableTransaction::into_number`]); none exactly where none of this number goes on.
    pub fn handle(&self, number: u64) -> Option<CommittableTransaction>
        ensures found { IfSome result (λ x. (number_of x.number ≡ number) × (live_at x.number self.now.lives ≢ None)) }
        ensures none { result ≡ None → (t : TxId) → number_of t ≡ number → live_at t self.now.lives ≡ None }
    {
        let number = TxId::of_identifier(NODE + u128::from(number))?;
        match self.live(number) {
            Some(_) => Some(CommittableTransaction { number }),
            None => None,
        }
    }

    /// Enlists a durable resource, for a program that asks what comes next. Where the transaction is to be promoted first, the call waits, and the enlistment is made once
    /// that is done; where it can't be promoted, it aborts, and the enlistment hears nothing.
    ///
    /// # Errors
    ///
    /// As of [`TransactionManager::enlist_volatile`].
    pub fn begin_enlist_durable(
        &mut self,
        tx: &CommittableTransaction,
        rm: RmNo,
        p: Phases,
    ) -> Result<Enlistment, TxError>
        ensures enlisted { IfOk result (λ e. (e.transaction ≡ tx.now.number) × (line : ℕ) × (a : Answer) × EnlistsAt D.faults self.old.log tx.now.number (Durable rm p) e.number line a self.old.lives self.new.lives × (is_done a ≡ true)) }
        ensures refused { IfErr result (IsNotEnlisted D.faults self.old.log tx.now.number (Durable rm p) self.old.lives self.new.lives) }
        ensures others { AreSame tx.now.number self.old.lives self.new.lives }
        ensures rest { KeepsRest self.old self.new }
    {
        self.enlisted(tx.number, Kind::Durable(rm, p))
    }

    /// Enlists a resource that owns the commit, for a program that asks what comes next. None exactly where the transaction answers so: another resource is enlisted already.
    ///
    /// # Errors
    ///
    /// As of [`TransactionManager::enlist_volatile`].
    pub fn begin_enlist_promotable(
        &mut self,
        tx: &CommittableTransaction,
        rm: RmNo,
    ) -> Result<Option<Enlistment>, TxError>
        ensures enlisted { IfOk result (λ r. (number : EnlNo) × (line : ℕ) × (a : Answer) × EnlistsAt D.faults self.old.log tx.now.number (Promotable rm) number line a self.old.lives self.new.lives × IsTaken tx.now.number number a r) }
        ensures refused { IfErr result (IsNotEnlisted D.faults self.old.log tx.now.number (Promotable rm) self.old.lives self.new.lives) }
        ensures others { AreSame tx.now.number self.old.lives self.new.lives }
        ensures rest { KeepsRest self.old self.new }
    {
        match self.enlisted(tx.number, Kind::Promotable(rm)) {
            Ok(e) => Ok(Some(e)),
            Err(e) => { if is_taken(e) { Ok(None) } else { Err(e) } }
        }
    }

    /// The identifier of a transaction at the coordinator, for a program that asks what comes next; none where the transaction is to be promoted first, as it then is: ask again
    /// once nothing comes next.
    ///
    /// # Errors
    ///
    /// As of [`TransactionManager::enlist_volatile`].
    pub fn begin_identifier(&mut self, tx: &CommittableTransaction) -> Result<Option<u128>, TxError>
        ensures identified { (id : ℕ) → result ≡ Ok (Some id) → (line : ℕ) × CallsAt D.faults self.old.log tx.now.number (Marshal tx.now.number.t) line (Id id) self.old.lives self.new.lives }
        ensures waits { result ≡ Ok None → (line : ℕ) × CallsAt D.faults self.old.log tx.now.number (Marshal tx.now.number.t) line Wait self.old.lives self.new.lives }
        ensures refused { IfErr result (IsUnidentified D.faults self.old.log tx.now.number self.old.lives self.new.lives) }
        ensures others { AreSame tx.now.number self.old.lives self.new.lives }
        ensures rest { KeepsRest self.old self.new }
    {
        let t = tx.number;
        match self.call(t, &Call::Marshal(t.t())) {
            Ok((_, Answer::Id(id))) => Ok(Some(id)),
            Ok((_, Answer::Wait)) => Ok(None),
            Ok((_, other)) => Err(TxError::Refused(other)),
            Err(e) => Err(e),
        }
    }

    /// Completes a dependent clone, for a program that asks what comes next.
    ///
    /// # Errors
    ///
    /// As of [`TransactionManager::rollback`].
    pub fn begin_complete(
        &mut self,
        tx: &CommittableTransaction,
        clone: CloneNo,
    ) -> Result<(), TxError>
        ensures entered { Enters D.faults self.old.log tx.now.number (Complete clone) self.old.lives self.new.lives result }
        ensures others { AreSame tx.now.number self.old.lives self.new.lives }
        ensures rest { KeepsRest self.old self.new }
    {
        self.enter(tx.number, &Call::Complete(clone))
    }

    /// The connection of an enlistment is lost, for a program that asks what comes next.
    ///
    /// # Errors
    ///
    /// As of [`TransactionManager::rollback`].
    pub fn begin_lost(&mut self, e: Enlistment) -> Result<(), TxError>
        ensures entered { Enters D.faults self.old.log e.transaction (Gone e.number) self.old.lives self.new.lives result }
        ensures others { AreSame e.transaction self.old.lives self.new.lives }
        ensures rest { KeepsRest self.old self.new }
    {
        self.enter(e.transaction, &Call::Gone(e.number))
    }

    /// Time goes on in this transaction by so many milliseconds, for a program that has the clock itself.
    ///
    /// # Errors
    ///
    /// As of [`TransactionManager::rollback`].
    pub fn tick(&mut self, tx: &CommittableTransaction, milliseconds: u32) -> Result<(), TxError>
        ensures entered { Enters D.faults self.old.log tx.now.number (Tick tx.now.number.t milliseconds) self.old.lives self.new.lives result }
        ensures others { AreSame tx.now.number self.old.lives self.new.lives }
        ensures rest { KeepsRest self.old self.new }
    {
        let t = tx.number;
        self.enter(t, &Call::Tick(t.t(), milliseconds))
    }

    /// Begins an epoch at the log, as the next [`TransactionManager::begin`] would where the last epoch has no number left.
    ///
    /// # Errors
    ///
    /// As of [`TransactionManager::begin`].
    pub fn start(&mut self) -> Result<(), TxError>
        ensures above { OnOk result (self.old.last < self.new.last) }
        ensures same { OnErr result (self.new.last ≡ self.old.last) }
        ensures log { NumbersLog D.honest D.image D.faults self.old.log self.new.log }
        ensures rest { self.new ≡ record self.old { log = self.new.log; last = self.new.last } }
        ensures cause { IfErr result (MayNotBegin D.faults self.old.log self.new.log self.old.lives) }
    {
        if self.is_crowded() {
            return Err(TxError::Many);
        }
        match self.next_epoch() {
            Ok(_) => Ok(()),
            Err(e) => Err(e),
        }
    }

    /// The disk of the log.
    pub fn disk(&self) -> &D
        ensures { result.now ≡ self.now.log.disk }
    {
        self.log.disk()
    }
}

impl<D: Relay + Drop, C: Clock + Drop> TransactionManager<D, C> {
    /// All that the log asked its disk for is done ([`Relay::settle`]).
    pub fn disk_done(&mut self)
        ensures settled { IsTrue (D.is_settled self.new.log.disk) }
        ensures rest { self.new ≡ record self.old { log = record self.old.log { disk = self.new.log.disk } } }
        ensures seen { D.seen self.new.log.disk ≡ D.seen self.old.log.disk }
        ensures images { AreWithin (D.image self.old.log.disk) (D.image self.new.log.disk) }
        ensures faults { D.faults self.new.log.disk ≡ D.faults self.old.log.disk }
    {
        self.log.settle();
    }

    /// Begins a transaction, as [`TransactionManager::begin`]; none where first the disk has its work to do, as it has where an epoch is to begin. So no number is told before
    /// its epoch is to be on the disk.
    ///
    /// # Errors
    ///
    /// As of [`TransactionManager::begin`].
    pub fn poll_begin(
        &mut self,
        timeout: Timeout,
    ) -> Result<Option<CommittableTransaction>, TxError>
        ensures fresh { (tx : CommittableTransaction) → result ≡ Ok (Some tx) → live_at tx.number self.old.lives ≡ None }
        ensures begun { (tx : CommittableTransaction) → result ≡ Ok (Some tx)
            → (y : LiveState) × (live_at tx.number self.new.lives ≡ Some y) × IsCalled D.faults self.new.log (Begin tx.number.t timeout) 1 Fine (blank tx.number self.old.reading) y }
        ensures above { (tx : CommittableTransaction) → result ≡ Ok (Some tx) → (self.old.last < number_of tx.number) × (self.new.last ≡ number_of tx.number) }
        ensures others { (tx : CommittableTransaction) → result ≡ Ok (Some tx) → AreSame tx.number self.old.lives self.new.lives }
        ensures quiet { (tx : CommittableTransaction) → result ≡ Ok (Some tx) → IsTrue (D.is_settled self.new.log.disk) }
        ensures unsettled { D.is_settled self.old.log.disk ≡ false → (result ≡ Ok None) × (self.new ≡ self.old) }
        ensures rises { self.old.last ≤ self.new.last }
        ensures only { result ≡ Ok None → (D.is_settled self.old.log.disk ≡ false) ⊎ (self.old.last < self.new.last) }
        ensures waits { result ≡ Ok None → self.new.lives ≡ self.old.lives }
        ensures refused { OnErr result (self.new.lives ≡ self.old.lives) }
        ensures log { NumbersLog D.honest D.image D.faults self.old.log self.new.log }
        ensures time { KeepsClock self.old self.new }
        ensures cause { IfErr result (MayNotBegin D.faults self.old.log self.new.log self.old.lives) }
    {
        if !self.log.disk().is_settled() {
            return Ok(None);
        }
        let Some(t) = self.vacant_now() else {
            return match self.start() {
                Ok(()) => Ok(None),
                Err(e) => Err(e),
            };
        };
        match self.begin_as(t, timeout) {
            Ok(tx) => Ok(Some(tx)),
            Err(e) => Err(e),
        }
    }

    /// What comes next in a transaction, as [`TransactionManager::next`]; but first the disk, where the log asked it for something that isn't done. So nothing is told ahead
    /// of what is to be on the disk.
    ///
    /// # Errors
    ///
    /// As of [`TransactionManager::next`].
    pub fn poll(&mut self, tx: &CommittableTransaction) -> Result<Next, TxError>
        ensures comes { IfOk result (λ n. AdvancesAt (found_in n) tx.now.number self.old.lives self.new.lives) }
        ensures stays { OnErr result (AdvancesAt None tx.now.number self.old.lives self.new.lives) }
        ensures quiet { IfOk result (λ n. n ≢ FirstDisk → IsTrue (D.is_settled self.new.log.disk)) }
        ensures unsettled { D.is_settled self.old.log.disk ≡ false → self.new ≡ self.old }
        ensures disk { result ≡ Ok FirstDisk → D.is_settled self.new.log.disk ≡ false }
        ensures all { result ≡ Ok Nothing → (y : LiveState) → live_at tx.now.number self.new.lives ≡ Some y → (y.heard ≡ length (past y)) × AllAsked y.tx.world }
        ensures logged { KeepsRecords D.honest D.image (identifier_of_id tx.now.number) self.old.log self.new.log }
        ensures nobody { live_at tx.now.number self.old.lives ≡ None → result ≡ Err (TxError.Refused NoSuch) }
        ensures others { AreSame tx.now.number self.old.lives self.new.lives }
        ensures time { KeepsTime self.old self.new }
        ensures cause { IfErr result (λ e. (e ≡ TxError.Memory) ⊎ ((e ≡ TxError.Refused NoSuch) × (live_at tx.now.number self.old.lives ≡ None))) }
    {
        let t = tx.number;
        if self.live(t).is_none() {
            return Err(TxError::Refused(Answer::NoSuch));
        }
        self.is_within(t);
        let mut count: u64 = 0;
        while count < u64::MAX {
            if !self.log.disk().is_settled() {
                return Ok(Next::Disk);
            }
            let advance = match self.advance(t) {
                Ok(advance) => advance,
                Err(e) => return Err(e),
            };
            match advance {
                Advance::Heard(event) => return Ok(Next::Found(event)),
                Advance::Did => {}
                Advance::Idle => return Ok(Next::Nothing),
            }
            count += 1;
        }
        Err(TxError::Memory)
    }
}
