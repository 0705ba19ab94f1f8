//! Enlistments, dependent clones, and the identifier.
ghost use Rattle.std.specs.Prelude.{ℕ, ◌≡◌, ◌≢◌, ◌⊎◌, ◌≤◌, ◌-◌, ◌^◌, List, [], Option, Some, None, Ok, Err, IfOk, IfErr, OnOk, OnErr, true, false};
ghost use Rattle.dtx_values.specs.declared.call.Call.TheVariants.{Complete, Marshal};
ghost use Rattle.dtx_values.specs.declared.number.EnlNo.{EnlNo};
ghost use Rattle.dtx_values.specs.declared.entry.Answer.{Answer};
ghost use Rattle.dtx_values.specs.declared.entry.Answer.TheVariants.{Id, NoSuch};
ghost use Rattle.dtx_values.specs.declared.entry.Entry.TheVariants.{Answered};
ghost use Rattle.dtx_model.specs.Words.{has};
ghost use Rattle.record_laws.specs.Recorded.{IsOf, IsVolatile};
ghost use Rattle.resource_managers.specs.declared.enlistment.Enlistment.{Enlistment};
ghost use Rattle.transactions.specs.Answered.{Has, is_answer_to};
ghost use Rattle.transactions.specs.Doing.{CallsAt, Goes, HeardAt, IsRefused, is_done};
ghost use Rattle.transactions.specs.Enlisting.{ClonesAt, EnlistsAt, IsAnswered, IsNotCloned, IsNotEnlisted, IsTaken, MayNotClone, MayNotEnlist, NumbersClones, NumbersEnlistments};
ghost use Rattle.transactions.specs.Slots.{AreSame, KeepsRest, KeepsTime, live_at};
ghost use Rattle.transactions.specs.State.{LiveState, past};
ghost use Rattle.transactions.specs.declared.kind.Kind.TheVariants.{Durable, Promotable, Volatile};

use super::{TransactionManager, done, index};
use crate::error::TxError;
use crate::handle::{CommittableTransaction, DependentTransaction, Phases};
use crate::kind::Kind;
use dtx_values::{Answer, Call, CloneKind, CloneNo, EnlNo, EnlistOption, RmNo, TxId};
use outside::{Clock, Disk};
use resource_managers::{Enlistment, ResourceManager};

impl<D: Disk + Drop, C: Clock + Drop> TransactionManager<D, C> {
    /// Enters the call that enlists something in a transaction under the next number; it gives that, the line and the answer.
    pub(super) fn enlist(&mut self, t: TxId, k: Kind) -> Result<(EnlNo, u32, Answer), TxError>
        ensures enlisted { IfOk result (λ x. EnlistsAt D.faults self.old.log t k x.0 x.1 x.2 self.old.lives self.new.lives) }
        ensures failed { OnErr result (NumbersEnlistments t self.old.lives self.new.lives) }
        ensures others { AreSame t self.old.lives self.new.lives }
        ensures rest { KeepsRest self.old self.new }
        ensures cause { IfErr result (MayNotEnlist t self.old.lives) }
    {
        let Some(live) = self.lives.get_mut(index(t)) else {
            return Err(TxError::Refused(Answer::NoSuch));
        };
        if !live.is_live(t) {
            return Err(TxError::Refused(Answer::NoSuch));
        }
        let enlisted = live.enlist(&self.log, &mut self.out, self.actor, k);
        live.is_sound();
        enlisted
    }

    /// Enlists something in a transaction under the next number, now or once the transaction is promoted.
    pub(super) fn enlisted(&mut self, t: TxId, k: Kind) -> Result<Enlistment, TxError>
        ensures enlisted { IfOk result (λ e. (e.transaction ≡ t) × (line : ℕ) × (a : Answer) × EnlistsAt D.faults self.old.log t k e.number line a self.old.lives self.new.lives × (is_done a ≡ true)) }
        ensures refused { IfErr result (IsNotEnlisted D.faults self.old.log t k self.old.lives self.new.lives) }
        ensures others { AreSame t self.old.lives self.new.lives }
        ensures rest { KeepsRest self.old self.new }
    {
        match self.enlist(t, k) {
            Ok((number, _, answer)) => match done(answer) {
                Ok(()) => Ok(Enlistment {
                    transaction: t,
                    number,
                }),
                Err(e) => Err(e),
            },
            Err(e) => Err(e),
        }
    }

    /// Enlists a volatile resource. (`EnlistVolatile` of System.Transactions.)
    ///
    /// # Errors
    ///
    /// - [`TxError::Refused`] where the transaction refused the call, or is none of this manager's.
    /// - [`TxError::Many`] where all numbers are used.
    /// - [`TxError::Memory`] where memory ran out.
    pub fn enlist_volatile(
        &mut self,
        tx: &CommittableTransaction,
        k: EnlistOption,
    ) -> Result<Enlistment, TxError>
        ensures enlisted { IfOk result (λ e. (e.transaction ≡ tx.now.number) × (line : ℕ) × (a : Answer) × EnlistsAt D.faults self.old.log tx.now.number (Volatile k) e.number line a self.old.lives self.new.lives × (is_done a ≡ true)) }
        ensures volatile { IfOk result (λ e. (z : LiveState) → live_at tx.now.number self.new.lives ≡ Some z → IsVolatile z.tx.world e.number.value) }
        ensures refused { IfErr result (IsNotEnlisted D.faults self.old.log tx.now.number (Volatile k) self.old.lives self.new.lives) }
        ensures others { AreSame tx.now.number self.old.lives self.new.lives }
        ensures rest { KeepsRest self.old self.new }
    {
        self.enlisted(tx.number, Kind::Volatile(k))
    }

    /// Does what is pending in a transaction, and gives the answer of the call of this line: that one, or where it had to wait the one that came.
    fn wait<O: ResourceManager>(
        &mut self,
        t: TxId,
        line: u32,
        first: Answer,
        o: &mut O,
    ) -> Result<Answer, TxError>
        ensures answered { IfOk result (λ a. IsAnswered t line first a self.new.lives) }
        ensures heard { HeardAt D.honest D.image O.gives [] t self.old self.new o.old o.new }
        ensures waits { result ≡ Err TxError.Waits → (z : LiveState) → live_at t self.new.lives ≡ Some z → has (is_answer_to line) (past z) ≡ false }
        ensures others { AreSame t self.old.lives self.new.lives }
        ensures time { KeepsTime self.old self.new }
    {
        match self.drive(t, o) {
            Ok(()) => (),
            Err(e) => return Err(e),
        }
        match first {
            Answer::Wait => self.answered(t, line),
            other => Ok(other),
        }
    }

    /// The answer of the call of this line, which had to wait.
    fn answered(&self, t: TxId, line: u32) -> Result<Answer, TxError>
        ensures found { IfOk result (λ a. (z : LiveState) × (live_at t self.now.lives ≡ Some z) × Has (Answered line a) (past z)) }
        ensures none { result ≡ Err TxError.Waits → (z : LiveState) → live_at t self.now.lives ≡ Some z → has (is_answer_to line) (past z) ≡ false }
    {
        match self.live(t) {
            Some(live) => match live.answered(line) {
                Some(answer) => Ok(answer),
                None => Err(TxError::Waits),
            },
            None => Err(TxError::Refused(Answer::NoSuch)),
        }
    }

    /// Enlists a durable resource of a resource manager. A second one promotes the transaction. (`EnlistDurable` of System.Transactions.)
    ///
    /// # Errors
    ///
    /// - [`TxError::Refused`] where the transaction refused the call, or is none of this manager's.
    /// - [`TxError::Waits`] where an object puts off its reply to promote: the enlistment isn't made yet.
    /// - [`TxError::Many`] where all numbers are used.
    /// - [`TxError::Memory`] where memory ran out.
    pub fn enlist_durable<O: ResourceManager>(
        &mut self,
        tx: &CommittableTransaction,
        rm: RmNo,
        p: Phases,
        o: &mut O,
    ) -> Result<Enlistment, TxError>
        ensures enlisted { IfOk result (λ e. (e.transaction ≡ tx.now.number) × (mid : List LiveState) × (line : ℕ) × (first : Answer) × EnlistsAt D.faults self.old.log tx.now.number (Durable rm p) e.number line first self.old.lives mid
            × HeardAt D.honest D.image O.gives [] tx.now.number (record self.old { lives = mid }) self.new o.old o.new × (a : Answer) × IsAnswered tx.now.number line first a self.new.lives × (is_done a ≡ true)) }
        ensures manager { IfOk result (λ e. (z : LiveState) → live_at tx.now.number self.new.lives ≡ Some z → IsOf z.tx.world rm.value e.number.value) }
        ensures heard { HeardAt D.honest D.image O.gives [] tx.now.number self.old self.new o.old o.new }
        ensures others { AreSame tx.now.number self.old.lives self.new.lives }
        ensures time { KeepsTime self.old self.new }
    {
        let t = tx.number;
        let (number, line, first) = match self.enlist(t, Kind::Durable(rm, p)) {
            Ok(enlisted) => enlisted,
            Err(e) => return Err(e),
        };
        self.is_within(t);
        let answer = match self.wait(t, line, first, o) {
            Ok(answer) => answer,
            Err(e) => return Err(e),
        };
        self.has_run(tx);
        match done(answer) {
            Ok(()) => Ok(Enlistment {
                transaction: t,
                number,
            }),
            Err(e) => Err(e),
        }
    }

    /// Enlists a resource that owns the commit, and can promote the transaction. None exactly where the transaction answers so: another resource is enlisted
    /// already. (`EnlistPromotableSinglePhase` of System.Transactions.)
    ///
    /// # Errors
    ///
    /// As of [`TransactionManager::enlist_volatile`].
    pub fn enlist_promotable_single_phase<O: ResourceManager>(
        &mut self,
        tx: &CommittableTransaction,
        rm: RmNo,
        o: &mut O,
    ) -> Result<Option<Enlistment>, TxError>
        ensures enlisted { IfOk result (λ r. (mid : List LiveState) × (number : EnlNo) × (line : ℕ) × (a : Answer) × EnlistsAt D.faults self.old.log tx.now.number (Promotable rm) number line a self.old.lives mid
            × HeardAt D.honest D.image O.gives [] tx.now.number (record self.old { lives = mid }) self.new o.old o.new × IsTaken tx.now.number number a r) }
        ensures manager { (e : Enlistment) → result ≡ Ok (Some e) → (z : LiveState) → live_at tx.now.number self.new.lives ≡ Some z → IsOf z.tx.world rm.value e.number.value }
        ensures heard { HeardAt D.honest D.image O.gives [] tx.now.number self.old self.new o.old o.new }
        ensures others { AreSame tx.now.number self.old.lives self.new.lives }
        ensures time { KeepsTime self.old self.new }
    {
        let made = match self.begin_enlist_promotable(tx, rm) {
            Ok(made) => made,
            Err(e) => return Err(e),
        };
        self.is_within(tx.number);
        match self.drive(tx.number, o) {
            Ok(()) => {
                self.has_run(tx);
                Ok(made)
            }
            Err(e) => Err(e),
        }
    }

    /// The identifier of a transaction at the coordinator, to which it is promoted. (`TransactionInterop.GetTransmitterPropagationToken` of System.Transactions.)
    ///
    /// # Errors
    ///
    /// As of [`TransactionManager::enlist_durable`].
    pub fn identifier<O: ResourceManager>(
        &mut self,
        tx: &CommittableTransaction,
        o: &mut O,
    ) -> Result<u128, TxError>
        ensures identified { IfOk result (λ id. (mid : List LiveState) × (line : ℕ) × (first : Answer) × CallsAt D.faults self.old.log tx.now.number (Marshal tx.now.number.t) line first self.old.lives mid
            × HeardAt D.honest D.image O.gives [] tx.now.number (record self.old { lives = mid }) self.new o.old o.new × IsAnswered tx.now.number line first (Id id) self.new.lives) }
        ensures heard { HeardAt D.honest D.image O.gives [] tx.now.number self.old self.new o.old o.new }
        ensures others { AreSame tx.now.number self.old.lives self.new.lives }
        ensures time { KeepsTime self.old self.new }
    {
        let t = tx.number;
        let (line, first) = match self.call(t, &Call::Marshal(t.t())) {
            Ok(called) => called,
            Err(e) => return Err(e),
        };
        self.is_within(t);
        match self.wait(t, line, first, o) {
            Ok(Answer::Id(id)) => Ok(id),
            Ok(other) => Err(TxError::Refused(other)),
            Err(e) => Err(e),
        }
    }

    /// Makes a dependent clone of a transaction. (`DependentClone` of System.Transactions.)
    ///
    /// # Errors
    ///
    /// As of [`TransactionManager::enlist_volatile`].
    pub fn dependent_clone(
        &mut self,
        tx: &CommittableTransaction,
        k: CloneKind,
    ) -> Result<DependentTransaction, TxError>
        ensures cloned { IfOk result (λ d. (d.transaction ≡ tx.now.number) × (a : Answer) × ClonesAt D.faults self.old.log tx.now.number k d.clone a self.old.lives self.new.lives × (is_done a ≡ true)) }
        ensures refused { IfErr result (IsNotCloned D.faults self.old.log tx.now.number k self.old.lives self.new.lives) }
        ensures others { AreSame tx.now.number self.old.lives self.new.lives }
        ensures rest { KeepsRest self.old self.new }
    {
        let t = tx.number;
        match self.clone_in(t, k) {
            Ok((clone, answer)) => match done(answer) {
                Ok(()) => Ok(DependentTransaction {
                    transaction: t,
                    clone,
                }),
                Err(e) => Err(e),
            },
            Err(e) => Err(e),
        }
    }

    /// Enters the call that makes a clone of a transaction under the next number; it gives that and the answer.
    fn clone_in(&mut self, t: TxId, k: CloneKind) -> Result<(CloneNo, Answer), TxError>
        ensures cloned { IfOk result (λ x. ClonesAt D.faults self.old.log t k x.0 x.1 self.old.lives self.new.lives) }
        ensures failed { OnErr result (NumbersClones t self.old.lives self.new.lives) }
        ensures others { AreSame t self.old.lives self.new.lives }
        ensures rest { KeepsRest self.old self.new }
        ensures cause { IfErr result (MayNotClone t self.old.lives) }
    {
        let Some(live) = self.lives.get_mut(index(t)) else {
            return Err(TxError::Refused(Answer::NoSuch));
        };
        if !live.is_live(t) {
            return Err(TxError::Refused(Answer::NoSuch));
        }
        let cloned = live.clone_next(&self.log, &mut self.out, self.actor, k);
        live.is_sound();
        cloned
    }

    /// Completes a dependent clone, and does what is pending. (`DependentTransaction.Complete` of System.Transactions.)
    ///
    /// # Errors
    ///
    /// As of [`TransactionManager::rollback`].
    pub fn complete<O: ResourceManager>(
        &mut self,
        d: DependentTransaction,
        o: &mut O,
    ) -> Result<(), TxError>
        ensures goes { OnOk result (Goes D.faults D.honest D.image O.gives d.transaction (Complete d.clone) self.old self.new o.old o.new) }
        ensures heard { HeardAt D.honest D.image O.gives [] d.transaction self.old self.new o.old o.new }
        ensures refused { (a : Answer) → result ≡ Err (TxError.Refused a) → ((a ≡ NoSuch) × (live_at d.transaction self.old.lives ≡ None)) ⊎ IsRefused D.faults self.old.log d.transaction (Complete d.clone) a self.old.lives self.new.lives }
        ensures others { AreSame d.transaction self.old.lives self.new.lives }
        ensures time { KeepsTime self.old self.new }
    {
        let DependentTransaction { transaction, clone } = d;
        self.go(transaction, &Call::Complete(clone), o)
    }
}
