//! Doing what is pending, with the objects' replies.
ghost use Rattle.std.specs.Prelude.{ℕ, ◌≡◌, ◌≢◌, ◌⊎◌, ◌≤◌, ◌∷◌, ◌++◌, List, [], Option, Some, None, Ok, Err, IfOk, IfErr, OnOk, OnErr, true, false, length, max};
ghost use Rattle.dtx_values.specs.declared.call.Call.TheVariants.{Commit as CommitCall, Gone, Rollback as RollbackCall};
ghost use Rattle.dtx_values.specs.declared.entry.Answer.{Answer};
ghost use Rattle.dtx_values.specs.declared.entry.Answer.TheVariants.{NoSuch};
ghost use Rattle.dtx_values.specs.declared.entry.Entry.{Entry};
ghost use Rattle.dtx_model.specs.Caused.{made_by};
ghost use Rattle.dtx_model.specs.Entries.{is_commit};
ghost use Rattle.dtx_model.specs.Replies.{reply_entries};
ghost use Rattle.dtx_model.specs.Words.{has, onto};
ghost use Rattle.dtx_model.specs.World.{half};
ghost use Rattle.transactions.specs.Counting.{is_plain};
ghost use Rattle.transactions.specs.Doing.{Enters, Goes, HeardAt, IsRefused, MayFail, SparesNone, is_due};
ghost use Rattle.transactions.specs.Events.{note_in};
ghost use Rattle.transactions.specs.Hearing.{HearsNote, Writes, given_of};
ghost use Rattle.transactions.specs.Slots.{AreSame, KeepsRest, KeepsTime, live_at};
ghost use Rattle.transactions.specs.State.{LiveState, past};
ghost use Rattle.transactions.specs.Telling.{IsTold, Waiting, aborted_by, is_full, told};
ghost use Rattle.transactions.specs.Waiting.{AllAsked};

use super::{TransactionManager, index};
use crate::error::{CommitError, TxError};
use crate::event::Event;
use crate::handle::CommittableTransaction;
use dtx_values::{Answer, Call, EnlNo, Outcome, Reply, TxId};
use outside::{Clock, Disk};
use resource_managers::{Enlistment, ResourceManager};

/// The objects hear what an event says to an enlistment; its reply.
fn tell<O: ResourceManager>(o: &mut O, x: Event) -> Option<(EnlNo, Reply)>
    ensures { HearsNote O.gives (note_in x) o.old (given_of result) o.new }
{
    let (e, n) = x.note()?;
    let r = o.on(e, n)?;
    Some((e.number, r))
}

/// Why a commit isn't done, where its call or what was pending wasn't.
pub(super) fn commit_error(e: TxError) -> CommitError
    ensures refused { (a : Answer) → result ≡ CommitError.Refused a → e ≡ TxError.Refused a }
    ensures waits { result ≡ CommitError.Waits → e ≡ TxError.Waits }
    ensures told { (result ≢ CommitError.Aborted) × (result ≢ CommitError.InDoubt) }
    ensures full { result ≡ CommitError.LogFull → e ≡ TxError.LogFull }
{
    CommitError::from(e)
}

impl<D: Disk + Drop, C: Clock + Drop> TransactionManager<D, C> {
    /// The reply of an enlistment, for a program that asks what comes next; false exactly where none is due, or it doesn't fit.
    ///
    /// # Errors
    ///
    /// As of [`TransactionManager::next`].
    pub fn answer(&mut self, e: Enlistment, r: Reply) -> Result<bool, TxError>
        ensures due { IfOk result (λ b. (x : LiveState) → live_at e.transaction self.old.lives ≡ Some x → b ≡ is_due e.number r x) }
        ensures replied { result ≡ Ok true → (x : LiveState) → live_at e.transaction self.old.lives ≡ Some x
            → (y : LiveState) × (live_at e.transaction self.new.lives ≡ Some y) × Writes ((e.number, r) ∷ []) x y × (y ≡ record x { tx = y.tx })
            × (es : List Entry) × (past y ≡ onto (onto (past x) (reply_entries (half x.tx.world) e.number r)) es) }
        ensures unchanged { result ≡ Ok false → live_at e.transaction self.new.lives ≡ live_at e.transaction self.old.lives }
        ensures failed { OnErr result (live_at e.transaction self.new.lives ≡ live_at e.transaction self.old.lives) }
        ensures others { AreSame e.transaction self.old.lives self.new.lives }
        ensures rest { KeepsRest self.old self.new }
        ensures cause { IfErr result (λ x. (x ≡ TxError.Memory) ⊎ ((x ≡ TxError.Refused NoSuch) × (live_at e.transaction self.old.lives ≡ None))) }
    {
        let Some(live) = self.lives.get_mut(index(e.transaction)) else {
            return Err(TxError::Refused(Answer::NoSuch));
        };
        if !live.is_live(e.transaction) {
            return Err(TxError::Refused(Answer::NoSuch));
        }
        let replied = live.reply(&self.log, &mut self.out, e.number, r);
        live.is_sound();
        replied
    }

    /// What was heard of a transaction is within its history. It does nothing when it runs.
    pub(super) fn is_within(&self, t: TxId)
        ensures { (x : LiveState) → live_at t self.now.lives ≡ Some x → x.heard ≤ length (past x) }
    {
        if let Some(live) = self.live(t) {
            live.is_sound();
        }
    }

    /// A transaction that isn't decided waits for something. It does nothing when it runs.
    fn is_waiting(&self, t: TxId)
        ensures { (x : LiveState) → live_at t self.now.lives ≡ Some x → told x ≡ None → has is_commit (past x) ≡ true → AllAsked x.tx.world → Waiting x }
    {
        if let Some(live) = self.live(t) {
            live.is_waiting();
        }
    }

    /// Does what is pending in a transaction: the objects hear what its history says to their enlistments, and their replies are given.
    pub(super) fn drive<O: ResourceManager>(&mut self, t: TxId, o: &mut O) -> Result<(), TxError>
        ensures heard { HeardAt D.honest D.image O.gives [] t self.old self.new o.old o.new }
        ensures nobody { SparesNone t self.old self.new o.old o.new }
        ensures all { OnOk result ((z : LiveState) → live_at t self.new.lives ≡ Some z → (z.heard ≡ length (past z)) × AllAsked z.tx.world) }
        ensures others { AreSame t self.old.lives self.new.lives }
        ensures time { KeepsTime self.old self.new }
        ensures cause { IfErr result (λ e. (e ≡ TxError.Memory) ⊎ ((e ≡ TxError.Refused NoSuch) × (live_at t self.old.lives ≡ None))) }
    {
        if self.live(t).is_none() {
            return Err(TxError::Refused(Answer::NoSuch));
        }
        let mut count: u64 = 0;
        while count < u64::MAX {
            let Some(event) = self.next_in(t)? else {
                return Ok(());
            };
            self.is_within(t);
            if let Some((number, r)) = tell(o, event) {
                let e = Enlistment {
                    transaction: t,
                    number,
                };
                self.answer(e, r)?;
            }
            count += 1;
        }
        Err(TxError::Memory)
    }

    /// Asks for the commit of a transaction, for a program that asks what comes next. (`BeginCommit` of System.Transactions.)
    ///
    /// # Errors
    ///
    /// As of [`TransactionManager::commit`], where the call wasn't done.
    pub fn begin_commit(&mut self, tx: &CommittableTransaction) -> Result<(), TxError>
        ensures entered { Enters D.faults self.old.log tx.now.number (CommitCall tx.now.number.t) self.old.lives self.new.lives result }
        ensures others { AreSame tx.now.number self.old.lives self.new.lives }
        ensures rest { KeepsRest self.old self.new }
    {
        let t = tx.number;
        self.enter(t, &Call::Commit(t.t()))
    }

    /// Asks for the rollback of a transaction, for a program that asks what comes next.
    ///
    /// # Errors
    ///
    /// As of [`TransactionManager::rollback`].
    pub fn begin_rollback(&mut self, tx: &CommittableTransaction) -> Result<(), TxError>
        ensures entered { Enters D.faults self.old.log tx.now.number (RollbackCall tx.now.number.t) self.old.lives self.new.lives result }
        ensures others { AreSame tx.now.number self.old.lives self.new.lives }
        ensures rest { KeepsRest self.old self.new }
    {
        let t = tx.number;
        self.enter(t, &Call::Rollback(t.t()))
    }

    /// Commits a transaction, and does what is pending and no more. (`Commit` of System.Transactions.)
    ///
    /// # Errors
    ///
    /// - [`CommitError::LogFull`] exactly where the client was told that it aborted, and the log was full when the commit was to be recorded.
    /// - [`CommitError::Aborted`], [`CommitError::InDoubt`] exactly where else the client was told so.
    /// - [`CommitError::Waits`] where it isn't decided yet: a blocking clone is open, or an object put off its reply. `reply`, `complete` and `pump` go on.
    /// - [`CommitError::Refused`] where the transaction refused the call, or is none of this manager's.
    /// - [`CommitError::Many`], [`CommitError::Memory`] as in [`TxError`].
    pub fn commit<O: ResourceManager>(
        &mut self,
        tx: &CommittableTransaction,
        o: &mut O,
    ) -> Result<(), CommitError>
        ensures told { IsTold result (live_at tx.now.number self.new.lives) }
        ensures heard { HeardAt D.honest D.image O.gives [] tx.now.number self.old self.new o.old o.new }
        ensures nobody { SparesNone tx.now.number self.old self.new o.old o.new }
        ensures refused { (a : Answer) → result ≡ Err (CommitError.Refused a) → ((a ≡ NoSuch) × (live_at tx.now.number self.old.lives ≡ None)) ⊎ IsRefused D.faults self.old.log tx.now.number (CommitCall tx.now.number.t) a self.old.lives self.new.lives }
        ensures others { AreSame tx.now.number self.old.lives self.new.lives }
        ensures time { KeepsTime self.old self.new }
    {
        let t = tx.number;
        if let Err(e) = self.begin_commit(tx) {
            return Err(commit_error(e));
        }
        self.is_within(t);
        if let Err(e) = self.drive(t, o) {
            return Err(commit_error(e));
        }
        self.is_waiting(t);
        match self.told(tx) {
            Some(Outcome::Committed) => Ok(()),
            Some(Outcome::Aborted) => Err(self.aborted(t)),
            Some(Outcome::InDoubt) => Err(CommitError::InDoubt),
            None => Err(CommitError::Waits),
        }
    }

    /// Why a transaction aborted whose commit was asked for.
    fn aborted(&self, t: TxId) -> CommitError
        ensures aborted { (x : LiveState) → live_at t self.now.lives ≡ Some x → result ≡ aborted_by (has is_full (past x)) }
        ensures only { (result ≡ CommitError.Aborted) ⊎ (result ≡ CommitError.LogFull) }
    {
        match self.live(t) {
            Some(live) if live.is_log_full() => CommitError::LogFull,
            _ => CommitError::Aborted,
        }
    }

    /// Enters a call that makes nothing, and does what is pending.
    pub(super) fn go<O: ResourceManager>(
        &mut self,
        t: TxId,
        c: &Call,
        o: &mut O,
    ) -> Result<(), TxError>
        requires plain { is_plain c.now ≡ true }
        requires makes { made_by c.now ≡ None }
        ensures goes { OnOk result (Goes D.faults D.honest D.image O.gives t c.now self.old self.new o.old o.new) }
        ensures heard { HeardAt D.honest D.image O.gives [] t self.old self.new o.old o.new }
        ensures nobody { SparesNone t self.old self.new o.old o.new }
        ensures refused { (a : Answer) → result ≡ Err (TxError.Refused a) → ((a ≡ NoSuch) × (live_at t self.old.lives ≡ None)) ⊎ IsRefused D.faults self.old.log t c.now a self.old.lives self.new.lives }
        ensures others { AreSame t self.old.lives self.new.lives }
        ensures time { KeepsTime self.old self.new }
    {
        self.enter(t, c)?;
        self.is_within(t);
        self.drive(t, o)
    }

    /// Rolls a transaction back. (`Rollback` of System.Transactions.)
    ///
    /// # Errors
    ///
    /// - [`TxError::Refused`] exactly where the transaction refused the call, or is none of this manager's.
    /// - [`TxError::Many`], [`TxError::Memory`] as there.
    pub fn rollback<O: ResourceManager>(
        &mut self,
        tx: &CommittableTransaction,
        o: &mut O,
    ) -> Result<(), TxError>
        ensures goes { OnOk result (Goes D.faults D.honest D.image O.gives tx.now.number (RollbackCall tx.now.number.t) self.old self.new o.old o.new) }
        ensures heard { HeardAt D.honest D.image O.gives [] tx.now.number self.old self.new o.old o.new }
        ensures refused { (a : Answer) → result ≡ Err (TxError.Refused a) → ((a ≡ NoSuch) × (live_at tx.now.number self.old.lives ≡ None)) ⊎ IsRefused D.faults self.old.log tx.now.number (RollbackCall tx.now.number.t) a self.old.lives self.new.lives }
        ensures others { AreSame tx.now.number self.old.lives self.new.lives }
        ensures time { KeepsTime self.old self.new }
    {
        let t = tx.number;
        self.go(t, &Call::Rollback(t.t()), o)
    }

    /// The reply that an object put off; false exactly where none is due, or it doesn't fit.
    ///
    /// # Errors
    ///
    /// As of [`TransactionManager::next`].
    pub fn reply<O: ResourceManager>(
        &mut self,
        e: Enlistment,
        r: Reply,
        o: &mut O,
    ) -> Result<bool, TxError>
        ensures due { IfOk result (λ b. (x : LiveState) → live_at e.transaction self.old.lives ≡ Some x → b ≡ is_due e.number r x) }
        ensures replied { result ≡ Ok true → (x : LiveState) → live_at e.transaction self.old.lives ≡ Some x
            → (z : LiveState) × (live_at e.transaction self.new.lives ≡ Some z) × (es : List Entry) × (past z ≡ onto (onto (past x) (reply_entries (half x.tx.world) e.number r)) es) }
        ensures heard { HeardAt D.honest D.image O.gives ((e.number, r) ∷ []) e.transaction self.old self.new o.old o.new }
        ensures others { AreSame e.transaction self.old.lives self.new.lives }
        ensures time { KeepsTime self.old self.new }
        ensures cause { IfErr result (λ x. (x ≡ TxError.Memory) ⊎ ((x ≡ TxError.Refused NoSuch) × (live_at e.transaction self.old.lives ≡ None))) }
    {
        let is_done = self.answer(e, r)?;
        self.is_within(e.transaction);
        self.drive(e.transaction, o)?;
        Ok(is_done)
    }

    /// The connection of an enlistment is lost.
    ///
    /// # Errors
    ///
    /// As of [`TransactionManager::rollback`].
    pub fn lost<O: ResourceManager>(&mut self, e: Enlistment, o: &mut O) -> Result<(), TxError>
        ensures goes { OnOk result (Goes D.faults D.honest D.image O.gives e.transaction (Gone e.number) self.old self.new o.old o.new) }
        ensures heard { HeardAt D.honest D.image O.gives [] e.transaction self.old self.new o.old o.new }
        ensures refused { (a : Answer) → result ≡ Err (TxError.Refused a) → ((a ≡ NoSuch) × (live_at e.transaction self.old.lives ≡ None)) ⊎ IsRefused D.faults self.old.log e.transaction (Gone e.number) a self.old.lives self.new.lives }
        ensures others { AreSame e.transaction self.old.lives self.new.lives }
        ensures time { KeepsTime self.old self.new }
    {
        self.go(e.transaction, &Call::Gone(e.number), o)
    }
}
