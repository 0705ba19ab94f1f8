//! Scopes.
ghost use Rattle.std.specs.Prelude.{◌≡◌, ◌≢◌, ◌≤◌, ◌⊎◌, ◌==◌, [], Option, Some, None, Ok, Err, IfOk, IfErr, OnOk, OnErr, true, false, is_some};
ghost use Rattle.dtx_values.specs.declared.entry.Answer.{Answer};
ghost use Rattle.dtx_values.specs.declared.entry.Answer.TheVariants.{Ended};
ghost use Rattle.dtx_values.specs.declared.tx_id.TxId.{TxId};
ghost use Rattle.dtx_values.specs.declared.words.Outcome.TheVariants.{Aborted};
ghost use Rattle.dtx_values.specs.Entered.{transaction_in};
ghost use Rattle.dtx_model.specs.Contexts.{asked_by};
ghost use Rattle.dtx_model.specs.Scopes.{beneath, close_answer, closing, is_scope, rolled_back};
ghost use Rattle.dtx_model.specs.Words.{has};
ghost use Rattle.scope_context.specs.Refusals.{enter_refusal};
ghost use Rattle.transactions.specs.Doing.{HeardAt, SparesNone};
ghost use Rattle.transactions.specs.Ending.{IsLeftAt};
ghost use Rattle.transactions.specs.Numbering.{MayNotBegin, NumbersLog};
ghost use Rattle.transactions.specs.Scoping.{AreSameBut, BeginsWhere, ConcludesAll, Fails, Finishes, IsOpened, IsRolledBack, MayNotOpen, Settles, SettlesBefore, WorksIn, ended_by, held_by, is_top, made_in, number_in};
ghost use Rattle.transactions.specs.Slots.{AreSame, KeepsClock, KeepsRest, KeepsTime, live_at};
ghost use Rattle.transactions.specs.Telling.{IsTold};

use super::TransactionManager;
use super::driving::commit_error;
use crate::ambient::{Ambient, isolation, place_of};
use crate::error::{CommitError, ScopeError, TxError, answer_of};
use crate::handle::{CommittableTransaction, TransactionScope};
use crate::work::Work;
use dtx_values::{
    Answer, Call, Closed, Entered, IsoWord, Outcome, ScopeNo, ScopeOption, Timeout, TxId,
};
use outside::{Clock, Disk};
use resource_managers::ResourceManager;
use scope_context::ScopeRefusal;

/// What a rollback says of a scope that isn't complete: the transaction aborted, where it was done, and where it had aborted already.
fn abandoned(r: Result<(), TxError>) -> Result<(), CommitError>
    ensures never { result ≢ Ok tt }
    ensures aborted { result ≡ Err CommitError.Aborted → (r ≡ Ok tt) ⊎ (r ≡ Err (TxError.Refused (Ended Aborted))) }
    ensures told { result ≢ Err CommitError.InDoubt }
{
    match r {
        Ok(()) => Err(CommitError::Aborted),
        Err(TxError::Refused(Answer::Ended(Outcome::Aborted))) => Err(CommitError::Aborted),
        Err(e) => Err(commit_error(e)),
    }
}

/// Why work in a scope isn't done that wasn't completed for this cause, and was disposed so.
fn incomplete(r: ScopeRefusal, disposed: Result<(), CommitError>) -> Result<(), CommitError>
    ensures { result ≢ Ok tt }
{
    match disposed {
        Ok(()) => Err(CommitError::Refused(answer_of(r))),
        Err(e) => Err(e),
    }
}

impl<D: Disk + Drop, C: Clock + Drop> TransactionManager<D, C> {
    /// Begins the transaction of a scope that makes one.
    fn make(&mut self, is_made: bool, t: Timeout) -> Result<Option<TxId>, TxError>
        ensures made { IfOk result (λ m. is_some m ≡ is_made) }
        ensures begun { IfOk result (λ m. BeginsWhere D.faults t m self.old self.new) }
        ensures others { IfOk result (λ m. AreSameBut m self.old.lives self.new.lives) }
        ensures refused { OnErr result (self.new.lives ≡ self.old.lives) }
        ensures log { NumbersLog D.honest D.image D.faults self.old.log self.new.log }
        ensures rises { self.old.last ≤ self.new.last }
        ensures time { KeepsClock self.old self.new }
        ensures cause { IfErr result (MayNotBegin D.faults self.old.log self.new.log self.old.lives) }
    {
        if !is_made {
            return Ok(None);
        }
        match self.begin(t) {
            Ok(CommittableTransaction { number }) => Ok(Some(number)),
            Err(e) => Err(e),
        }
    }

    /// Takes off the transaction of a scope that wasn't opened.
    fn unmake(&mut self, made: Option<TxId>)
        ensures gone { (t : TxId) → made ≡ Some t → live_at t self.new.lives ≡ None }
        ensures others { AreSameBut made self.old.lives self.new.lives }
        ensures rest { KeepsRest self.old self.new }
    {
        if let Some(t) = made {
            self.take_off(t);
        }
    }

    /// Opens a scope. Required joins the ambient transaction, or makes one where there is none; RequiresNew makes one; with Suppress the scope has none. The timeout
    /// counts where it makes one. (`new TransactionScope(option, options)` of System.Transactions.)
    ///
    /// # Errors
    ///
    /// - [`ScopeError::Refused`] where 64 scopes are open, or the isolation isn't that of the ambient transaction.
    /// - [`ScopeError::Begin`] where its transaction can't be begun, as of [`TransactionManager::begin`].
    pub fn open_scope(
        &mut self,
        a: &mut Ambient,
        k: ScopeOption,
        t: Timeout,
        i: IsoWord,
    ) -> Result<TransactionScope, ScopeError>
        ensures opened { IfOk result (λ s. IsOpened k (asked_by i) s self.new.lives a.old.scopes a.new.scopes) }
        ensures begun { IfOk result (λ s. BeginsWhere D.faults t (made_in s) self.old self.new) }
        ensures others { IfOk result (λ s. AreSameBut (made_in s) self.old.lives self.new.lives) }
        ensures allowed { OnOk result (enter_refusal k (asked_by i) a.old.scopes ≡ None) }
        ensures kept { OnErr result (a.new ≡ a.old) }
        ensures refused { OnErr result (AreSameBut None self.old.lives self.new.lives) }
        ensures cause { IfErr result (MayNotOpen D.faults k (asked_by i) a.old.scopes self.old self.new) }
        ensures log { NumbersLog D.honest D.image D.faults self.old.log self.new.log }
        ensures rises { self.old.last ≤ self.new.last }
        ensures time { KeepsClock self.old self.new }
    {
        let is_made = a.makes(k);
        let scope = match a.give() {
            Ok(scope) => scope,
            Err(e) => return Err(ScopeError::Begin(e)),
        };
        let made = match self.make(is_made, t) {
            Ok(made) => made,
            Err(e) => {
                a.take();
                return Err(ScopeError::Begin(e));
            }
        };
        match a.context.enter(scope, k, place_of(made), isolation(i)) {
            Ok(entered) => Ok(TransactionScope {
                scope,
                transaction: self.holding(made, entered),
                is_made,
            }),
            Err(e) => {
                a.take();
                self.unmake(made);
                Err(ScopeError::Refused(e))
            }
        }
    }

    /// The transaction of a scope, for its holder: the one that it made, or that goes on at the place of the one that it joined.
    fn holding(&self, made: Option<TxId>, x: Entered) -> Option<CommittableTransaction>
        ensures { number_in result ≡ held_by made self.now.lives (transaction_in x) }
    {
        if let Some(number) = made {
            return Some(CommittableTransaction { number });
        }
        match x.transaction() {
            Some(place) => Some(CommittableTransaction {
                number: self.at_place(place),
            }),
            None => None,
        }
    }

    /// Rolls back the transaction of a scope that isn't complete.
    fn abandon<O: ResourceManager>(&mut self, t: TxId, o: &mut O) -> Result<(), CommitError>
        ensures rolled { IsRolledBack D.faults D.honest D.image O.gives t result self.old self.new o.old o.new }
        ensures heard { HeardAt D.honest D.image O.gives [] t self.old self.new o.old o.new }
        ensures nobody { SparesNone t self.old self.new o.old o.new }
        ensures others { AreSame t self.old.lives self.new.lives }
        ensures time { KeepsTime self.old self.new }
    {
        let done = self.go(t, &Call::Rollback(t.t()), o);
        abandoned(done)
    }

    /// Rolls back the transactions of the scopes that a wrongly nested dispose closed.
    fn abandon_all<O: ResourceManager>(&mut self, a: &Ambient, o: &mut O)
        ensures steps { ConcludesAll D.honest D.image O.gives self.old self.new o.old o.new }
        ensures others { (u : TxId) → has (λ t. u.t.value == t.value) a.now.rolled ≡ false → live_at u self.new.lives ≡ live_at u self.old.lives }
        ensures time { KeepsTime self.old self.new }
    {
        for place in a.context.rolled() {
            let rolled = self.at_place(*place);
            self.has_run_at(rolled);
            let _ = self.abandon(rolled, o);
            self.has_run_at(rolled);
        }
    }

    /// Commits the transaction of a scope that is complete.
    fn conclude<O: ResourceManager>(&mut self, t: TxId, o: &mut O) -> Result<(), CommitError>
        ensures told { IsTold result (live_at t self.new.lives) }
        ensures heard { HeardAt D.honest D.image O.gives [] t self.old self.new o.old o.new }
        ensures nobody { SparesNone t self.old self.new o.old o.new }
        ensures others { AreSame t self.old.lives self.new.lives }
        ensures time { KeepsTime self.old self.new }
    {
        let tx = CommittableTransaction { number: t };
        let done = self.commit(&tx, o);
        let CommittableTransaction { number: _ } = tx;
        done
    }

    /// What closing a scope does to its transaction.
    fn settle<O: ResourceManager>(&mut self, x: Closed, o: &mut O) -> Result<(), CommitError>
        ensures steps { ConcludesAll D.honest D.image O.gives self.old self.new o.old o.new }
        ensures settled { Settles D.faults D.honest D.image O.gives x result self.old self.new o.old o.new }
        ensures others { AreSameBut (ended_by x self.old.lives) self.old.lives self.new.lives }
        ensures idle { x ≡ Closed.Nothing → self.new ≡ self.old }
        ensures time { KeepsTime self.old self.new }
    {
        match x {
            Closed::Nothing => Ok(()),
            Closed::Commit(place) => {
                let committed = self.at_place(place);
                self.has_run_at(committed);
                let done = self.conclude(committed, o);
                self.has_run_at(committed);
                done
            }
            Closed::Rollback(place) => {
                let t = self.at_place(place);
                self.has_run_at(t);
                let done = self.abandon(t, o);
                self.has_run_at(t);
                done
            }
        }
    }

    /// Closes a scope, with what is to be done with its transaction.
    fn close<O: ResourceManager>(
        &mut self,
        a: &mut Ambient,
        s: ScopeNo,
        o: &mut O,
    ) -> Result<(), CommitError>
        ensures steps { ConcludesAll D.honest D.image O.gives self.old self.new o.old o.new }
        ensures settled { is_top s.value a.old.scopes ≡ true → Settles D.faults D.honest D.image O.gives (closing a.old.scopes) result self.old self.new o.old o.new }
        ensures others { is_top s.value a.old.scopes ≡ true → AreSameBut (ended_by (closing a.old.scopes) self.old.lives) self.old.lives self.new.lives }
        ensures idle { is_top s.value a.old.scopes ≡ true → closing a.old.scopes ≡ Closed.Nothing → self.new ≡ self.old }
        ensures innermost { OnOk result (is_top s.value a.old.scopes ≡ true) }
        ensures wrong { is_top s.value a.old.scopes ≡ false → result ≡ Err (CommitError.Refused (close_answer s.value a.old.scopes)) }
        ensures nested { is_top s.value a.old.scopes ≡ false → (u : TxId) → has (λ t. u.t.value == t.value) (rolled_back s.value a.old.scopes) ≡ false → live_at u self.new.lives ≡ live_at u self.old.lives }
        ensures beneath { has (is_scope s.value) a.old.scopes ≡ true → a.new.scopes ≡ beneath s.value a.old.scopes }
        ensures unopened { has (is_scope s.value) a.old.scopes ≡ false → (a.new ≡ a.old) × (self.new ≡ self.old) × (o.new ≡ o.old) }
        ensures time { KeepsTime self.old self.new }
    {
        match a.context.close(s) {
            Ok(x) => self.settle(x, o),
            Err(ScopeRefusal::NestedWrongly(u)) => {
                self.abandon_all(a, o);
                Err(CommitError::Refused(Answer::Nested(u)))
            }
            Err(e) => Err(CommitError::Refused(answer_of(e))),
        }
    }

    /// The holder of a scope has it no more, nor the transaction that it made.
    fn let_go(&mut self, s: TransactionScope)
        ensures others { AreSameBut (made_in s) self.old.lives self.new.lives }
        ensures made { (t : TxId) → made_in s ≡ Some t → IsLeftAt t self.old.lives self.new.lives }
        ensures rest { KeepsRest self.old self.new }
    {
        let TransactionScope {
            scope: _,
            transaction,
            is_made,
        } = s;
        match transaction {
            Some(CommittableTransaction { number }) => {
                if is_made {
                    self.leave(number);
                }
            }
            None => (),
        }
    }

    /// Disposes a scope: one that is complete commits the transaction that it made; one that isn't rolls its transaction back, and that is
    /// [`CommitError::Aborted`]. (`TransactionScope.Dispose` of System.Transactions.)
    ///
    /// # Errors
    ///
    /// As of [`TransactionManager::commit`]; and [`CommitError::Refused`] where the scope isn't the innermost one: then the transactions of it and of all within it
    /// are rolled back.
    pub fn dispose<O: ResourceManager>(
        &mut self,
        a: &mut Ambient,
        s: TransactionScope,
        o: &mut O,
    ) -> Result<(), CommitError>
        ensures steps { ConcludesAll D.honest D.image O.gives self.old self.new o.old o.new }
        ensures settled { is_top s.scope.value a.old.scopes ≡ true → SettlesBefore D.faults D.honest D.image O.gives s (closing a.old.scopes) result self.old self.new o.old o.new }
        ensures others { is_top s.scope.value a.old.scopes ≡ true → (u : TxId) → ended_by (closing a.old.scopes) self.old.lives ≢ Some u → made_in s ≢ Some u → live_at u self.new.lives ≡ live_at u self.old.lives }
        ensures idle { is_top s.scope.value a.old.scopes ≡ true → closing a.old.scopes ≡ Closed.Nothing → KeepsRest self.old self.new }
        ensures innermost { OnOk result (is_top s.scope.value a.old.scopes ≡ true) }
        ensures wrong { is_top s.scope.value a.old.scopes ≡ false → result ≡ Err (CommitError.Refused (close_answer s.scope.value a.old.scopes)) }
        ensures nested { is_top s.scope.value a.old.scopes ≡ false → (u : TxId) → has (λ t. u.t.value == t.value) (rolled_back s.scope.value a.old.scopes) ≡ false → made_in s ≢ Some u → live_at u self.new.lives ≡ live_at u self.old.lives }
        ensures beneath { has (is_scope s.scope.value) a.old.scopes ≡ true → a.new.scopes ≡ beneath s.scope.value a.old.scopes }
        ensures unopened { has (is_scope s.scope.value) a.old.scopes ≡ false → (a.new ≡ a.old) × KeepsRest self.old self.new × (o.new ≡ o.old) }
        ensures time { KeepsTime self.old self.new }
    {
        a.take();
        let closed = self.close(a, s.scope, o);
        self.let_go(s);
        closed
    }

    /// Completes a scope, and disposes it in any case.
    fn complete_scope<O: ResourceManager>(
        &mut self,
        a: &mut Ambient,
        s: TransactionScope,
        o: &mut O,
    ) -> Result<(), CommitError>
        ensures steps { ConcludesAll D.honest D.image O.gives self.old self.new o.old o.new }
        ensures finishes { OnOk result (Finishes D.faults D.honest D.image O.gives s self.old self.new a.old.scopes a.new.scopes o.old o.new) }
        ensures time { KeepsTime self.old self.new }
    {
        let completed = a.context.complete(s.scope);
        let disposed = self.dispose(a, s, o);
        match completed {
            Ok(()) => disposed,
            Err(e) => incomplete(e, disposed),
        }
    }

    /// Ends the work in a scope: where it was Ok the scope is completed, and it is disposed in any case.
    ///
    /// # Errors
    ///
    /// That of the work; else as of [`TransactionScope::complete`] and [`TransactionManager::dispose`].
    pub fn finish<T: Drop, O: ResourceManager>(
        &mut self,
        a: &mut Ambient,
        s: TransactionScope,
        worked: Result<T, CommitError>,
        o: &mut O,
    ) -> Result<T, CommitError>
        ensures work { IfOk result (λ x. worked ≡ Ok x) }
        ensures steps { ConcludesAll D.honest D.image O.gives self.old self.new o.old o.new }
        ensures finishes { OnOk result (Finishes D.faults D.honest D.image O.gives s self.old self.new a.old.scopes a.new.scopes o.old o.new) }
        ensures error { IfErr worked (λ e. result ≡ Err e) }
        ensures fails { OnErr worked (Fails D.faults D.honest D.image O.gives s self.old self.new a.old.scopes o.old o.new) }
        ensures time { KeepsTime self.old self.new }
    {
        match worked {
            Ok(x) => match self.complete_scope(a, s, o) {
                Ok(()) => Ok(x),
                Err(e) => Err(e),
            },
            Err(e) => {
                let _ = self.dispose(a, s, o);
                Err(e)
            }
        }
    }

    /// Does work in a scope: where it is Ok the scope is completed, and it is disposed in any case.
    ///
    /// # Errors
    ///
    /// That of the work; else as of [`TransactionManager::open_scope`] and [`TransactionManager::finish`].
    pub fn in_scope<T, O, W>(
        &mut self,
        a: &mut Ambient,
        k: ScopeOption,
        t: Timeout,
        i: IsoWord,
        o: &mut O,
        w: W,
    ) -> Result<T, CommitError>
    where
        T: Drop,
        O: ResourceManager,
        W: Work<D, C, O, T>,
        ensures { IfOk result (λ x. WorksIn D.faults D.honest D.image O.gives (W.does w) k t (asked_by i) x self.old self.new a.old a.new o.old o.new) }
    {
        let s = match self.open_scope(a, k, t, i) {
            Ok(s) => s,
            Err(e) => return Err(CommitError::from(e)),
        };
        let worked = w.run(self, a, &s, o);
        self.finish(a, s, worked, o)
    }
}
