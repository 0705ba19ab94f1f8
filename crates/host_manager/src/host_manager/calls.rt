//! The calls of a transaction, by its number for good.
ghost use Rattle.dtx_values.specs.declared.call.Call.TheVariants.{Commit, Complete, Gone, Rollback, Tick};
ghost use Rattle.host_manager.specs.Calls.{ClonesBy, EnlistsBy, EntersBy, IdentifiesBy, TakesBy, entered_by};
ghost use Rattle.host_manager.specs.Host.{KeepsManager, faults};
ghost use Rattle.transactions.specs.Doing.{Enters};
ghost use Rattle.transactions.specs.Slots.{AreSame};
ghost use Rattle.transactions.specs.declared.kind.Kind.TheVariants.{Durable, Volatile};

use super::HostManager;
use crate::host_call::HostCall;
use crate::results::{clone_in, number_in, taken_in};
use dtx_values::{Answer, CloneKind, CloneNo, EnlNo, EnlistOption, RmNo};
use transactions::{CommittableTransaction, Phases, TxError};

impl HostManager {
    /// Enlists a volatile resource; its number in the transaction ([`TransactionManager::enlist_volatile`]).
    ///
    /// # Errors
    ///
    /// As there; [`TxError::Refused`] with `NoSuch` also where no transaction of this number goes on.
    ///
    /// [`TransactionManager::enlist_volatile`]: transactions::TransactionManager::enlist_volatile
    pub fn enlist_volatile(&mut self, number: u64, k: EnlistOption) -> Result<EnlNo, TxError>
        ensures { EnlistsBy number (Volatile k) self.old self.new result }
    {
        let Some(tx) = self.manager.handle(number) else {
            return Err(TxError::Refused(Answer::NoSuch));
        };
        let enlisted = self.manager.enlist_volatile(&tx, k);
        let _ = tx.into_number();
        number_in(enlisted)
    }

    /// Enlists a durable resource; its number in the transaction ([`TransactionManager::begin_enlist_durable`]).
    ///
    /// # Errors
    ///
    /// As of [`HostManager::enlist_volatile`].
    ///
    /// [`TransactionManager::begin_enlist_durable`]: transactions::TransactionManager::begin_enlist_durable
    pub fn enlist_durable(&mut self, number: u64, rm: RmNo, p: Phases) -> Result<EnlNo, TxError>
        ensures { EnlistsBy number (Durable rm p) self.old self.new result }
    {
        let Some(tx) = self.manager.handle(number) else {
            return Err(TxError::Refused(Answer::NoSuch));
        };
        let enlisted = self.manager.begin_enlist_durable(&tx, rm, p);
        let _ = tx.into_number();
        number_in(enlisted)
    }

    /// Enlists a resource that owns the commit; its number in the transaction, or none where another resource is enlisted already
    /// ([`TransactionManager::begin_enlist_promotable`]).
    ///
    /// # Errors
    ///
    /// As of [`HostManager::enlist_volatile`].
    ///
    /// [`TransactionManager::begin_enlist_promotable`]: transactions::TransactionManager::begin_enlist_promotable
    pub fn enlist_promotable(&mut self, number: u64, rm: RmNo) -> Result<Option<EnlNo>, TxError>
        ensures { TakesBy number rm self.old self.new result }
    {
        let Some(tx) = self.manager.handle(number) else {
            return Err(TxError::Refused(Answer::NoSuch));
        };
        let enlisted = self.manager.begin_enlist_promotable(&tx, rm);
        let _ = tx.into_number();
        taken_in(enlisted)
    }

    /// Makes a dependent clone; its number in the transaction ([`TransactionManager::dependent_clone`]).
    ///
    /// # Errors
    ///
    /// As of [`HostManager::enlist_volatile`].
    ///
    /// [`TransactionManager::dependent_clone`]: transactions::TransactionManager::dependent_clone
    pub fn dependent_clone(&mut self, number: u64, k: CloneKind) -> Result<CloneNo, TxError>
        ensures { ClonesBy number k self.old self.new result }
    {
        let Some(tx) = self.manager.handle(number) else {
            return Err(TxError::Refused(Answer::NoSuch));
        };
        let cloned = self.manager.dependent_clone(&tx, k);
        let _ = tx.into_number();
        clone_in(cloned)
    }

    /// The identifier of a transaction; none where it is to be promoted first, as it then is: ask again once nothing comes next ([`TransactionManager::begin_identifier`]).
    ///
    /// # Errors
    ///
    /// As of [`HostManager::enlist_volatile`].
    ///
    /// [`TransactionManager::begin_identifier`]: transactions::TransactionManager::begin_identifier
    pub fn identifier(&mut self, number: u64) -> Result<Option<u128>, TxError>
        ensures { IdentifiesBy number self.old self.new result }
    {
        let Some(tx) = self.manager.handle(number) else {
            return Err(TxError::Refused(Answer::NoSuch));
        };
        let identified = self.manager.begin_identifier(&tx);
        let _ = tx.into_number();
        identified
    }

    // Enters a call of a transaction.
    fn pass(&mut self, tx: &CommittableTransaction, call: HostCall) -> Result<(), TxError>
        ensures entered { Enters faults self.old.manager.log tx.now.number (entered_by call tx.now.number) self.old.manager.lives self.new.manager.lives result }
        ensures others { AreSame tx.now.number self.old.manager.lives self.new.manager.lives }
        ensures rest { KeepsManager self.old self.new }
    {
        match call {
            HostCall::Complete(clone) => self.manager.begin_complete(tx, clone),
            HostCall::Commit => self.manager.begin_commit(tx),
            HostCall::Rollback => self.manager.begin_rollback(tx),
            HostCall::Tick(milliseconds) => self.manager.tick(tx, milliseconds),
            HostCall::Lost(e) => self.manager.begin_lost(tx.enlistment(e)),
        }
    }

    // Enters a call of the transaction of this number.
    fn enter(&mut self, number: u64, call: HostCall) -> Result<(), TxError>
        ensures { EntersBy number (entered_by call) self.old self.new result }
    {
        let Some(tx) = self.manager.handle(number) else {
            return Err(TxError::Refused(Answer::NoSuch));
        };
        let entered = self.pass(&tx, call);
        let _ = tx.into_number();
        entered
    }

    /// Completes a dependent clone ([`TransactionManager::begin_complete`]).
    ///
    /// # Errors
    ///
    /// As of [`HostManager::enlist_volatile`].
    ///
    /// [`TransactionManager::begin_complete`]: transactions::TransactionManager::begin_complete
    pub fn complete(&mut self, number: u64, clone: CloneNo) -> Result<(), TxError>
        ensures { EntersBy number (λ t. Complete clone) self.old self.new result }
    {
        self.enter(number, HostCall::Complete(clone))
    }

    /// Asks for the commit of a transaction ([`TransactionManager::begin_commit`]). What comes of it is in [`HostManager::next`].
    ///
    /// # Errors
    ///
    /// As of [`HostManager::enlist_volatile`].
    ///
    /// [`TransactionManager::begin_commit`]: transactions::TransactionManager::begin_commit
    pub fn commit(&mut self, number: u64) -> Result<(), TxError>
        ensures { EntersBy number (λ t. Commit t.t) self.old self.new result }
    {
        self.enter(number, HostCall::Commit)
    }

    /// Asks for the rollback of a transaction ([`TransactionManager::begin_rollback`]).
    ///
    /// # Errors
    ///
    /// As of [`HostManager::enlist_volatile`].
    ///
    /// [`TransactionManager::begin_rollback`]: transactions::TransactionManager::begin_rollback
    pub fn rollback(&mut self, number: u64) -> Result<(), TxError>
        ensures { EntersBy number (λ t. Rollback t.t) self.old self.new result }
    {
        self.enter(number, HostCall::Rollback)
    }

    /// Time goes on in a transaction, by so many milliseconds ([`TransactionManager::tick`]).
    ///
    /// # Errors
    ///
    /// As of [`HostManager::enlist_volatile`].
    ///
    /// [`TransactionManager::tick`]: transactions::TransactionManager::tick
    pub fn tick(&mut self, number: u64, milliseconds: u32) -> Result<(), TxError>
        ensures { EntersBy number (λ t. Tick t.t milliseconds) self.old self.new result }
    {
        self.enter(number, HostCall::Tick(milliseconds))
    }

    /// The connection of an enlistment is lost ([`TransactionManager::begin_lost`]).
    ///
    /// # Errors
    ///
    /// As of [`HostManager::enlist_volatile`].
    ///
    /// [`TransactionManager::begin_lost`]: transactions::TransactionManager::begin_lost
    pub fn lost(&mut self, number: u64, e: EnlNo) -> Result<(), TxError>
        ensures { EntersBy number (λ t. Gone e) self.old self.new result }
    {
        self.enter(number, HostCall::Lost(e))
    }
}
