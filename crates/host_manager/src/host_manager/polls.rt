//! What comes next in a transaction, and its end.
ghost use Rattle.host_manager.specs.Polls.{Ends, GoesOn, Replies, SaysTold};

use super::HostManager;
use crate::error::HostError;
use crate::results::{ended_in, replied_in};
use dtx_values::{Answer, EnlNo, Outcome, Reply};
use transactions::{Next, TxError};

impl HostManager {
    /// What comes next in a transaction; first the disk, where something is asked of it ([`TransactionManager::poll`]).
    ///
    /// # Errors
    ///
    /// As there.
    ///
    /// [`TransactionManager::poll`]: transactions::TransactionManager::poll
    pub fn next(&mut self, number: u64) -> Result<Next, TxError>
        ensures { GoesOn number self.old self.new result }
    {
        let Some(tx) = self.manager.handle(number) else {
            return Err(TxError::Refused(Answer::NoSuch));
        };
        let next = self.manager.poll(&tx);
        self.manager.is_lawful(&tx);
        let _ = tx.into_number();
        next
    }

    /// The reply of an enlistment ([`TransactionManager::answer`]).
    ///
    /// # Errors
    ///
    /// - [`HostError::Unasked`] exactly where no such reply is due.
    /// - [`HostError::Call`] with the manager's error.
    ///
    /// [`TransactionManager::answer`]: transactions::TransactionManager::answer
    pub fn reply(&mut self, number: u64, e: EnlNo, r: Reply) -> Result<(), HostError>
        ensures { Replies number e r self.old self.new result }
    {
        let Some(tx) = self.manager.handle(number) else {
            return Err(HostError::Call(TxError::Refused(Answer::NoSuch)));
        };
        let replied = self.manager.answer(tx.enlistment(e), r);
        let _ = tx.into_number();
        replied_in(replied)
    }

    /// What the client of a transaction was told.
    ///
    /// # Errors
    ///
    /// - [`HostError::Disk`] where something is asked of the disk: what is told may not be ahead of it.
    /// - [`HostError::Call`] where no transaction of this number goes on.
    pub fn told(&self, number: u64) -> Result<Option<Outcome>, HostError>
        ensures { SaysTold number self.now result }
    {
        if !self.is_quiet() {
            return Err(HostError::Disk);
        }
        let Some(tx) = self.manager.handle(number) else {
            return Err(HostError::Call(TxError::Refused(Answer::NoSuch)));
        };
        let told = self.manager.told(&tx);
        self.manager.is_lawful(&tx);
        let _ = tx.into_number();
        Ok(told)
    }

    /// Ends a transaction of which nothing is left to do ([`TransactionManager::end`]).
    ///
    /// # Errors
    ///
    /// - [`HostError::Live`] exactly where something is left to do.
    /// - [`HostError::Call`] where no transaction of this number goes on.
    ///
    /// [`TransactionManager::end`]: transactions::TransactionManager::end
    pub fn end(&mut self, number: u64) -> Result<(), HostError>
        ensures { Ends number self.old self.new result }
    {
        let Some(tx) = self.manager.handle(number) else {
            return Err(HostError::Call(TxError::Refused(Answer::NoSuch)));
        };
        ended_in(self.manager.end(tx))
    }
}
