//! What a program holds of its transactions.
ghost use Rattle.std.specs.Prelude.{◌≡◌};
ghost use Rattle.std.specs.Option.{option_map};
ghost use Rattle.dtx_values.specs.TxIds.{number_of};
ghost use Rattle.resource_managers.specs.Pairs.{enlistment};

use dtx_values::{CloneNo, EnlNo, ScopeNo, TxId};
use resource_managers::Enlistment;

/// A transaction that its holder may commit. It can't be dropped: `TransactionManager::end` takes it back. (`CommittableTransaction` of System.Transactions.)
pub struct CommittableTransaction {
    pub(crate) number: TxId,
}

impl CommittableTransaction {
    /// The transaction: its epoch, and its number within that.
    pub fn number(&self) -> TxId
        ensures { result ≡ self.now.number }
    {
        self.number
    }

    /// The number for good, for a program that keeps numbers in place of handles. `TransactionManager::handle` gives the handle again.
    pub fn into_number(self) -> u64
        ensures { result ≡ number_of self.number }
    {
        let CommittableTransaction { number } = self;
        number.number()
    }

    /// The enlistment of this number in the transaction, whether or not there is one.
    pub fn enlistment(&self, number: EnlNo) -> Enlistment
        ensures { result ≡ enlistment self.now.number number }
    {
        Enlistment {
            transaction: self.number,
            number,
        }
    }
}

/// A dependent clone, which is to be completed: it can't be dropped. (`DependentTransaction` of System.Transactions.)
pub struct DependentTransaction {
    pub(crate) transaction: TxId,
    pub(crate) clone: CloneNo,
}

impl DependentTransaction {
    /// Its number in the transaction, for a program that keeps numbers in place of handles. `TransactionManager::begin_complete` completes it.
    pub fn into_number(self) -> CloneNo
        ensures { result ≡ self.clone }
    {
        let DependentTransaction {
            transaction: _,
            clone,
        } = self;
        clone
    }
}

/// A scope that is open, which is to be disposed: it can't be dropped. (`TransactionScope` of System.Transactions.)
pub struct TransactionScope {
    pub(crate) scope: ScopeNo,
    /// The transaction that it made or joined.
    pub(crate) transaction: Option<CommittableTransaction>,
    /// Whether it made it.
    pub(crate) is_made: bool,
}

impl TransactionScope {
    /// Its transaction; none where it suppresses the ambient one.
    pub fn transaction(&self) -> Option<&CommittableTransaction>
        ensures { option_map (λ x. x.now) result ≡ self.now.transaction }
    {
        self.transaction.as_ref()
    }
}

/// Whether a durable enlistment may own the commit.
#[derive(Clone, Copy, PartialEq, Eq, Debug)]
pub enum Phases {
    /// It prepares, and then commits. (`IEnlistmentNotification` of System.Transactions.)
    Two,
    /// It may also commit in a single phase, where it is the only one. (`ISinglePhaseNotification`.)
    Single,
}
