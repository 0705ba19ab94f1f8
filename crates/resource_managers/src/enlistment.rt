//! Enlistments.
ghost use Rattle.std.specs.Prelude.{◌≡◌};
ghost use Rattle.resource_managers.specs.Pairs.{enlistment};

use dtx_values::{EnlNo, TxId};

/// An enlistment: its transaction, and its number there.
#[derive(Clone, Copy, PartialEq, Eq, Debug)]
pub struct Enlistment {
    /// Its transaction.
    pub transaction: TxId,
    /// Its number in the transaction.
    pub number: EnlNo,
}

impl Enlistment {
    /// The enlistment of this number in a transaction, whether or not there is one.
    pub fn new(transaction: TxId, number: EnlNo) -> Enlistment
        ensures { result ≡ enlistment transaction number }
    {
        Enlistment {
            transaction,
            number,
        }
    }

    /// Its transaction.
    pub fn transaction(self) -> TxId
        ensures { result ≡ self.transaction }
    {
        self.transaction
    }

    /// Its number in the transaction.
    pub fn number(self) -> EnlNo
        ensures { result ≡ self.number }
    {
        self.number
    }
}
