//! The scopes of a context.
ghost use Rattle.std.specs.Prelude.{◌≡◌};
ghost use Rattle.dtx_values.specs.Entered.{transaction_in};

use crate::number::{ScopeNo, TxNo};
use crate::words::Iso;

/// What a scope has of a transaction when it is opened. (`TransactionScope` of System.Transactions.)
#[derive(Clone, Copy, PartialEq, Eq, Debug)]
pub enum Entered {
    /// It made this transaction.
    Made(TxNo),
    /// It joined this one, which was the ambient transaction.
    Joined(TxNo),
    /// It has none.
    NoTx,
}

impl Entered {
    /// The transaction that the scope has.
    pub fn transaction(self) -> Option<TxNo>
        ensures { result ≡ transaction_in self }
    {
        match self {
            Entered::Made(t) | Entered::Joined(t) => Some(t),
            Entered::NoTx => None,
        }
    }
}

/// What is to be done with a scope's transaction when it is closed.
#[derive(Clone, Copy, PartialEq, Eq, Debug)]
pub enum Closed {
    Commit(TxNo),
    Rollback(TxNo),
    Nothing,
}

/// A scope that is open.
#[derive(Clone, Copy, PartialEq, Eq, Debug)]
pub struct OpenScope {
    pub scope: ScopeNo,
    pub entered: Entered,
    /// The isolation that it asked for: that of its transaction, where it made one.
    pub isolation: Iso,
    pub complete: bool,
}
