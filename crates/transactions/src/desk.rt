//! Which resource managers have recovered.
ghost use Rattle.std.specs.Prelude.{◌≡◌, ◌++◌, ◌∷◌, [], List, IfErr, OnOk};
ghost use Rattle.dtx_values.specs.declared.number.RmNo.{RmNo};
ghost use Rattle.dtx_model.specs.Log.{record_of};
ghost use Rattle.transactions.specs.Recovering.{has_recovered, is_covered};

use crate::error::TxError;
use dtx_values::{LogRecord, RmNo};
use std::alloc::Global;
use std::marker::Model;

/// The resource managers that have recovered since a log was opened, in the order in which they said so: [`TransactionManager::recovery_complete`] adds one. A manager over a
/// log begins with an empty desk.
///
/// A clause sees it as the list of their numbers.
///
/// [`TransactionManager::recovery_complete`]: crate::TransactionManager::recovery_complete
#[derive(Drop)]
pub struct RecoveryDesk {
    recovered: Vec<RmNo>,
}

impl Model for RecoveryDesk {
    ghost use Rattle.std.specs.Prelude.{List};
    ghost use Rattle.dtx_values.specs.declared.number.RmNo.{RmNo};

    ghost Value = { List RmNo };

    ghost view = { λ d. d.recovered.items };
}

impl RecoveryDesk {
    /// No manager has recovered.
    pub fn new(alloc: Global) -> RecoveryDesk
        ensures { result ≡ [] }
    {
        RecoveryDesk {
            recovered: Vec::new(alloc),
        }
    }

    /// This manager has recovered.
    pub(crate) fn add(&mut self, r: RmNo) -> Result<(), TxError>
        ensures added { OnOk result (self.new ≡ self.old ++ r ∷ []) }
        ensures memory { IfErr result (λ e. (e ≡ TxError.Memory) × (self.new ≡ self.old)) }
    {
        match self.recovered.push(r) {
            Ok(()) => Ok(()),
            Err(_) => Err(TxError::Memory),
        }
    }

    /// The manager that was added last hasn't recovered.
    pub(crate) fn take_back(&mut self)
        ensures { (ms : List RmNo) (r : RmNo) → self.old ≡ ms ++ r ∷ [] → self.new ≡ ms }
    {
        self.recovered.pop();
    }

    /// Whether this manager has recovered.
    pub fn has(&self, r: RmNo) -> bool
        ensures { result ≡ has_recovered r.value self.now }
    {
        self.recovered.iter().any(|m| m.get() == r.get())
    }

    /// Whether each manager that the record names has recovered.
    pub(crate) fn covers(&self, r: &LogRecord) -> bool
        ensures { result ≡ is_covered self.now (record_of r.now) }
    {
        r.pairs().iter().all(|p| self.has(p.0))
    }
}
