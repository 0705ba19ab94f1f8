//! What the recovery of a book did.
use crate::account::Side;
use crate::trouble::Trouble;
use dtx_values::Outcome;
use std::alloc::Global;
use transactions::Recovered;

/// The upper half of each identifier of a transaction.
const NODE: u128 = 1 << 64;

/// An enlistment that an earlier process left in doubt, and how it was finished.
#[derive(Clone, Copy, PartialEq, Eq, Debug)]
pub struct Ended {
    /// The store that held it.
    pub side: Side,
    /// The number for good of its transaction.
    pub transaction: u64,
    /// Its number in the transaction.
    pub enlistment: u32,
    /// Whether the transaction committed.
    pub committed: bool,
}

/// What the recovery of a book did.
#[derive(Drop)]
pub struct Recovery {
    /// What was in doubt, by resource managers and slots.
    pub ended: Vec<Ended>,
    /// The numbers for good of the transactions whose records were freed, in order.
    pub freed: Vec<u128>,
}

impl Recovery {
    /// One that did nothing.
    pub(crate) fn new(alloc: Global) -> Recovery {
        Recovery {
            ended: Vec::new(alloc),
            freed: Vec::new(alloc),
        }
    }

    /// Adds what the recovery of a store did.
    pub(crate) fn add(&mut self, side: Side, recovered: &Recovered) -> Result<(), Trouble> {
        for finished in &recovered.finished {
            let ended = Ended {
                side,
                transaction: finished.enlistment.transaction().number(),
                enlistment: finished.enlistment.number().get(),
                committed: finished.outcome == Outcome::Committed,
            };
            if self.ended.push(ended).is_err() {
                return Err(Trouble::Memory);
            }
        }
        for id in &recovered.freed {
            if self.freed.push(id.saturating_sub(NODE)).is_err() {
                return Err(Trouble::Memory);
            }
        }
        Ok(())
    }
}
