//! What a recovery comes to.

use dtx_values::Outcome;
use resource_managers::Enlistment;
use thiserror::Error;

/// An enlistment that was in doubt, and the outcome by which it was finished.
#[derive(Clone, Copy, PartialEq, Eq, Debug)]
pub struct Finished {
    /// Whose it was.
    pub enlistment: Enlistment,
    /// Committed where the log's record of its transaction names it, and aborted where the log has none.
    pub outcome: Outcome,
}

/// What a recovery did.
#[derive(Drop)]
pub struct Recovered {
    /// What was in doubt, in the resource's order.
    pub finished: Vec<Finished>,
    /// The identifiers of the records that were freed, in order.
    pub freed: Vec<u128>,
}

/// Why a resource isn't recovered.
#[derive(Clone, Copy, PartialEq, Eq, Debug, Error)]
pub enum RecoverRefusal {
    /// It holds this, of an epoch above the log's: the log was made anew, or is another. Nothing was done.
    #[error("an enlistment is of a later epoch than the log's")]
    Later(Enlistment),
    /// It holds this in doubt, of a transaction that goes on here: its outcome is to come. Nothing was done.
    #[error("an enlistment in doubt is of a transaction that goes on")]
    GoesOn(Enlistment),
    /// It holds this in doubt, and the record of its transaction doesn't name it: the resource is another manager's. Nothing was done.
    #[error("the record of a transaction doesn't name an enlistment in doubt")]
    NotNamed(Enlistment),
    /// Memory ran out. Nothing was done.
    #[error("out of memory")]
    Memory,
    /// The disk of the resource failed, now or before. What is in doubt still is to be finished, and no record was freed.
    #[error("the resource's disk failed")]
    Failed,
    /// The log is stopped, from which a record would be freed: its disk failed, now or before. Nothing is in doubt any more.
    #[error("the log is stopped")]
    LogStopped,
}
