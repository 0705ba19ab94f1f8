//! What an enlistment is told, what it replies, and what its line plans.
use crate::words::{Outcome, Vote};

/// The notifications of System.Transactions. `Hand` and `Single` are SinglePhaseCommit: by `Hand` the enlistment decides the outcome,
/// by `Single` a promotable, after its promotion, requests it of the coordinator.
#[derive(Clone, Copy, PartialEq, Eq, Debug)]
pub enum Note {
    Init,
    Prepare,
    Promote,
    Hand,
    Single,
    Commit,
    Rollback,
    InDoubt,
}

/// A reply. A vote answers Prepare, `Promote` Promote, `Owner` Hand and Single, `Ack` Commit.
#[derive(Clone, Copy, PartialEq, Eq, Debug)]
pub enum Reply {
    Vote(Vote),
    Promote(bool),
    Owner(Outcome),
    Ack,
}

/// What an enlistment's line says that it replies. `None` is silent.
#[derive(Clone, Copy, PartialEq, Eq, Debug)]
pub struct Plan {
    pub vote: Option<Vote>,
    pub owner: Option<Outcome>,
    pub promote: Option<bool>,
}
