//! What crosses between the local side and the coordinator.
use crate::number::{EnlNo, RmNo};

/// Recovery information: which enlistment of which manager, in which transaction.
#[derive(Clone, Copy, PartialEq, Eq, Debug)]
pub struct Info {
    /// The transaction's identifier: its upper 64 bits are the node, its lower 64 bits the count.
    pub id: u128,
    pub rm: RmNo,
    pub enl: EnlNo,
}

/// The messages, named by the type of their connection and by their name.
#[derive(Clone, Copy, PartialEq, Eq, Debug)]
pub enum Message {
    BeginBegin,
    BeginCommit,
    BeginAbort,
    /// COMMIT in a single phase: the one enlistment is to decide.
    BeginCommitOne,
    BeginBegun(u128),
    BeginCommitted,
    BeginAborted,
    BeginInDoubt,
    VoterVoter(u128),
    VoterYes,
    VoterNo,
    VoterCreated,
    /// The cause: 1 is too late, 2 is no such transaction.
    VoterRefused(u8),
    VoterAsk,
    VoterCommit,
    VoterAbort,
    VoterInDoubt,
    EnlistEnlist(Info),
    EnlistPrepared,
    EnlistNo,
    EnlistReadonly,
    EnlistAck,
    /// The answers of the one enlistment that was asked to commit in a single phase.
    EnlistOneCommitted,
    EnlistOneAborted,
    EnlistOneInDoubt,
    EnlistEnlisted,
    /// The cause: 1 is too late, 2 is no such transaction.
    EnlistRefused(u8),
    EnlistPrepare,
    EnlistCommit,
    EnlistAbort,
    /// The commit is the enlistment's to decide, in a single phase.
    EnlistSingle,
    ReenlistReenlist(Info),
    ReenlistAck,
    ReenlistCommitted,
    ReenlistAborted,
}

/// A connection of one transaction between the two sides.
#[derive(Clone, Copy, PartialEq, Eq, Debug)]
pub enum Conn {
    /// The connection that began the transaction at the coordinator.
    Begin,
    /// The connection of the local side's vote.
    Voter,
    /// The connection of an enlistment.
    Enl(EnlNo),
    /// The connection of an enlistment that came back after it was lost.
    Again(EnlNo),
}

/// `Up` leads to the coordinator, `Down` to the local side.
#[derive(Clone, Copy, PartialEq, Eq, Debug)]
pub enum Dir {
    Up,
    Down,
}
