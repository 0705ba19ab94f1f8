//! The entries of a history.
use crate::message::{Conn, Dir, Message};
use crate::number::{ActorNo, CloneNo, EnlNo, RmNo, ScopeNo, TxNo};
use crate::words::{Cause, Class, CloneKind, Image, Iso, Outcome, Vote};

/// The answer of a call.
#[derive(Clone, Copy, PartialEq, Eq, Debug)]
pub enum Answer {
    Fine,
    True,
    False,
    Wait,
    /// The identifier of a promoted transaction.
    Id(u128),
    StillActive,
    OutcomeIs(Outcome),
    StillOpen,
    /// So many steps were done.
    Did(u16),
    NotBegun,
    Ended(Outcome),
    TooLate,
    /// So many stand already.
    Many(u8),
    NoSuch,
    Already,
    Finished,
    Over(RmNo),
    Connected(EnlNo),
    Stopped,
    Deep,
    /// The isolation asked for, and that of the ambient transaction.
    Isolation(Iso, Iso),
    NoScope,
    Nested(ScopeNo),
    Ambient(Option<TxNo>),
    Fault,
    /// The first place of the disk, in bytes, that is none of a log.
    NotALog(u64),
}

/// What an enlistment may be asked.
#[derive(Clone, Copy, PartialEq, Eq, Debug)]
pub enum Ask {
    Prepare,
    Promote,
    Single,
}

/// What a promoted promotable enlistment requests of the coordinator.
#[derive(Clone, Copy, PartialEq, Eq, Debug)]
pub enum Request {
    Commit,
    Abort,
}

/// Who is told an outcome.
#[derive(Clone, Copy, PartialEq, Eq, Debug)]
pub enum Party {
    Client,
    Enl(EnlNo),
}

/// What a context writes of its scopes.
#[derive(Clone, Copy, PartialEq, Eq, Debug)]
pub enum ScopeNote {
    Opened(ScopeNo, Option<TxNo>),
    Finished(ScopeNo),
    Closed(ScopeNo),
}

/// What stands at the log alone.
#[derive(Clone, Copy, PartialEq, Eq, Debug)]
pub enum LogNote {
    /// A stop is armed at this device call from here on, with this wish.
    Armed(u8, Image),
    /// The log was opened again with so many records.
    Opened(u16),
}

/// One entry of a history, in the order of the words that print it.
#[derive(Clone, Copy, PartialEq, Eq)]
pub enum Entry {
    /// The line of the script, from 1, its actor and the answer.
    Called(u32, ActorNo, Answer),
    Answered(u32, Answer),
    /// The timeout in milliseconds.
    Began(u32),
    Cloned(CloneNo, CloneKind),
    Completed(CloneNo),
    Enlisted(EnlNo, Class),
    Init(EnlNo),
    CommitAsked,
    RollbackAsked,
    /// The transaction's clock in milliseconds.
    Clock(u64),
    TimedOut,
    Late,
    Asked(EnlNo, Ask),
    Voted(EnlNo, Vote),
    PromoteReply(EnlNo, bool),
    Requested(EnlNo, Request),
    Sealed,
    Handed(EnlNo),
    OwnerAnswered(EnlNo, Outcome),
    LocalYes,
    Decided(Outcome),
    Told(Party, Outcome),
    Promoting(Cause),
    Promoted(u128, Cause),
    PromotionFailed,
    Sent(Conn, Dir, Message),
    Got(Conn, Dir, Message),
    /// The numbers of messages kept upward and downward.
    Cut(Conn, u32, u32),
    Down(Conn, Dir),
    Lost(EnlNo),
    Logged,
    LogFull,
    Freed,
    Stopped,
    /// Whether the record was found.
    Restarted(bool),
    Reenlisted(EnlNo),
    Recovered(RmNo),
    Acked(EnlNo),
    Scope(ScopeNote),
    LogWord(LogNote),
}
