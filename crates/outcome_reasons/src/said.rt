//! What is said of a transaction: why it was promoted, why it ended as it did, and whom it still owes an outcome. These words are a definition of this project.
use dtx_values::{ActorNo, CloneNo, Conn, Dir, EnlNo, Note, Outcome, ScopeNo};

/// Who called, and in which line of the script, from 1.
#[derive(Clone, Copy, PartialEq, Eq, Debug)]
pub struct Caller {
    pub line: u32,
    pub actor: ActorNo,
}

/// An entry of a transaction's history.
#[derive(Clone, Copy, PartialEq, Eq, Debug)]
pub struct Moment {
    /// The newest call of the transaction up to it, in whose block it stands. None only in a history that no run has.
    pub caller: Option<Caller>,
    /// Its number in the trace, from 1.
    pub entry: u64,
}

/// Why a promotion began. An enlistment is none only in a history that no run has.
#[derive(Clone, Copy, PartialEq, Eq, Debug)]
pub enum PromotionReason {
    /// The caller asked for the identifier.
    Identifier,
    /// The first is a second durable, beside the other.
    Second(Option<EnlNo>, Option<EnlNo>),
    /// The first is a durable beside the other, which is promotable.
    Beside(Option<EnlNo>, Option<EnlNo>),
    /// It is a durable that has two phases alone.
    Two(Option<EnlNo>),
}

/// What the evidence of a commit is.
#[derive(Clone, Copy, PartialEq, Eq, Debug)]
pub enum CommitReason {
    /// All voted yes or done, and nobody owned the commit.
    Sealed,
    /// It was handed the commit, and answered committed.
    Owner(EnlNo),
    /// All voted yes or done, and the coordinator's record was in the log.
    Logged,
}

/// Why a connection ended.
#[derive(Clone, Copy, PartialEq, Eq, Debug)]
pub enum Root {
    /// It was cut, in this line of the script.
    Cut(Conn, u32),
    /// The coordinator stopped, at the entry of this number.
    Stopped(u64),
    /// The history doesn't say.
    Unsaid(Conn),
}

/// What justified an abort: the first veto before which no evidence stood.
#[derive(Clone, Copy, PartialEq, Eq, Debug)]
pub enum AbortReason {
    /// The caller rolled it back.
    RolledBack,
    /// The caller closed the scope, which wasn't finished.
    Unfinished(ScopeNo),
    /// The caller closed the first scope while the second was open above it.
    Nested(ScopeNo, ScopeNo),
    /// The clock reached so many milliseconds, and the timeout is so many.
    TimedOut(u64, u32),
    /// The caller asked for the commit while the clone wasn't complete. None only in a history that no run has.
    OpenClone(Option<CloneNo>),
    /// It voted no.
    VotedNo(EnlNo),
    /// It was handed the commit, and answered aborted.
    OwnerAborted(EnlNo),
    /// It couldn't be promoted.
    NotPromoted(EnlNo),
    /// It requested the abort.
    Requested(EnlNo),
    /// It was lost before it voted.
    Lost(EnlNo),
    /// One side saw the end of a connection too early: the local side of `Down`, the coordinator of `Up`.
    Ended(Root, Conn, Dir),
    /// The coordinator's log was full.
    LogFull,
    /// The coordinator was started again, and its log had no record.
    NoRecord,
}

/// Why an outcome is in doubt.
#[derive(Clone, Copy, PartialEq, Eq, Debug)]
pub enum DoubtReason {
    /// It was handed the commit, and answered in doubt.
    Answered(EnlNo),
    /// It was lost after it was handed the commit, without an answer.
    Lost(EnlNo),
    /// The connections b and v ended after the local yes, each for its cause, and no outcome had come.
    Ended(Root, Root),
    /// The coordinator had let it decide, and saw the end of its connection, for this cause, before an answer came.
    Unheard(Root, EnlNo),
}

/// Why a transaction is open.
#[derive(Clone, Copy, PartialEq, Eq, Debug)]
pub enum OpenReason {
    /// Nobody asked for the commit or a rollback.
    NotAsked,
    /// The blocking clone isn't complete.
    OpenClone(CloneNo),
    /// It hasn't answered the note, which it was given at the entry of this number.
    Silent(EnlNo, Note, u64),
    /// Something is still to be done: so only in a history that isn't settled.
    Unsettled,
}

/// What is said of a transaction.
#[derive(Clone, Copy, PartialEq, Eq, Debug)]
pub enum Why {
    /// It was promoted.
    Promoted(PromotionReason, Moment),
    /// A promotion began, and wasn't done.
    PromotionFailed(PromotionReason, Moment),
    /// Its client was told committed. The number is that of the first entry after which evidence stands.
    Committed(CommitReason, u64),
    /// Its client was told aborted.
    Aborted(AbortReason, Moment),
    /// Its client was told in doubt. The number is that of the first entry after which doubt stands.
    InDoubt(DoubtReason, u64),
    /// Its client was told this outcome, which nothing justifies: so only in a history that isn't justified.
    Unjust(Outcome),
    /// The coordinator committed it while its client is in doubt: at the entry of this number its record was in the log, or the one that it let decide said committed.
    CoordinatorCommitted(u64),
    /// The coordinator aborted it.
    CoordinatorAborted(u64),
    /// The coordinator decided nothing.
    CoordinatorUndecided,
    /// Its client wasn't told.
    Open(OpenReason),
    /// The enlistment said PREPARED, hasn't heard the outcome, and its manager has not recovered in the transaction.
    Owes(EnlNo),
}
