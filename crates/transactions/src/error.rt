//! Why a call isn't done.
ghost use Rattle.std.specs.Prelude.{ℕ, ◌≡◌, ◌≢◌};
ghost use Rattle.transactions.specs.Numbering.{number_refusal};
ghost use Rattle.transactions.specs.Scoping.{refusal_answer};

use coordinator_log::LogRefusal;
use dtx_values::Answer;
use scope_context::ScopeRefusal;
use std::alloc::AllocError;
use thiserror::Error;
use tx_world::WorldError;

/// Why a manager isn't made.
#[derive(Clone, Copy, PartialEq, Eq, Debug, Error)]
pub enum OpenError {
    /// Memory ran out.
    #[error("out of memory")]
    Memory,
    /// The disk failed.
    #[error("the disk failed")]
    Fault,
    /// The disk has no log: the first place, from 0, of another form.
    #[error("the disk has no log: byte {0}")]
    NotALog(u64),
}

/// Why a call of a transaction isn't done.
#[derive(Clone, Copy, PartialEq, Eq, Debug, Error)]
pub enum TxError {
    /// The transaction refused the call with this answer; `NoSuch` also where it is none of this manager's.
    #[error("refused")]
    Refused(Answer),
    /// The call waits for an object that put off its reply to promote.
    #[error("an object puts off its reply")]
    Waits,
    /// As many transactions go on as can; or all numbers are used of what a transaction enlists or clones, or of its calls.
    #[error("no number is left")]
    Many,
    /// The log has no room for the record of the epoch in which the transaction would begin.
    #[error("the log is full")]
    LogFull,
    /// The log is stopped, in which the epoch of the transaction would begin, or from which a record would be freed: its disk failed, now or before.
    #[error("the log is stopped")]
    LogStopped,
    /// The log's epoch is the last, so that none can begin.
    #[error("no epoch is left")]
    NoEpoch,
    /// Memory ran out.
    #[error("out of memory")]
    Memory,
}

/// Why a transaction didn't commit.
#[derive(Clone, Copy, PartialEq, Eq, Debug, Error)]
pub enum CommitError {
    /// It aborted, for another cause than [`CommitError::LogFull`]. (`TransactionAbortedException` of System.Transactions.)
    #[error("aborted")]
    Aborted,
    /// It aborted, since the log was full when its commit was to be recorded; or it wasn't begun, as in [`TxError::LogFull`].
    #[error("the log is full")]
    LogFull,
    /// Its outcome is in doubt. (`TransactionInDoubtException`.)
    #[error("in doubt")]
    InDoubt,
    /// It isn't decided: a blocking clone is open, or an object put off its reply.
    #[error("the transaction waits")]
    Waits,
    /// The call was refused with this answer.
    #[error("refused")]
    Refused(Answer),
    /// All numbers are used, as in [`TxError::Many`].
    #[error("no number is left")]
    Many,
    /// It wasn't begun, as in [`TxError::LogStopped`].
    #[error("the log is stopped")]
    LogStopped,
    /// It wasn't begun, as in [`TxError::NoEpoch`].
    #[error("no epoch is left")]
    NoEpoch,
    /// Memory ran out.
    #[error("out of memory")]
    Memory,
}

/// Why a scope isn't opened or completed.
#[derive(Clone, Copy, PartialEq, Eq, Debug, Error)]
pub enum ScopeError {
    /// The ambient scopes refuse it.
    #[error("the scope is refused")]
    Refused(ScopeRefusal),
    /// Its transaction can't be begun, or all numbers of scopes are used.
    #[error("{0}")]
    Begin(TxError),
}

impl From<AllocError> for TxError {
    ghost use Rattle.std.specs.Prelude.{◌≡◌};
    ghost use Rattle.transactions.specs.declared.error.TxError.TheVariants.{Memory};

    ghost from_gives = { λ _ e. e ≡ Memory };

    fn from(_e: AllocError) -> TxError {
        TxError::Memory
    }
}

impl From<WorldError> for TxError {
    ghost use Rattle.std.specs.Prelude.{◌≡◌};
    ghost use Rattle.transactions.specs.declared.error.TxError.TheVariants.{Memory};

    ghost from_gives = { λ _ e. e ≡ Memory };

    fn from(_e: WorldError) -> TxError {
        TxError::Memory
    }
}

impl From<TxError> for CommitError {
    ghost use Rattle.std.specs.Prelude.{◌≡◌};
    ghost use Rattle.transactions.specs.Telling.{as_commit};

    ghost from_gives = { λ e r. r ≡ as_commit e };

    fn from(e: TxError) -> CommitError {
        match e {
            TxError::Refused(a) => CommitError::Refused(a),
            TxError::Waits => CommitError::Waits,
            TxError::Many => CommitError::Many,
            TxError::LogFull => CommitError::LogFull,
            TxError::LogStopped => CommitError::LogStopped,
            TxError::NoEpoch => CommitError::NoEpoch,
            TxError::Memory => CommitError::Memory,
        }
    }
}

impl From<ScopeError> for CommitError {
    fn from(e: ScopeError) -> CommitError {
        match e {
            ScopeError::Refused(r) => CommitError::Refused(answer_of(r)),
            ScopeError::Begin(e) => CommitError::from(e),
        }
    }
}

impl From<TxError> for ScopeError {
    fn from(e: TxError) -> ScopeError {
        ScopeError::Begin(e)
    }
}

impl From<ScopeRefusal> for ScopeError {
    fn from(e: ScopeRefusal) -> ScopeError {
        ScopeError::Refused(e)
    }
}

/// Why a manager isn't made, where the log refused so.
pub(crate) fn open_error(e: LogRefusal) -> OpenError
    ensures fault { result ≡ OpenError.Fault → (e ≢ LogRefusal.Memory) × ((p : ℕ) → e ≢ LogRefusal.NotALog p) }
    ensures not_a_log { (p : ℕ) → result ≡ OpenError.NotALog p → e ≡ LogRefusal.NotALog p }
{
    match e {
        LogRefusal::Memory => OpenError::Memory,
        LogRefusal::NotALog(place) => OpenError::NotALog(place),
        _ => OpenError::Fault,
    }
}

/// Why no epoch begins, where the log refused so.
pub(crate) fn number_error(e: LogRefusal) -> TxError
    ensures { result ≡ number_refusal e }
{
    match e {
        LogRefusal::Full(_) => TxError::LogFull,
        LogRefusal::NoSuch(_) => TxError::NoEpoch,
        LogRefusal::Memory => TxError::Memory,
        _ => TxError::LogStopped,
    }
}

/// The answer of a scope's line that says the same.
pub(crate) fn answer_of(r: ScopeRefusal) -> Answer
    ensures { result ≡ refusal_answer r }
{
    match r {
        ScopeRefusal::TooDeep(_) => Answer::Deep,
        ScopeRefusal::IsolationDiffers(asked, found) => Answer::Isolation(asked, found),
        ScopeRefusal::NoScope(_) => Answer::NoScope,
        ScopeRefusal::AlreadyComplete(_) => Answer::Already,
        ScopeRefusal::NestedWrongly(s) => Answer::Nested(s),
    }
}
