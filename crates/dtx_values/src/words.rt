//! The words of System.Transactions, and those of this project's script language.
ghost use Rattle.std.specs.Prelude.{◌≡◌};
ghost use Rattle.dtx_values.specs.Class.{is_class, is_durable, is_promotable, is_volatile};
ghost use Rattle.dtx_values.specs.Vote.{is_good, is_no};

/// How a transaction ended, or may have ended. (System.Transactions.)
#[derive(Clone, Copy, PartialEq, Eq, Debug)]
pub enum Outcome {
    Committed,
    Aborted,
    InDoubt,
}

/// `TransactionStatus` of System.Transactions.
#[derive(Clone, Copy, PartialEq, Eq, Debug)]
pub enum Status {
    Active,
    Committed,
    Aborted,
    InDoubt,
}

/// `IsolationLevel` of System.Transactions.
#[derive(Clone, Copy, PartialEq, Eq, Debug)]
pub enum Iso {
    Serializable,
    RepeatableRead,
    ReadCommitted,
    ReadUncommitted,
    Snapshot,
    Chaos,
    Unspecified,
}

/// The isolation that a scope asks for, as its line writes it: `default` asks for Serializable.
#[derive(Clone, Copy, PartialEq, Eq, Debug)]
pub enum IsoWord {
    Default,
    Level(Iso),
}

/// `TransactionScopeOption` of System.Transactions.
#[derive(Clone, Copy, PartialEq, Eq, Debug)]
pub enum ScopeOption {
    Required,
    RequiresNew,
    Suppress,
}

/// A timeout as its line writes it: `default` is 60,000 milliseconds, a number is in milliseconds.
#[derive(Clone, Copy, PartialEq, Eq, Debug)]
pub enum Timeout {
    Default,
    Milliseconds(u32),
}

/// The class of an enlistment. `Zero` is a volatile one that may enlist others while it prepares
/// (`EnlistDuringPrepareRequired`), `One` a volatile one without options.
#[derive(Clone, Copy, PartialEq, Eq, Debug)]
pub enum Class {
    Zero,
    One,
    DurableTwo,
    DurableSingle,
    Promotable,
}

impl Class {
    /// Whether such an enlistment is volatile.
    pub fn is_volatile(self) -> bool
        ensures { result ≡ is_volatile self }
    {
        matches!(self, Class::Zero | Class::One)
    }

    /// Whether such an enlistment is durable.
    pub fn is_durable(self) -> bool
        ensures { result ≡ is_durable self }
    {
        matches!(self, Class::DurableTwo | Class::DurableSingle)
    }

    /// Whether such an enlistment is promotable.
    pub fn is_promotable(self) -> bool
        ensures { result ≡ is_promotable self }
    {
        self == Class::Promotable
    }

    /// Whether such an enlistment is asked to prepare in phase zero (`zero`), or after the seal (not `zero`).
    pub fn is_asked_in(self, zero: bool) -> bool
        ensures { result ≡ is_class zero self }
    {
        if zero {
            self == Class::Zero
        } else {
            self == Class::One
        }
    }
}

/// What a dependent clone does to a commit while it isn't complete. (`DependentCloneOption`.)
#[derive(Clone, Copy, PartialEq, Eq, Debug)]
pub enum CloneKind {
    /// The commit waits for it.
    Block,
    /// A call of commit before it is complete is a veto.
    Rollback,
}

/// An answer to Prepare: Prepared, ForceRollback, Done.
#[derive(Clone, Copy, PartialEq, Eq, Debug)]
pub enum Vote {
    Yes,
    No,
    Done,
}

impl Vote {
    /// Whether it is a veto.
    pub fn is_no(self) -> bool
        ensures { result ≡ is_no self }
    {
        self == Vote::No
    }

    /// Whether it lets the transaction commit: Yes or Done.
    pub fn is_good(self) -> bool
        ensures { result ≡ is_good self }
    {
        self != Vote::No
    }
}

/// Why a transaction is promoted to the coordinator.
#[derive(Clone, Copy, PartialEq, Eq, Debug)]
pub enum Cause {
    /// A durable enlistment without single-phase support came first.
    Two,
    /// A durable enlistment came after another one.
    Second,
    /// A durable enlistment came beside a promotable one.
    Beside,
    /// The transaction was marshalled.
    Marshal,
}

/// What a crash is wished to leave of the writes since the last sync.
#[derive(Clone, Copy, PartialEq, Eq, Debug)]
pub enum Image {
    Lose,
    Keep,
    Torn,
}
