//! Scripts. The script language is this project's own.
ghost use Rattle.std.specs.Prelude.{◌≡◌};
ghost use Rattle.dtx_values.specs.Support.{is_single};

use crate::message::Conn;
use crate::number::{ActorNo, CloneNo, EnlNo, RmNo, ScopeNo, TxNo};
use crate::words::{CloneKind, Image, IsoWord, Outcome, Timeout, Vote};
use std::marker::Model;

/// `EnlistmentOptions` of System.Transactions, for a volatile enlistment.
#[derive(Clone, Copy, PartialEq, Eq, Debug)]
pub enum EnlistOption {
    /// The word `none`.
    Plain,
    /// The word `during`: EnlistDuringPrepareRequired.
    DuringPrepare,
}

/// Whether a durable enlistment can own the commit, with the plans of its replies.
#[derive(Clone, Copy, PartialEq, Eq, Debug)]
pub enum Support {
    /// The word `single`: the plans of its vote and of its answer as owner.
    SinglePhase(Option<Vote>, Option<Outcome>),
    /// The word `two`: the plan of its vote.
    TwoPhase(Option<Vote>),
}

impl Support {
    /// Whether such a durable enlistment can own the commit. (`ISinglePhaseNotification` of System.Transactions.)
    pub fn is_single(self) -> bool
        ensures { result ≡ is_single self }
    {
        matches!(self, Support::SinglePhase(_, _))
    }
}

/// How a scope is opened: the name of the transaction that it may make, with that one's timeout and isolation.
#[derive(Clone, Copy, PartialEq, Eq, Debug)]
pub enum Opening {
    Required(TxNo, Timeout, IsoWord),
    RequiresNew(TxNo, Timeout, IsoWord),
    Suppress,
}

/// A command with its words.
#[derive(Clone, Copy, PartialEq, Eq)]
pub enum Body {
    Begin(TxNo, Timeout),
    Open(ScopeNo, Opening),
    Finish(ScopeNo),
    Close(ScopeNo),
    Current,
    Volatile(TxNo, EnlNo, EnlistOption, Option<Vote>),
    Durable(TxNo, EnlNo, RmNo, Support),
    /// The plans of its vote, of its answer as owner, and of its promotion.
    Promotable(TxNo, EnlNo, RmNo, Option<Vote>, Option<Outcome>, Option<bool>),
    Clone(TxNo, CloneNo, CloneKind),
    Complete(CloneNo),
    Commit(TxNo),
    Rollback(TxNo),
    Marshal(TxNo),
    Status(TxNo),
    Await(TxNo),
    /// Milliseconds, from 1 to 1,000,000,000.
    Tick(TxNo, u32),
    /// Which pending step, from 1 to 99, and how often, from 1 to 999.
    Do(TxNo, u8, u16),
    /// How many messages are kept upward and downward, each from 0 to 999.
    Lose(TxNo, Conn, u16, u16),
    Gone(EnlNo),
    Reenlist(EnlNo),
    Recovered(TxNo, RmNo),
    /// The device call, from 1 to 99, at which the log stops.
    Stop(u8, Image),
    Restart,
    Par,
}

/// A line of a script: who does what.
#[derive(Clone, Copy, PartialEq, Eq)]
pub struct Line {
    pub actor: ActorNo,
    pub body: Body,
}

/// The first fault of a line, in the order in which they are looked for. The last two are those of a line `put`, which comes before a script; a script's own lines have the others.
#[derive(Clone, Copy, PartialEq, Eq, Debug)]
pub enum BadCause {
    TooLong,
    LongLine,
    NoNewline,
    BadByte,
    MissingWord,
    UnknownWord,
    BadNumber,
    ExtraWord,
    NameTwice,
    NameUnknown,
    WrongKind,
    ParTwice,
    TooManyPuts,
    KeyTaken,
}

/// A script: its lines in order, which contracts see as a list.
#[derive(Drop)]
pub struct Script {
    lines: Vec<Line>,
}

impl Model for Script {
    ghost use Rattle.std.specs.Prelude.{List};
    ghost use Rattle.dtx_values.specs.declared.script.Line.{Line};

    ghost Value = { List Line };

    ghost view = { λ s. s.lines.items };
}

impl Script {
    /// The script of these lines.
    pub fn new(lines: Vec<Line>) -> Script
        ensures { result ≡ lines.items }
    {
        Script { lines }
    }

    /// The lines in order.
    pub fn lines(&self) -> &[Line]
        ensures { result.now ≡ self.now }
    {
        self.lines.as_slice()
    }

    /// The lines again, without taking memory.
    pub fn into_lines(self) -> Vec<Line>
        ensures { result.items ≡ self }
    {
        self.lines
    }
}
