//! The calls on one transaction, with the words of their commands.
use crate::message::Conn;
use crate::number::{CloneNo, EnlNo, RmNo, TxNo};
use crate::script::{EnlistOption, Support};
use crate::words::{CloneKind, Outcome, Timeout, Vote};

/// A call on one transaction.
#[derive(Clone, Copy, PartialEq, Eq)]
pub enum Call {
    Begin(TxNo, Timeout),
    Volatile(TxNo, EnlNo, EnlistOption, Option<Vote>),
    Durable(TxNo, EnlNo, RmNo, Support),
    /// The plans of its vote, of its answer as owner, and of its promotion.
    Promotable(TxNo, EnlNo, RmNo, Option<Vote>, Option<Outcome>, Option<bool>),
    Clone(TxNo, CloneNo, CloneKind),
    Complete(CloneNo),
    Commit(TxNo),
    Rollback(TxNo),
    Marshal(TxNo),
    Status(TxNo),
    Await(TxNo),
    /// Milliseconds, from 1 to 1,000,000,000.
    Tick(TxNo, u32),
    /// Which pending step, from 1 to 99, and how often, from 1 to 999.
    Do(TxNo, u8, u16),
    /// How many messages are kept upward and downward, each from 0 to 999.
    Lose(TxNo, Conn, u16, u16),
    Gone(EnlNo),
    Reenlist(EnlNo),
    Recovered(TxNo, RmNo),
}
