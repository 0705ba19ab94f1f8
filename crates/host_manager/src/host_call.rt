//! The calls of a transaction that give nothing back.
use dtx_values::{CloneNo, EnlNo};

/// A call of a transaction that gives nothing back.
#[derive(Clone, Copy, PartialEq, Eq, Debug)]
pub(crate) enum HostCall {
    /// A dependent clone is complete.
    Complete(CloneNo),
    /// Its commit is asked for.
    Commit,
    /// Its rollback is asked for.
    Rollback,
    /// Its time goes on by so many milliseconds.
    Tick(u32),
    /// The connection of an enlistment is lost.
    Lost(EnlNo),
}
