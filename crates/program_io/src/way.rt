//! How a script is run.

/// How a script is run.
#[derive(Clone, Copy, PartialEq, Eq, Debug)]
pub enum Way {
    /// Its lines in order.
    Replay,
    /// Each actor on a thread of its own, with so many helpers beside them.
    Threads(u8),
}
