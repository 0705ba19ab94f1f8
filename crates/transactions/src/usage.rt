//! Who has a transaction.

/// What a place of a manager is used for.
#[derive(Clone, Copy, PartialEq, Eq, Debug)]
pub(crate) enum Usage {
    /// Its transaction is over: another may take the place, with a number of its own.
    Free,
    /// Its transaction goes on, and somebody holds it.
    Held,
    /// Its transaction goes on, and nobody holds it any more.
    Left,
}
