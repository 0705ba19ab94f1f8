//! What a resource manager holds of a transaction.
use crate::enlistment::Enlistment;

/// What a resource manager holds of one enlistment: it prepared, and hasn't been rolled back.
#[derive(Clone, Copy, PartialEq, Eq, Debug)]
pub struct Held {
    /// Whose it is.
    pub enlistment: Enlistment,
    /// Whether it is marked as committed.
    pub marked: bool,
    /// Whether a call of this process prepared it.
    pub prepared_here: bool,
}
