//! Why a table refuses.
use dtx_values::EnlNo;

/// Why an enlistment isn't added. The first that applies is given.
#[derive(Clone, Copy, PartialEq, Eq, Debug)]
pub enum AddRefusal {
    /// The enlistment has a row.
    Twice(EnlNo),
    /// So many rows stand: 32 of all, or 16 durable and promotable ones.
    Many(u8),
}

/// Why a row isn't marked. The first that applies is given.
#[derive(Clone, Copy, PartialEq, Eq, Debug)]
pub enum TableRefusal {
    /// The enlistment has no row.
    NoSuch(EnlNo),
    /// The mark or the vote stands already.
    AlreadyThere(EnlNo),
}
