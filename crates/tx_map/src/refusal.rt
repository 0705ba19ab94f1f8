//! Why a map refuses a write.
use dtx_values::{EnlNo, TxNo};

/// How many keys one pair may have live writes of.
pub const KEYS: usize = 1000;

/// Why a put does nothing. The first that applies is given.
#[derive(Clone, Copy, PartialEq, Eq, Debug)]
pub enum MapRefusal {
    /// The pair voted: its live writes wait for the outcome.
    Over(TxNo, EnlNo),
    /// Another pair has a live write of the key: this one.
    Busy(TxNo, EnlNo),
    /// The pair has live writes of so many other keys: 1,000.
    TooMany(usize),
    /// Memory ran out.
    Memory,
}
