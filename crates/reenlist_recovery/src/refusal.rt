//! Why an enlistment can't come back.
use dtx_values::{BadInfo, EnlNo, RmNo};

/// Why an enlistment can't come back by its recovery information, in the order in which the causes are looked for.
#[derive(Clone, Copy, PartialEq, Eq, Debug)]
pub enum ReenlistRefusal {
    /// The bytes are no recovery information.
    BadInfo(BadInfo),
    /// The information is of another transaction: the identifier found, and the one wanted.
    WrongTransaction(u128, u128),
    /// The coordinator never accepted such an enlistment.
    NoSuch,
    /// The enlistment is finished: it acknowledged the commit, was told the abort, or voted no or done.
    Finished(EnlNo),
    /// The recovery of its manager is over.
    RecoveryOver(RmNo),
    /// One of its connections stands, or something is left to deliver on it.
    Connected(EnlNo),
    /// The coordinator stands stopped.
    Stopped,
}
