//! Why a call of a host isn't done.
use thiserror::Error;
use transactions::TxError;

/// Why a call of a host isn't done.
#[derive(Clone, Copy, PartialEq, Eq, Debug, Error)]
pub enum HostError {
    /// First the host is to do what is asked of the disk.
    #[error("first the disk")]
    Disk,
    /// The bytes are no log.
    #[error("the bytes are no log")]
    NotALog,
    /// No such reply is due.
    #[error("no such reply is due")]
    Unasked,
    /// Something of the transaction is left to do.
    #[error("the transaction goes on")]
    Live,
    /// The manager's own error.
    #[error("{0}")]
    Call(TxError),
}
