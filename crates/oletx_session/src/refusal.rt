//! Why a connection doesn't do what it is asked.
use dtx_values::Conn;

/// Why a connection wasn't started, or a message wasn't sent.
#[derive(Clone, Copy, PartialEq, Eq, Debug)]
pub enum SessionRefusal {
    /// The connection is open, or has something left to deliver.
    Taken(Conn),
    /// The connection was never started, or its sender saw its end.
    NotOpen(Conn),
    /// Memory ran out.
    Memory,
}
