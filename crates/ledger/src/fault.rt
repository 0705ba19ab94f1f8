//! What the program says on standard error, and the status that it ends with.
use ledger_book::{Part, Trouble};
use thiserror::Error;

/// Why the program ends with another status than 0. The texts and the statuses are this project's own.
#[derive(Clone, Copy, PartialEq, Eq, Debug, Error)]
pub enum Fault {
    #[error("ledger: usage")]
    Usage,
    #[error("ledger: write fault")]
    Write,
    #[error("ledger: disk fault")]
    Disk,
    #[error("ledger: out of memory")]
    Memory,
    #[error("ledger: stopped")]
    Stopped,
    #[error("ledger: cannot open {0}")]
    NotOpened(Part),
    #[error("ledger: {0} is none, at place {1}")]
    NotOne(Part, u64),
    #[error("ledger: {0} is another's")]
    Others(Part),
}

impl Fault {
    /// What a call of the book says.
    pub fn of(trouble: Trouble) -> Fault {
        match trouble {
            Trouble::Fault => Fault::Disk,
            Trouble::Memory => Fault::Memory,
            Trouble::NotOne(part, place) => Fault::NotOne(part, place),
            Trouble::Others(part) => Fault::Others(part),
        }
    }

    /// The status that the process ends with.
    pub fn status(&self) -> u8 {
        match self {
            Fault::Usage => 2,
            Fault::Write => 6,
            Fault::Disk => 7,
            Fault::Memory => 8,
            Fault::Stopped => 9,
            Fault::NotOpened(_) => 11,
            Fault::NotOne(_, _) => 12,
            Fault::Others(_) => 13,
        }
    }
}
