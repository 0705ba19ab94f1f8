//! Why the clones refuse.
use dtx_values::CloneNo;

/// Why a clone isn't made or completed. The first that applies is given.
#[derive(Clone, Copy, PartialEq, Eq, Debug)]
pub enum CloneRefusal {
    /// Commit was asked.
    TooLate,
    /// The clone stands.
    Twice(CloneNo),
    /// So many stand: 32.
    Many(u8),
    /// No such clone stands.
    NoSuch(CloneNo),
    /// The clone is complete.
    Already(CloneNo),
}
