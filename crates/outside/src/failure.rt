// What a call of the outside answers where it doesn't do its work.

/// The outside failed in this call: the count of faults of its object rose, or stands at the last value
/// of its `u64`. A definition of this project.
#[derive(Clone, Copy, Debug, PartialEq, Eq)]
pub struct Failed;

/// Why a write did nothing. A definition of this project.
#[derive(Clone, Copy, Debug, PartialEq, Eq)]
pub enum WriteError {
    /// The outside failed in this call, as [`Failed`] says.
    Failed,
    /// No memory was left.
    Memory,
}
