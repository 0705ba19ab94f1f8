//! Why a vote isn't taken.
use dtx_values::EnlNo;

/// Why a vote isn't taken. The first that applies is given.
#[derive(Clone, Copy, PartialEq, Eq, Debug)]
pub enum VoteRefusal {
    /// The enlistment has no row, or wasn't asked to prepare.
    NotAsked(EnlNo),
    /// It voted.
    AlreadyVoted(EnlNo),
}
