//! What the local side knows of an enlistment at the coordinator.
use dtx_values::{Conn, EnlNo, RmNo};

/// What the local side of a transaction knows of an enlistment at the coordinator since its ENLIST was sent.
#[derive(Clone, Copy, PartialEq, Eq, Debug)]
pub struct Branch {
    pub enlistment: EnlNo,
    pub manager: RmNo,
    /// Whether the coordinator accepted it: its ENLISTED came.
    pub enlisted: bool,
    /// Whether it was told that the transaction aborted.
    pub aborted: bool,
    /// Whether it acknowledged a commit.
    pub acked: bool,
    /// The connection of the last commit, where that wasn't acknowledged and the enlistment didn't come back since.
    pub due: Option<Conn>,
}
