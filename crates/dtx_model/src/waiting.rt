//! The calls that a transaction was given, and what one waits for.
use dtx_values::{ActorNo, Call, Class, EnlNo, RmNo};

/// A call that was entered: its line, its actor and its words.
#[derive(Clone, Copy, PartialEq, Eq)]
pub struct EnteredCall {
    pub line: u32,
    pub actor: ActorNo,
    pub call: Call,
}

/// What a call of a transaction waits for.
#[derive(Clone, Copy, PartialEq, Eq)]
pub enum Wanted {
    /// The transaction's identifier, as a marshal call does.
    Identifier,
    /// A place at the coordinator, as a durable call does for an enlistment of this manager and class.
    Place(EnlNo, RmNo, Class),
}
