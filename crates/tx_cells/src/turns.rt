//! What may be done next, and what came of a call.
use dtx_values::{Answer, EnlNo, Note};

/// What is to be done next in a transaction.
#[derive(Clone, Copy, PartialEq, Eq, Debug)]
pub enum Turn {
    /// The pending step at this place, from 1, which isn't a reply.
    Step(u32),
    /// To ask this enlistment for its reply to this note.
    Ask(EnlNo, Note),
    /// Nothing: each pending step is a reply that is out.
    Nothing,
}

/// What came of a call that was to be entered.
#[derive(Clone, Copy, PartialEq, Eq, Debug)]
pub enum Turned {
    /// It was entered, and answered so.
    Did(Answer),
    /// The actor's next call here is that of this line, or 0 where none is left.
    NotNext(u32),
    /// It waits, and the client wasn't told yet.
    Later,
}
