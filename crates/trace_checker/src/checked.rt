//! What a checker says of a trace.

/// What the first bad entry loses, in the order in which it is looked for.
#[derive(Clone, Copy, PartialEq, Eq, Debug)]
pub enum Why {
    /// Something is told that may not be told there.
    Justified,
    /// Two are told opposite outcomes, or it is decided twice.
    Agree,
    /// Something is got that isn't the next on the way, or an end is seen that may not come.
    Wire,
}

/// What a checker says of a trace.
#[derive(Clone, Copy, PartialEq, Eq, Debug)]
pub enum Checked {
    /// Each transaction's history keeps all three.
    Fine,
    /// The number of the first bad entry among all of the trace, from 1, and what it loses.
    Bad(u64, Why),
}
