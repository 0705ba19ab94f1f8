//! Whose enlistments have an object.
use heard_notes::Of;

/// Whose enlistments have an object in a run: those of the first managers, so many, each with its own; or those for whom one object answers.
#[derive(Clone, Copy)]
pub enum Whose {
    First(usize),
    One(Of),
}
