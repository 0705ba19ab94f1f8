//! For whom an object answers.
use dtx_values::RmNo;

/// For whom an object answers in a run: for the enlistments of one manager, durable and promotable ones, or for all volatiles.
#[derive(Clone, Copy, PartialEq, Eq, Debug)]
pub enum Of {
    Manager(RmNo),
    Volatiles,
}
