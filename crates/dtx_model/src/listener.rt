//! Whom a transaction's outcome is told to.
use dtx_values::{EnlNo, Numbered};

/// An enlistment of a transaction, whether it was told the outcome, and whether it is lost.
#[derive(Clone, Copy, PartialEq, Eq, Debug)]
pub struct Listener {
    pub enlistment: EnlNo,
    pub told: bool,
    pub lost: bool,
}

impl Numbered for Listener {
    ghost use Rattle.dtx_model.specs.Observed.{listener_number};

    ghost key = { listener_number };

    fn number(&self) -> u32 {
        self.enlistment.get()
    }
}
