//! What the board may have of a transaction.
ghost use Rattle.std.specs.Prelude.{◌≡◌, IfOk, MatchOption, None, Some};
ghost use Rattle.dtx_model.specs.Words.{latest};
ghost use Rattle.dtx_model.specs.Entries.{client_told_of};

use crate::board::Posted;
use crate::cell::CellState;
use crate::run::Run;
use std::alloc::{AllocError, Global};

#[tactic(auto, unfolding(dtx_model::specs::Observed::observe))]
impl<N: Run> CellState<N> {
    /// The transaction, what its client was told, and its history: what the board may have of it. `None` exactly where the client wasn't told.
    ///
    /// # Errors
    ///
    /// Where memory ran out.
    pub fn post(&self, alloc: Global) -> Result<Option<Box<Posted<N>>>, AllocError>
        ensures { IfOk result (λ p. MatchOption p (latest client_told_of self.now.tx.world.past ≡ None) (λ b. (latest client_told_of self.now.tx.world.past ≡ Some b.value.outcome)
            × (b.value.transaction ≡ self.now.tx.transaction.t) × (b.value.past ≡ self.now.tx.world.past))) }
    {
        let Some(outcome) = self.told() else {
            return Ok(None);
        };
        self.is_caused();
        let posted = Posted::new(alloc, self.t(), outcome, self.history())?;
        Ok(Some(Box::new(alloc, posted)?))
    }
}
