//! Hearing that the log was stopped, or opened.
ghost use Rattle.std.specs.Prelude.{◌≡◌, IfErr, OnOk};
ghost use Rattle.tx_cells.specs.Following.{followed};
ghost use Rattle.tx_cells.specs.Ties.{IsCause, TiesWith};
ghost use Rattle.tx_cells.specs.Turns.{with_tx};

use super::CellState;
use crate::error::TurnError;
use crate::run::Run;
use crate::shared_log::LogState;
use outside::Disk;

impl<N: Run> CellState<N> {
    /// Hears what the log's state gives the transaction: that it was stopped, that it was opened, both, or nothing.
    ///
    /// # Errors
    ///
    /// [`TurnError::Differs`] where the log is up and doesn't tie with the transaction, and [`TurnError::Memory`] where memory ran out; nothing was done then.
    pub fn follow_log<D: Disk>(&mut self, log: &LogState<D, N>) -> Result<(), TurnError>
        ensures tied { OnOk result (TiesWith self.old.tx log.now.log) }
        ensures followed { OnOk result (self.new ≡ with_tx (followed self.old.tx log.now.log) self.old) }
        ensures cause { IfErr result (λ e. IsCause self.old.tx log.now.log e × (self.new ≡ self.old)) }
    {
        let log = log.log();
        if let Err(differs) = self.world.ties(log) {
            return Err(TurnError::Differs(differs));
        }
        if log.is_up() {
            self.world.coordinator_restarted(log)?;
        } else {
            self.world.coordinator_stopped(log.life())?;
        }
        Ok(())
    }
}
