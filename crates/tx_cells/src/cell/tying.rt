//! Whether a transaction's state ties with the log's.
ghost use Rattle.std.specs.Prelude.{◌↔◌, IfErr, IsOk};
ghost use Rattle.tx_cells.specs.Ties.{DiffersFrom, TiesWith};

use super::CellState;
use crate::run::Run;
use crate::shared_log::LogState;
use dtx_values::Differs;
use outside::Disk;

impl<N: Run> CellState<N> {
    /// Whether what the transaction keeps as logged ties with what the log has of it; so it does where the log isn't up. It takes no memory.
    ///
    /// # Errors
    ///
    /// The two that don't tie.
    pub fn ties<D: Disk>(&self, log: &LogState<D, N>) -> Result<(), Differs>
        ensures tie { IsOk result ↔ TiesWith self.now.tx log.now.log }
        ensures differs { IfErr result (λ d. DiffersFrom self.now.tx log.now.log d) }
    {
        self.world.ties(log.log())
    }
}
