//! What each lock of a transaction gives, as the type knows it.
ghost use Rattle.std.specs.Prelude.{◌≡◌, true};
ghost use Rattle.dtx_model.specs.Caused.{IsOwnRun};
ghost use Rattle.dtx_values.specs.TxIds.{number_of};
ghost use Rattle.dtx_model.specs.Tied.{tied};
ghost use Rattle.dtx_model.specs.World.{core};
ghost use Rattle.tx_world.specs.AtLog.{IsOurs, id_of};
ghost use Rattle.tx_world.specs.Tried.{IsTried};
ghost use Rattle.tx_cells.specs.Cell.{IsKept};

use super::CellState;
use crate::run::Run;

impl<N: Run> CellState<N> {
    /// What each lock of a transaction gives, as the type knows it: the transaction is what its own calls, and the steps after them, made; its calls and replies are the script's; and what it keeps of the log is what its coordinator
    /// knows, and what its history says. It does nothing when it runs; a caller's proof asks for it.
    pub fn is_kept(&self)
        ensures run { IsOwnRun (number_of self.now.tx.transaction) self.now.tx.world }
        ensures kept { IsKept N.script N.objects N.honest self.now.tx self.now.rows }
        ensures ours { IsOurs (id_of self.now.tx) (core self.now.tx.world) (record { ours = self.now.tx.ours; unsure = self.now.tx.unsure; life = self.now.tx.life }) }
        ensures tried { tied self.now.tx.world.past ≡ true → IsTried self.now.tx.world.past (record { ours = self.now.tx.ours; unsure = self.now.tx.unsure; life = self.now.tx.life }) }
    {
        self.world.is_own_run();
    }
}
