//! Doing a pending step.
ghost use Rattle.std.specs.Prelude.{◌≡◌, ◌<◌, None, Ok, IfErr, IfOk, OnOk, IsTrue, true, false};
ghost use Rattle.coordinator_log.specs.Slots.{open_records};
ghost use Rattle.dtx_model.specs.Steps.{pending};
ghost use Rattle.dtx_model.specs.Words.{kth};
ghost use Rattle.tx_cells.specs.LogCell.{AreOwn};
ghost use Rattle.tx_cells.specs.Ties.{IsCause, TiesWith};
ghost use Rattle.tx_cells.specs.Turns.{with_tx};
ghost use Rattle.tx_world.specs.Leaves.{IsLater, Leaves};
ghost use Rattle.tx_world.specs.OwnCalls.{DoesKthAlone};
ghost use Rattle.tx_world.specs.Stepping.{DoesKth, needs_log};
ghost use Rattle.world_laws.specs.Left.{steps_left};

use super::CellState;
use crate::error::TurnError;
use crate::run::Run;
use coordinator_log::Log;
use outside::Disk;

impl<N: Run> CellState<N> {
    /// Whether the k-th pending step, from 1, needs the log: it is the coordinator's act, or a reply to promote.
    pub fn needs_log(&self, k: u32) -> bool
        ensures { result ≡ needs_log self.now.tx.world k }
    {
        self.world.needs_log(k)
    }

    /// Does the k-th pending step, from 1, where it needs no log; false exactly where fewer than k are pending, or k is 0. A reply is the planned one.
    ///
    /// # Errors
    ///
    /// [`TurnError::Memory`] where memory ran out, and then nothing was done.
    pub(crate) fn do_step_alone(&mut self, k: u32) -> Result<bool, TurnError>
        requires alone { needs_log self.old.tx.world k ≡ false }
        ensures none { result ≡ Ok false → (kth (pending self.old.tx.world) k ≡ None) × (self.new ≡ self.old) }
        ensures some { result ≡ Ok true → DoesKthAlone k self.old.tx self.new.tx }
        ensures nearer { result ≡ Ok true → steps_left self.new.tx.world < steps_left self.old.tx.world }
        ensures same { self.new ≡ with_tx self.new.tx self.old }
        ensures ours { (self.new.tx.ours ≡ self.old.tx.ours) × (self.new.tx.unsure ≡ self.old.tx.unsure) }
        ensures memory { IfErr result (λ e. (e ≡ TurnError.Memory) × (self.new ≡ self.old)) }
    {
        self.world.is_own_run();
        if !self.world.step_alone(&mut self.outbox, k)? {
            return Ok(false);
        }
        Ok(true)
    }

    /// Does the k-th pending step, from 1, over this log; false exactly where fewer than k are pending, or k is 0. A reply is the planned one.
    ///
    /// # Errors
    ///
    /// [`TurnError::Differs`] where the log is up and doesn't tie with the transaction, and [`TurnError::Memory`] where memory ran out; nothing was done then.
    pub(crate) fn do_step_over<D: Disk>(
        &mut self,
        log: &mut Log<D>,
        k: u32,
    ) -> Result<bool, TurnError>
        requires honest { D.honest ≡ N.honest }
        requires own { IsTrue D.honest → IsTrue log.old.is_up → AreOwn N.script (open_records log.old.slots) }
        ensures tied { IfOk result (λ b. TiesWith self.old.tx log.old) }
        ensures none { result ≡ Ok false → (kth (pending self.old.tx.world) k ≡ None) × (self.new ≡ self.old) × (log.new ≡ log.old) }
        ensures some { result ≡ Ok true → DoesKth D.faults k self.old.tx log.old self.new.tx log.new }
        ensures nearer { result ≡ Ok true → steps_left self.new.tx.world < steps_left self.old.tx.world }
        ensures same { self.new ≡ with_tx self.new.tx self.old }
        ensures leaves { OnOk result (Leaves D.honest D.image D.faults self.old.tx log.old self.new.tx log.new) }
        ensures later { IsLater D.faults log.old log.new }
        ensures cause { IfErr result (λ e. IsCause self.old.tx log.old e × (self.new ≡ self.old) × (log.new ≡ log.old)) }
    {
        if let Err(differs) = self.world.ties(log) {
            return Err(TurnError::Differs(differs));
        }
        self.world.is_own_run();
        if !self.world.step(log, &mut self.outbox, k)? {
            return Ok(false);
        }
        Ok(true)
    }
}
