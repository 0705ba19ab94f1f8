//! Doing the pending steps, one or all.
ghost use Rattle.std.specs.Prelude.{◌≡◌, ◌<◌, Ok, None, IfOk, OnErr, IsTrue, true, false};
ghost use Rattle.dtx_model.specs.Words.{kth};
ghost use Rattle.dtx_model.specs.Steps.{pending};
ghost use Rattle.dtx_model.specs.World.{core};
ghost use Rattle.dtx_model.specs.Tied.{tied};
ghost use Rattle.coordinator_log.specs.Slots.{open_records};
ghost use Rattle.tx_world.specs.AtLog.{Fits, id_of};
ghost use Rattle.world_laws.specs.Left.{steps_left};
ghost use Rattle.tx_world.specs.OwnCalls.{Repeats};
ghost use Rattle.tx_world.specs.Stepping.{DoesKth, Settles, SomeSteps};
ghost use Rattle.tx_world.specs.Leaves.{Leaves};
ghost use Rattle.world_parts.specs.Found.{IsLeftAsWished};

use super::TxWorld;
use crate::refusal::WorldError;
use coordinator_log::Log;
use dtx_values::Outbox;
use outside::Disk;

impl TxWorld {
    /// Does the k-th pending step, from 1; false exactly where fewer than k are pending, or k is 0. A reply is the planned one.
    ///
    /// # Errors
    ///
    /// [`WorldError::Memory`] where memory ran out, and then nothing was done.
    pub fn step<D: Disk>(
        &mut self,
        log: &mut Log<D>,
        out: &mut Outbox,
        k: u32,
    ) -> Result<bool, WorldError>
        requires fits { IsTrue D.honest → IsTrue log.old.is_up → Fits self.old (open_records log.old.slots) }
        ensures none { result ≡ Ok false → (kth (pending self.old.world) k ≡ None) × (self.new ≡ self.old) × (log.new ≡ log.old) }
        ensures some { result ≡ Ok true → DoesKth D.faults k self.old log.old self.new log.new }
        ensures nearer { result ≡ Ok true → steps_left self.new.world < steps_left self.old.world }
        ensures leaves { Leaves D.honest D.image D.faults self.old log.old self.new log.new }
        ensures found { IsTrue D.obeys → IsLeftAsWished D.faults D.seen (core self.old.world) (id_of self.old) log.old log.new }
        ensures tied { tied self.old.world.past ≡ true → tied self.new.world.past ≡ true }
        ensures memory { OnErr result ((self.new ≡ self.old) × (log.new ≡ log.old)) }
    {
        self.is_own_run();
        self.step_kth(log, out, k)
    }

    /// Does the k-th pending step, from 1, n times, or until fewer than k are pending; how often it did.
    pub(super) fn repeat<D: Disk>(
        &mut self,
        log: &mut Log<D>,
        out: &mut Outbox,
        k: u32,
        n: u32,
    ) -> Result<u32, WorldError>
        requires fits { IsTrue D.honest → IsTrue log.old.is_up → Fits self.old (open_records log.old.slots) }
        ensures repeated { IfOk result (λ m. Repeats D.faults k n m self.old log.old self.new log.new) }
        ensures memory { OnErr result (SomeSteps D.faults k self.old log.old self.new log.new) }
        ensures transaction { self.new.transaction ≡ self.old.transaction }
        ensures leaves { Leaves D.honest D.image D.faults self.old log.old self.new log.new }
        ensures tied { tied self.old.world.past ≡ true → tied self.new.world.past ≡ true }
    {
        let mut count = 0;
        while count < n {
            if !self.step(log, out, k)? {
                return Ok(count);
            }
            count += 1;
        }
        Ok(count)
    }

    /// Does the first pending step until none is left, and says how many it did.
    ///
    /// # Errors
    ///
    /// [`WorldError::Memory`] where memory ran out; so it would in 2^32 - 1 steps. The steps before it were done.
    pub fn settle<D: Disk>(&mut self, log: &mut Log<D>, out: &mut Outbox) -> Result<u32, WorldError>
        requires fits { IsTrue D.honest → IsTrue log.old.is_up → Fits self.old (open_records log.old.slots) }
        ensures settled { IfOk result (λ n. Settles D.faults n self.old log.old self.new log.new) }
        ensures memory { OnErr result (SomeSteps D.faults 1 self.old log.old self.new log.new) }
        ensures transaction { self.new.transaction ≡ self.old.transaction }
        ensures leaves { Leaves D.honest D.image D.faults self.old log.old self.new log.new }
        ensures tied { tied self.old.world.past ≡ true → tied self.new.world.past ≡ true }
    {
        let count = self.repeat(log, out, 1, u32::MAX)?;
        if count == u32::MAX {
            return Err(WorldError::Memory);
        }
        Ok(count)
    }
}
