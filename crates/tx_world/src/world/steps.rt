//! The steps of the local side.
ghost use Rattle.std.specs.Prelude.{◌≡◌, List, Ok, Some, IfOk, OnErr, true, false, is_some, not};
ghost use Rattle.dtx_model.specs.Acts.{act_entries};
ghost use Rattle.dtx_model.specs.Log.{CommitRecord};
ghost use Rattle.dtx_model.specs.Outcome.{is_empty};
ghost use Rattle.dtx_model.specs.Replies.{due_of};
ghost use Rattle.dtx_model.specs.Tied.{tied};
ghost use Rattle.dtx_model.specs.World.{half};
ghost use Rattle.dtx_model.specs.Words.{kth};
ghost use Rattle.dtx_model.specs.Steps.{Acts, LocalAct, Replies, pending};
ghost use Rattle.local_half.specs.Half.{fits_due};
ghost use Rattle.tx_world.specs.AtLog.{Fits};
ghost use Rattle.tx_world.specs.OwnCalls.{DoesAlone};
ghost use Rattle.tx_world.specs.Stepping.{Does, DoesAt};
ghost use Rattle.tx_world.specs.Prepared.{NamesPrepared};

use super::TxWorld;
use crate::refusal::WorldError;
use coordinator_log::Log;
use dtx_values::{EnlNo, Outbox, Reply};
use outside::Disk;
use world_parts::{live, write_near};

impl TxWorld {
    /// Does the reply of an enlistment; false exactly where none is due.
    ///
    /// # Errors
    ///
    /// [`WorldError::Memory`] where memory ran out, and then nothing was done.
    pub fn reply<D: Disk>(
        &mut self,
        log: &Log<D>,
        out: &mut Outbox,
        e: EnlNo,
        r: Reply,
    ) -> Result<bool, WorldError>
        requires fits { fits_due r (due_of (half self.old.world).seen e.value) ≡ true }
        ensures due { IfOk result (λ b. b ≡ is_some (due_of (half self.old.world).seen e.value)) }
        ensures done { result ≡ Ok true → Does D.faults (Replies e r) self.old log.now self.new log.now }
        ensures fits { (rs : List CommitRecord) → Fits self.old rs → Fits self.new rs }
        ensures tied { tied self.old.world.past ≡ true → tied self.new.world.past ≡ true }
        ensures named { NamesPrepared self.old → NamesPrepared self.new }
        ensures unchanged { result ≡ Ok false → self.new ≡ self.old }
        ensures memory { OnErr result (self.new ≡ self.old) }
    {
        self.reply_at(log.is_up(), log.life(), out, e, r)
    }

    /// Does the reply of an enlistment, where this says whether the log is up, and in which life; false exactly where none is due.
    pub(super) fn reply_at(
        &mut self,
        up: bool,
        life: u64,
        out: &mut Outbox,
        e: EnlNo,
        r: Reply,
    ) -> Result<bool, WorldError>
        requires fits { fits_due r (due_of (half self.old.world).seen e.value) ≡ true }
        ensures due { IfOk result (λ b. b ≡ is_some (due_of (half self.old.world).seen e.value)) }
        ensures done { result ≡ Ok true → DoesAt up life (Replies e r) self.old self.new }
        ensures named { NamesPrepared self.old → NamesPrepared self.new }
        ensures unchanged { result ≡ Ok false → self.new ≡ self.old }
        ensures memory { OnErr result (self.new ≡ self.old) }
    {
        let sends = !self.half.is_unpromoted();
        self.history.reserve_for(sends)?;
        out.clear();
        if !self.half.reply(e, r, out) {
            return Ok(false);
        }
        let begins = write_near(&mut self.history, &mut self.core, out.entries(), up);
        live(&mut self.at_log, begins, life);
        Ok(true)
    }

    /// Does the local act where it is the first pending step and no reply may be due: so most steps are. False where a reply may be due, or no act is pending.
    pub(super) fn act_first(&mut self, out: &mut Outbox) -> Result<bool, WorldError>
        ensures first { result ≡ Ok true → kth (pending self.old.world) 1 ≡ Some LocalAct }
        ensures done { result ≡ Ok true → DoesAlone Acts self.old self.new }
        ensures named { NamesPrepared self.old → NamesPrepared self.new }
        ensures unchanged { result ≡ Ok false → self.new ≡ self.old }
        ensures memory { OnErr result (self.new ≡ self.old) }
    {
        if self.half.may_be_due() {
            return Ok(false);
        }
        self.act(out)
    }

    /// Does the local act; false exactly where none is pending.
    pub(super) fn act(&mut self, out: &mut Outbox) -> Result<bool, WorldError>
        ensures due { IfOk result (λ b. b ≡ not (is_empty (act_entries (half self.old.world)))) }
        ensures done { result ≡ Ok true → DoesAlone Acts self.old self.new }
        ensures named { NamesPrepared self.old → NamesPrepared self.new }
        ensures unchanged { result ≡ Ok false → self.new ≡ self.old }
        ensures memory { OnErr result (self.new ≡ self.old) }
    {
        let sends = !self.half.is_unpromoted();
        self.history.reserve_for(sends)?;
        out.clear();
        if !self.half.act(out) {
            return Ok(false);
        }
        self.history.write(out.entries(), self.core.is_stopped());
        Ok(true)
    }
}
