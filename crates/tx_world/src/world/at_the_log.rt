//! The coordinator at the log: its act there, what an opening of the log says to it, and whether what it keeps ties with what the log has.
ghost use Rattle.std.specs.Prelude.{ℕ, ◌≡◌, ◌&&◌, ◌||◌, ◌∷◌, ◌↔◌, ◌⊎◌, not, nat_le, Option, Ok, IfOk, OnOk, OnErr, IfErr, IsOk, IsTrue, true, false, is_some};
ghost use Rattle.std.specs.Option.{option_map};
ghost use Rattle.dtx_values.specs.declared.record.Differs.{Differs};
ghost use Rattle.dtx_values.specs.TxIds.{number_of};
ghost use Rattle.dtx_values.specs.declared.record.LogRecord.{LogRecord};
ghost use Rattle.dtx_model.specs.Coordinated.{may_free, may_log};
ghost use Rattle.dtx_model.specs.Log.{first_of, record_of};
ghost use Rattle.dtx_model.specs.Tied.{tied};
ghost use Rattle.dtx_model.specs.World.{core};
ghost use Rattle.dtx_model.specs.Steps.{LogAnswer, Coordinates, Restarts, after};
ghost use Rattle.dtx_model.specs.Caused.{may_coordinate};
ghost use Rattle.coordinator_log.specs.Slots.{open_records};
ghost use Rattle.tx_world.specs.State.{is_reached_by};
ghost use Rattle.tx_world.specs.AtLog.{Fits, IsHad, Tie, id_of};
ghost use Rattle.tx_world.specs.Stepping.{Does};
ghost use Rattle.tx_world.specs.Leaves.{Leaves};
ghost use Rattle.world_parts.specs.Found.{IsLeftAsWished};
ghost use Rattle.tx_world.specs.Prepared.{NamesPrepared};

use super::TxWorld;
use crate::refusal::WorldError;
use coordinator_log::Log;
use dtx_values::{Differs, Outbox};
use outside::Disk;
use world_parts::{has_begun, stop_if};

/// Whether an opening of the log in this life says something to who began in its own life.
fn is_reached(begun: bool, own: u64, life: u64) -> bool
    ensures { result ≡ (begun && not (nat_le life own)) }
{
    begun && own < life
}

impl TxWorld {
    /// Does the coordinator's act at the log; false exactly where none is pending.
    pub(super) fn act_at_log<D: Disk>(
        &mut self,
        log: &mut Log<D>,
        out: &mut Outbox,
    ) -> Result<bool, WorldError>
        requires fits { IsTrue D.honest → IsTrue log.old.is_up → Fits self.old (open_records log.old.slots) }
        ensures due { IfOk result (λ b. b ≡ (may_log (core self.old.world) || may_free (core self.old.world))) }
        ensures done { result ≡ Ok true → (a : LogAnswer) × (may_coordinate (core self.old.world) a ≡ true) × Does D.faults (Coordinates a) self.old log.old self.new log.new }
        ensures leaves { Leaves D.honest D.image D.faults self.old log.old self.new log.new }
        ensures found { IsTrue D.obeys → IsLeftAsWished D.faults D.seen (core self.old.world) (id_of self.old) log.old log.new }
        ensures unchanged { result ≡ Ok false → (self.new ≡ self.old) × (log.new ≡ log.old) }
        ensures memory { OnErr result ((self.new ≡ self.old) × (log.new ≡ log.old)) }
    {
        if !(self.core.may_log() || self.core.may_free()) {
            return Ok(false);
        }
        self.history.reserve()?;
        out.clear();
        self.at_log.act(&mut self.core, log, out);
        // A coordinator that stops says nothing more.
        if self.core.is_stopped() {
            self.history.stop();
        } else {
            self.history.write(out.entries(), false);
        }
        Ok(true)
    }

    /// Whether an opening of the log in this life says something to its coordinator.
    fn is_reached_by(&self, life: u64) -> bool
        ensures { result ≡ is_reached_by life self.now }
    {
        is_reached(has_begun(self.history.entries()), self.at_log.life(), life)
    }

    /// The log was opened again: where the coordinator lives in an earlier life, it is told whether its record was found.
    ///
    /// # Errors
    ///
    /// [`WorldError::Memory`] where memory ran out, and then nothing was done.
    pub fn coordinator_restarted<D: Disk>(&mut self, log: &Log<D>) -> Result<(), WorldError>
        requires up { IsTrue log.now.is_up }
        requires fits { IsTrue D.honest → Fits self.old (open_records log.now.slots) }
        ensures transaction { self.new.transaction ≡ self.old.transaction }
        ensures reached { OnOk result (is_reached_by log.now.life self.old ≡ true
            → (self.new.world ≡ after (number_of self.old.transaction) self.old.world (Restarts (is_some (first_of (id_of self.old) (open_records log.now.slots)))))
            × (self.new.ours ≡ first_of (id_of self.old) (open_records log.now.slots)) × (self.new.unsure ≡ false) × (self.new.life ≡ log.now.life)) }
        ensures unreached { is_reached_by log.now.life self.old ≡ false → self.new ≡ self.old }
        ensures kept { IsTrue D.honest → Fits self.new (open_records log.now.slots) }
        ensures found { OnOk result (is_reached_by log.now.life self.old ≡ true → IsHad self.new log.now) }
        ensures had { IsHad self.old log.now → IsHad self.new log.now }
        ensures tied { IsTrue D.honest → tied self.old.world.past ≡ true → tied self.new.world.past ≡ true }
        ensures named { IsTrue D.honest → NamesPrepared self.old → NamesPrepared self.new }
        ensures memory { OnErr result (self.new ≡ self.old) }
    {
        if !self.is_reached_by(log.life()) {
            return Ok(());
        }
        self.history.reserve()?;
        // A stop of its life may not have come to it yet.
        let runs = !self.core.is_stopped();
        stop_if(&mut self.history, &mut self.core, runs);
        self.at_log
            .restarted(&mut self.core, log, self.transaction.identifier());
        self.history.restart(self.at_log.has_record());
        Ok(())
    }

    /// Whether what the transaction keeps as appended ties with what the log has of it. A log that is stopped says nothing.
    ///
    /// # Errors
    ///
    /// [`Differs::Log`] exactly where the log is up and the two don't tie.
    pub fn ties<D: Disk>(&self, log: &Log<D>) -> Result<(), Differs>
        ensures tie { IsOk result ↔ (IsTrue log.now.is_up → Tie self.now.ours self.now.unsure (first_of (id_of self.now) (open_records log.now.slots))) }
        ensures differs { IfErr result (λ d. (o : Option LogRecord) × (f : Option LogRecord) × (d ≡ Differs.Log self.now.transaction.t o f)
            × (option_map record_of o ≡ self.now.ours) × (option_map record_of f ≡ first_of (id_of self.now) (open_records log.now.slots))) }
    {
        self.at_log.ties(self.transaction, log)
    }
}
