//! What a stop of the log makes of a transaction.
ghost use Rattle.std.specs.Prelude.{◌≡◌, ◌&&◌, not, nat_le, OnOk, OnErr, true, if◌then◌else◌};
ghost use Rattle.dtx_model.specs.Steps.{Stops, after};
ghost use Rattle.dtx_values.specs.TxIds.{number_of};
ghost use Rattle.dtx_model.specs.Tied.{tied};
ghost use Rattle.tx_world.specs.State.{is_hit_by};
ghost use Rattle.tx_world.specs.Prepared.{NamesPrepared};

use super::TxWorld;
use crate::refusal::WorldError;
use world_parts::has_begun;

/// Whether a stop of a life of the log hits who began in its own life.
fn is_hit(begun: bool, stopped: bool, own: u64, life: u64) -> bool
    ensures { result ≡ (begun && not stopped && nat_le own life) }
{
    begun && !stopped && own <= life
}

impl TxWorld {
    /// Whether a stop of this life of the log hits it.
    fn is_hit_by(&self, life: u64) -> bool
        ensures { result ≡ is_hit_by life self.now }
    {
        is_hit(
            has_begun(self.history.entries()),
            self.core.is_stopped(),
            self.at_log.life(),
            life,
        )
    }

    /// The log was stopped in this life: where that hits the transaction, its coordinator stops.
    ///
    /// # Errors
    ///
    /// [`WorldError::Memory`] where memory ran out, and then nothing was done.
    pub fn coordinator_stopped(&mut self, life: u64) -> Result<(), WorldError>
        ensures transaction { self.new.transaction ≡ self.old.transaction }
        ensures world { OnOk result (self.new.world ≡ (if is_hit_by life self.old then after (number_of self.old.transaction) self.old.world Stops else self.old.world)) }
        ensures kept { (self.new.ours ≡ self.old.ours) × (self.new.unsure ≡ self.old.unsure) × (self.new.life ≡ self.old.life) }
        ensures tied { tied self.old.world.past ≡ true → tied self.new.world.past ≡ true }
        ensures named { NamesPrepared self.old → NamesPrepared self.new }
        ensures memory { OnErr result (self.new ≡ self.old) }
    {
        if !self.is_hit_by(life) {
            return Ok(());
        }
        self.history.reserve()?;
        self.core.stopped();
        self.history.stop();
        Ok(())
    }
}
