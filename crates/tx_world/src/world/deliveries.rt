//! What comes on the connections.
ghost use Rattle.std.specs.Prelude.{◌≡◌, ◌↔◌, Ok, IfOk, OnErr, true, false};
ghost use Rattle.dtx_model.specs.World.{has_left};
ghost use Rattle.dtx_model.specs.Steps.{Delivers};
ghost use Rattle.tx_world.specs.OwnCalls.{DoesAlone};
ghost use Rattle.tx_world.specs.Prepared.{NamesPrepared};

use super::TxWorld;
use crate::refusal::WorldError;
use dtx_values::{Conn, Dir, Outbox};
use world_parts::hear;

impl TxWorld {
    /// Delivers what comes next in a direction of a connection; false exactly where nothing is left.
    pub(super) fn deliver(&mut self, out: &mut Outbox, c: Conn, d: Dir) -> Result<bool, WorldError>
        ensures left { IfOk result (λ b. b ≡ has_left c d self.old.world.past) }
        ensures done { result ≡ Ok true → DoesAlone (Delivers c d) self.old self.new }
        ensures named { NamesPrepared self.old → NamesPrepared self.new }
        ensures unchanged { result ≡ Ok false → self.new ≡ self.old }
        ensures memory { OnErr result (self.new ≡ self.old) }
    {
        self.history.reserve()?;
        out.clear();
        let Some(came) = self.history.deliver(c, d) else {
            return Ok(false);
        };
        hear(&mut self.half, &mut self.core, c, d, &came, out);
        self.history.write(out.entries(), self.core.is_stopped());
        Ok(true)
    }
}
