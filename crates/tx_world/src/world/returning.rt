//! That an enlistment comes back.
ghost use Rattle.std.specs.Prelude.{ℕ, ◌≡◌, OnOk, OnErr, true};
ghost use Rattle.dtx_values.specs.declared.call.Call.TheVariants.{Reenlist};
ghost use Rattle.dtx_values.specs.TxIds.{number_of};
ghost use Rattle.dtx_values.specs.declared.entry.Answer.TheVariants.{Fine};
ghost use Rattle.dtx_model.specs.Steps.{Calls};
ghost use Rattle.dtx_model.specs.World.{answer_at};
ghost use Rattle.tx_world.specs.OwnCalls.{DoesAlone};
ghost use Rattle.tx_world.specs.State.{may_enter};

use super::TxWorld;
use super::entering::reserve_call;
use crate::refusal::WorldError;
use dtx_model::EnteredCall;
use dtx_values::{ActorNo, Answer, Call, EnlNo, Info, Outbox, write_info};
use reenlist_recovery::check;
use world_parts::{manager_of, returned, write_return};

impl TxWorld {
    /// What a `reenlist` is answered: the manager hands in the information that it has of its enlistment, and that is checked against the history.
    pub(super) fn answer_reenlist(&self, e: EnlNo) -> Answer
        ensures { (m : ℕ) → result ≡ answer_at (number_of self.now.transaction) self.now.world (Reenlist e) m }
    {
        let wanted = self.transaction.identifier();
        let info = write_info(&Info {
            id: wanted,
            rm: manager_of(self.half.branches(), e),
            enl: e,
        });
        self.half
            .if_begun(returned(check(self.history.entries(), wanted, &info)))
    }

    /// Enters that an enlistment comes back.
    pub(super) fn enter_returned(
        &mut self,
        out: &mut Outbox,
        actor: ActorNo,
        line: u32,
        e: EnlNo,
    ) -> Result<(), WorldError>
        requires enters { may_enter self.old.world line (Reenlist e) ≡ true }
        requires fine { answer_at (number_of self.old.transaction) self.old.world (Reenlist e) 0 ≡ Fine }
        ensures done { (m : ℕ) → OnOk result (DoesAlone (Calls line actor (Reenlist e) m) self.old self.new) }
        ensures memory { OnErr result (self.new ≡ self.old) }
    {
        self.history.reserve()?;
        reserve_call(&mut self.calls)?;
        out.clear();
        write_return(&mut self.half, actor, line, e, out);
        let call = Call::Reenlist(e);
        self.calls.push_reserved(EnteredCall { line, actor, call });
        self.history.write(out.entries(), self.core.is_stopped());
        Ok(())
    }
}
