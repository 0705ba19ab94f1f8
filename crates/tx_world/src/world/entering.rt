//! The calls.
ghost use Rattle.std.specs.Prelude.{ℕ, ◌≡◌, ◌<◌, ◌||◌, not, vec_capacity, vec_len, IfOk, OnOk, OnErr, true};
ghost use Rattle.dtx_values.specs.declared.call.Call.TheVariants.{Lose, Recovered};
ghost use Rattle.dtx_values.specs.TxIds.{number_of};
ghost use Rattle.dtx_values.specs.declared.entry.Answer.TheVariants.{Fine};
ghost use Rattle.dtx_model.specs.Caused.{MayAnswer};
ghost use Rattle.dtx_model.specs.Steps.{Calls};
ghost use Rattle.dtx_model.specs.World.{answer_at};
ghost use Rattle.world_parts.specs.Entering.{is_local, is_unlinked};
ghost use Rattle.tx_world.specs.OwnCalls.{DoesAlone};
ghost use Rattle.world_parts.specs.Sending.{may_promote};
ghost use Rattle.tx_world.specs.State.{may_enter};
ghost use Rattle.tx_world.specs.Stepping.{DoesAt};

use super::TxWorld;
use crate::refusal::WorldError;
use dtx_model::EnteredCall;
use dtx_values::{ActorNo, Answer, Call, Conn, Entry, Outbox, RmNo, TxNo};
use std::alloc::AllocError;
use world_parts::{answer_call, live, recovery_answer, write_near};

/// The least room for calls that is made.
const FEW_CALLS: usize = 8;

/// A list of more calls than these is long.
const LONG_LIST: usize = 64;

/// Makes room for one call more. Most transactions have few calls, and room that is never used costs its memory all the same: so a short list grows by half of what there is. A long one is rare, and each growth
/// copies it: so it is doubled.
pub(super) fn reserve_call(calls: &mut Vec<EnteredCall>) -> Result<(), AllocError>
    ensures items { calls.new.items ≡ calls.old.items }
    ensures room { OnOk result (vec_len calls.new < vec_capacity calls.new) }
{
    if calls.len() < calls.capacity() {
        return Ok(());
    }
    let more = if calls.len() <= LONG_LIST {
        calls.len() / 2
    } else {
        calls.len()
    };
    calls.reserve_exact(FEW_CALLS.max(more))
}

/// Whether the call may send, where this says whether no promotion began: then only where it may begin one.
fn may_send(c: &Call, unpromoted: bool) -> bool
    ensures { result ≡ (may_promote c.now || not unpromoted) }
{
    matches!(c, Call::Durable(_, _, _, _) | Call::Marshal(_)) || !unpromoted
}

impl TxWorld {
    /// Enters a call that the local side answers alone.
    pub(super) fn enter_local(
        &mut self,
        up: bool,
        life: u64,
        out: &mut Outbox,
        actor: ActorNo,
        line: u32,
        c: &Call,
        done: u16,
    ) -> Result<Answer, WorldError>
        requires near { is_local c.now ≡ true }
        requires unlinked { is_unlinked self.old.world c.now ≡ true }
        requires enters { may_enter self.old.world line c.now ≡ true }
        requires answers { MayAnswer (number_of self.old.transaction) self.old.world c.now done }
        ensures answer { IfOk result (λ a. a ≡ answer_at (number_of self.old.transaction) self.old.world c.now done) }
        ensures done { OnOk result (DoesAt up life (Calls line actor c.now done) self.old self.new) }
        ensures memory { OnErr result (self.new ≡ self.old) }
    {
        let sends = may_send(c, self.half.is_unpromoted());
        self.history.reserve_for(sends)?;
        reserve_call(&mut self.calls)?;
        out.clear();
        let answer = answer_call(&mut self.half, actor, line, c, done, out);
        self.calls.push_reserved(EnteredCall {
            line,
            actor,
            call: *c,
        });
        let begins = write_near(&mut self.history, &mut self.core, out.entries(), up);
        live(&mut self.at_log, begins, life);
        Ok(answer)
    }

    /// What a `lose` is answered.
    pub(super) fn answer_lose(&self, u: TxNo, c: Conn, up: u16, down: u16) -> Answer
        ensures { (m : ℕ) → result ≡ answer_at (number_of self.now.transaction) self.now.world (Lose u c up down) m }
    {
        let is_open = self.history.is_open(c);
        self.half.if_begun(if is_open {
            Answer::Fine
        } else {
            Answer::NoSuch
        })
    }

    /// Enters the loss of an open connection.
    pub(super) fn enter_lost(
        &mut self,
        actor: ActorNo,
        line: u32,
        u: TxNo,
        c: Conn,
        up: u16,
        down: u16,
    ) -> Result<(), WorldError>
        requires enters { may_enter self.old.world line (Lose u c up down) ≡ true }
        requires fine { answer_at (number_of self.old.transaction) self.old.world (Lose u c up down) 0 ≡ Fine }
        ensures done { (m : ℕ) → OnOk result (DoesAlone (Calls line actor (Lose u c up down) m) self.old self.new) }
        ensures memory { OnErr result (self.new ≡ self.old) }
    {
        self.history.reserve()?;
        reserve_call(&mut self.calls)?;
        let call = Call::Lose(u, c, up, down);
        self.calls.push_reserved(EnteredCall { line, actor, call });
        let block = [Entry::Called(line, actor, Answer::Fine)];
        self.history.write(&block, self.core.is_stopped());
        // It is open, since that is ok. So it is lost.
        let _ = self.history.lose(c, u32::from(up), u32::from(down));
        Ok(())
    }

    /// What a `recovered` is answered.
    pub(super) fn answer_recovered(&self, u: TxNo, r: RmNo) -> Answer
        ensures { (m : ℕ) → result ≡ answer_at (number_of self.now.transaction) self.now.world (Recovered u r) m }
    {
        self.half
            .if_begun(recovery_answer(&self.half, &self.core, &self.history, r))
    }

    /// Enters that a manager has recovered.
    pub(super) fn enter_recovered(
        &mut self,
        actor: ActorNo,
        line: u32,
        u: TxNo,
        r: RmNo,
    ) -> Result<(), WorldError>
        requires enters { may_enter self.old.world line (Recovered u r) ≡ true }
        requires fine { answer_at (number_of self.old.transaction) self.old.world (Recovered u r) 0 ≡ Fine }
        ensures done { (m : ℕ) → OnOk result (DoesAlone (Calls line actor (Recovered u r) m) self.old self.new) }
        ensures memory { OnErr result (self.new ≡ self.old) }
    {
        self.history.reserve()?;
        reserve_call(&mut self.calls)?;
        let call = Call::Recovered(u, r);
        self.calls.push_reserved(EnteredCall { line, actor, call });
        let block = [
            Entry::Called(line, actor, Answer::Fine),
            Entry::Recovered(r),
        ];
        let stopped = self.core.is_stopped();
        self.core.recovery_over(r);
        self.history.write(&block, stopped);
        Ok(())
    }
}
