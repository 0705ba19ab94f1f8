//! The calls that a world is given.
ghost use Rattle.std.specs.Prelude.{◌≡◌, ◌&&◌, not, List, IfOk, OnOk, OnErr, true, false};
ghost use Rattle.dtx_values.specs.declared.entry.Answer.TheVariants.{Fine};
ghost use Rattle.dtx_values.specs.TxIds.{number_of};
ghost use Rattle.dtx_model.specs.Facts.{has_facts};
ghost use Rattle.dtx_model.specs.Log.{CommitRecord};
ghost use Rattle.dtx_model.specs.Tied.{tied};
ghost use Rattle.dtx_model.specs.World.{answer_at};
ghost use Rattle.dtx_model.specs.Steps.{Calls};
ghost use Rattle.dtx_model.specs.Caused.{MayAnswer};
ghost use Rattle.world_parts.specs.Entering.{is_near};
ghost use Rattle.tx_world.specs.AtLog.{Fits};
ghost use Rattle.tx_world.specs.State.{is_linking, may_enter};
ghost use Rattle.tx_world.specs.OwnCalls.{DoesAlone};
ghost use Rattle.tx_world.specs.Stepping.{Does, DoesAt};
ghost use Rattle.tx_world.specs.Prepared.{NamesPrepared};

use super::TxWorld;
use super::entering::reserve_call;
use crate::refusal::WorldError;
use coordinator_log::Log;
use dtx_model::EnteredCall;
use dtx_values::{ActorNo, Answer, Call, Entry, Outbox};
use local_half::LocalHalf;
use outside::Disk;
use world_parts::{await_answer, is_entered, is_made};

/// Whether neither holds.
fn is_neither(a: bool, b: bool) -> bool
    ensures { result ≡ (not a && not b) }
{
    !a && !b
}

impl TxWorld {
    /// Whether the call of this line may be entered: no call of the line was, and none that makes the same enlistment or the same clone.
    pub fn may_enter(&self, line: u32, c: &Call) -> bool
        ensures { result ≡ may_enter self.now.world line c.now }
    {
        is_neither(is_entered(&self.calls, line), is_made(&self.calls, c))
    }

    /// Enters a call, for which so many steps were done right before where it is a `do`; and where it is an `await`, the client was told or nothing is pending. It writes the
    /// entry of the call and its facts.
    ///
    /// # Errors
    ///
    /// [`WorldError::Memory`] where memory ran out, and then nothing was done.
    pub fn enter<D: Disk>(
        &mut self,
        log: &Log<D>,
        out: &mut Outbox,
        actor: ActorNo,
        line: u32,
        c: &Call,
        done: u16,
    ) -> Result<Answer, WorldError>
        requires enters { may_enter self.old.world line c.now ≡ true }
        requires answers { MayAnswer (number_of self.old.transaction) self.old.world c.now done }
        ensures answer { IfOk result (λ a. a ≡ answer_at (number_of self.old.transaction) self.old.world c.now done) }
        ensures done { OnOk result (Does D.faults (Calls line actor c.now done) self.old log.now self.new log.now) }
        ensures fits { (rs : List CommitRecord) → Fits self.old rs → Fits self.new rs }
        ensures tied { tied self.old.world.past ≡ true → tied self.new.world.past ≡ true }
        ensures named { NamesPrepared self.old → NamesPrepared self.new }
        ensures memory { OnErr result (self.new ≡ self.old) }
    {
        self.is_own_run();
        let answered = self.enter_at(log.is_up(), log.life(), out, actor, line, c, done);
        self.is_own_run();
        answered
    }

    /// Enters a call, where this says whether the log is up, and in which life.
    pub(super) fn enter_at(
        &mut self,
        up: bool,
        life: u64,
        out: &mut Outbox,
        actor: ActorNo,
        line: u32,
        c: &Call,
        done: u16,
    ) -> Result<Answer, WorldError>
        requires enters { may_enter self.old.world line c.now ≡ true }
        requires answers { MayAnswer (number_of self.old.transaction) self.old.world c.now done }
        ensures answer { IfOk result (λ a. a ≡ answer_at (number_of self.old.transaction) self.old.world c.now done) }
        ensures done { OnOk result (DoesAt up life (Calls line actor c.now done) self.old self.new) }
        ensures memory { OnErr result (self.new ≡ self.old) }
    {
        if self.is_near(c) {
            return self.enter_local(up, life, out, actor, line, c, done);
        }
        let answer = self.answer_far(c, done);
        if answer == Answer::Fine {
            self.enter_far(out, actor, line, c, done)?;
            return Ok(answer);
        }
        self.write_alone(actor, line, c, done, answer)?;
        Ok(answer)
    }

    /// Whether the local side answers the call alone: it is one of its own, or the loss of an enlistment with no open connection.
    fn is_near(&self, c: &Call) -> bool
        ensures { result ≡ is_near self.now.world c.now }
    {
        match *c {
            Call::Gone(e) => !self.has_open(e),
            _ => LocalHalf::is_its_own(c),
        }
    }

    /// What a call is answered that the local side doesn't answer alone, for which so many steps were done.
    fn answer_far(&self, c: &Call, done: u16) -> Answer
        requires far { is_near self.now.world c.now ≡ false }
        ensures { result ≡ answer_at (number_of self.now.transaction) self.now.world c.now done }
    {
        match *c {
            Call::Await(_) => self.half.if_begun(await_answer(self.half.told_client())),
            Call::Do(_, _, _) => self.half.if_begun(Answer::Did(done)),
            Call::Lose(u, wire, up, down) => self.answer_lose(u, wire, up, down),
            Call::Gone(e) => self.answer_gone(e),
            Call::Reenlist(e) => self.answer_reenlist(e),
            Call::Recovered(u, r) => self.answer_recovered(u, r),
            _ => unreachable!(),
        }
    }

    /// Enters a call that the local side doesn't answer alone, and that is answered ok: a loss, that an enlistment comes back, or that a manager has recovered.
    fn enter_far(
        &mut self,
        out: &mut Outbox,
        actor: ActorNo,
        line: u32,
        c: &Call,
        done: u16,
    ) -> Result<(), WorldError>
        requires enters { may_enter self.old.world line c.now ≡ true }
        requires kind { is_linking c.now ≡ true }
        requires far { is_near self.old.world c.now ≡ false }
        requires fine { answer_at (number_of self.old.transaction) self.old.world c.now done ≡ Fine }
        ensures done { OnOk result (DoesAlone (Calls line actor c.now done) self.old self.new) }
        ensures memory { OnErr result (self.new ≡ self.old) }
    {
        match *c {
            Call::Lose(u, wire, up, down) => self.enter_lost(actor, line, u, wire, up, down),
            Call::Gone(e) => self.enter_cut(out, actor, line, e),
            Call::Reenlist(e) => self.enter_returned(out, actor, line, e),
            Call::Recovered(u, r) => self.enter_recovered(actor, line, u, r),
            _ => unreachable!(),
        }
    }

    /// Writes the entry of a call that writes its entry alone, with this answer.
    pub(super) fn write_alone(
        &mut self,
        actor: ActorNo,
        line: u32,
        c: &Call,
        done: u16,
        answer: Answer,
    ) -> Result<(), WorldError>
        requires enters { may_enter self.old.world line c.now ≡ true }
        requires answers { MayAnswer (number_of self.old.transaction) self.old.world c.now done }
        requires answer { answer ≡ answer_at (number_of self.old.transaction) self.old.world c.now done }
        requires alone { has_facts answer ≡ false }
        ensures done { OnOk result (DoesAlone (Calls line actor c.now done) self.old self.new) }
        ensures memory { OnErr result (self.new ≡ self.old) }
    {
        reserve_call(&mut self.calls)?;
        self.history.reserve_for(false)?;
        self.calls.push_reserved(EnteredCall {
            line,
            actor,
            call: *c,
        });
        let block = [Entry::Called(line, actor, answer)];
        self.history.write(&block, self.core.is_stopped());
        Ok(())
    }
}
