//! Calls, steps and replies that need no log, for a caller that doesn't hold it.
ghost use Rattle.std.specs.Prelude.{◌≡◌, ◌<◌, ◌&&◌, not, List, Ok, None, IfOk, OnOk, OnErr, true, false, is_some};
ghost use Rattle.dtx_model.specs.Caused.{MayAnswer};
ghost use Rattle.dtx_values.specs.TxIds.{number_of};
ghost use Rattle.dtx_model.specs.Log.{CommitRecord};
ghost use Rattle.dtx_model.specs.Replies.{due_of};
ghost use Rattle.dtx_model.specs.Steps.{Calls, Replies, pending};
ghost use Rattle.dtx_model.specs.Tied.{tied};
ghost use Rattle.dtx_model.specs.Words.{kth};
ghost use Rattle.dtx_model.specs.World.{answer_at, half};
ghost use Rattle.local_half.specs.Half.{fits_due};
ghost use Rattle.world_laws.specs.Left.{steps_left};
ghost use Rattle.tx_world.specs.AtLog.{Fits};
ghost use Rattle.tx_world.specs.OwnCalls.{DoesAlone, DoesKthAlone, is_alone, may_reply_alone};
ghost use Rattle.tx_world.specs.State.{may_enter};
ghost use Rattle.tx_world.specs.Stepping.{is_to_promote, needs_log};
ghost use Rattle.tx_world.specs.Prepared.{NamesPrepared};

use super::TxWorld;
use crate::refusal::WorldError;
use dtx_values::{ActorNo, Answer, Call, EnlNo, Note, Outbox, Reply};
use world_parts::PendingStep;

/// Whether a reply that fits this note, where it does, needs no log.
fn may_reply_alone(fits: bool, due: Option<Note>) -> bool
    ensures { result ≡ (fits && not (is_to_promote due)) }
{
    fits && !matches!(due, Some(Note::Promote))
}

impl TxWorld {
    /// Whether the call can be done alone, by [`TxWorld::call_alone`]: it is none of durable and marshal, which may begin a promotion, and no `do`.
    pub fn is_alone(c: &Call) -> bool
        ensures { result ≡ is_alone c.now }
    {
        !matches!(
            c,
            Call::Durable(_, _, _, _) | Call::Marshal(_) | Call::Do(_, _, _)
        )
    }

    /// Enters a call that needs no log; where it is an `await`, the client was told or nothing is pending. It does no step before the call, and writes the entry of the
    /// call and its facts. So it does what [`TxWorld::enter`] does, whatever the log is.
    ///
    /// # Errors
    ///
    /// [`WorldError::Memory`] where memory ran out, and then nothing was done.
    pub fn call_alone(
        &mut self,
        out: &mut Outbox,
        actor: ActorNo,
        line: u32,
        c: &Call,
    ) -> Result<Answer, WorldError>
        requires enters { may_enter self.old.world line c.now ≡ true }
        requires alone { is_alone c.now ≡ true }
        requires answers { MayAnswer (number_of self.old.transaction) self.old.world c.now 0 }
        ensures answer { IfOk result (λ a. a ≡ answer_at (number_of self.old.transaction) self.old.world c.now 0) }
        ensures done { OnOk result (DoesAlone (Calls line actor c.now 0) self.old self.new) }
        ensures fits { (rs : List CommitRecord) → Fits self.old rs → Fits self.new rs }
        ensures tied { tied self.old.world.past ≡ true → tied self.new.world.past ≡ true }
        ensures named { NamesPrepared self.old → NamesPrepared self.new }
        ensures memory { OnErr result (self.new ≡ self.old) }
    {
        // It sends no BEGIN, so it doesn't matter what is said of the log.
        self.is_own_run();
        let answered = self.enter_at(true, 0, out, actor, line, c, 0);
        self.is_own_run();
        answered
    }

    /// Whether the reply fits the note to which one of the enlistment is due, and that isn't one to promote, so that it needs no log. Where none is due, each fits.
    pub fn may_reply_alone(&self, e: EnlNo, r: Reply) -> bool
        ensures { result ≡ may_reply_alone r (due_of (half self.now.world).seen e.value) }
    {
        may_reply_alone(self.half.fits(e, r), self.half.due_of(e))
    }

    /// Does the reply of an enlistment that isn't asked to promote, as [`TxWorld::reply`] does, whatever the log is; false exactly where none is due.
    ///
    /// # Errors
    ///
    /// [`WorldError::Memory`] where memory ran out, and then nothing was done.
    pub fn reply_alone(&mut self, out: &mut Outbox, e: EnlNo, r: Reply) -> Result<bool, WorldError>
        requires fits { fits_due r (due_of (half self.old.world).seen e.value) ≡ true }
        requires alone { is_to_promote (due_of (half self.old.world).seen e.value) ≡ false }
        ensures due { IfOk result (λ b. b ≡ is_some (due_of (half self.old.world).seen e.value)) }
        ensures done { result ≡ Ok true → DoesAlone (Replies e r) self.old self.new }
        ensures fits { (rs : List CommitRecord) → Fits self.old rs → Fits self.new rs }
        ensures tied { tied self.old.world.past ≡ true → tied self.new.world.past ≡ true }
        ensures named { NamesPrepared self.old → NamesPrepared self.new }
        ensures unchanged { result ≡ Ok false → self.new ≡ self.old }
        ensures memory { OnErr result (self.new ≡ self.old) }
    {
        // It sends no BEGIN, so it doesn't matter what is said of the log.
        self.reply_at(true, 0, out, e, r)
    }

    /// Does the k-th pending step, from 1, where it needs no log, as [`TxWorld::step`] does, whatever the log is; false exactly where fewer than k are pending, or k is 0.
    ///
    /// # Errors
    ///
    /// [`WorldError::Memory`] where memory ran out, and then nothing was done.
    pub fn step_alone(&mut self, out: &mut Outbox, k: u32) -> Result<bool, WorldError>
        requires alone { needs_log self.old.world k ≡ false }
        ensures none { result ≡ Ok false → (kth (pending self.old.world) k ≡ None) × (self.new ≡ self.old) }
        ensures some { result ≡ Ok true → DoesKthAlone k self.old self.new }
        ensures nearer { result ≡ Ok true → steps_left self.new.world < steps_left self.old.world }
        ensures ours { (self.new.ours ≡ self.old.ours) × (self.new.unsure ≡ self.old.unsure) }
        ensures fits { (rs : List CommitRecord) → Fits self.old rs → Fits self.new rs }
        ensures tied { tied self.old.world.past ≡ true → tied self.new.world.past ≡ true }
        ensures named { NamesPrepared self.old → NamesPrepared self.new }
        ensures memory { OnErr result (self.new ≡ self.old) }
    {
        self.is_own_run();
        self.step_kth_alone(out, k)
    }

    /// Does the k-th pending step, from 1, as [`TxWorld::step_alone`] does.
    fn step_kth_alone(&mut self, out: &mut Outbox, k: u32) -> Result<bool, WorldError>
        requires alone { needs_log self.old.world k ≡ false }
        ensures none { result ≡ Ok false → (kth (pending self.old.world) k ≡ None) × (self.new ≡ self.old) }
        ensures some { result ≡ Ok true → DoesKthAlone k self.old self.new }
        ensures ours { (self.new.ours ≡ self.old.ours) × (self.new.unsure ≡ self.old.unsure) }
        ensures named { NamesPrepared self.old → NamesPrepared self.new }
        ensures memory { OnErr result (self.new ≡ self.old) }
    {
        if k == 1 && self.act_first(out)? {
            return Ok(true);
        }
        match self.at(k) {
            Some(PendingStep::Reply(e, _, r)) => self.reply_alone(out, e, r),
            Some(s) => self.do_alone(out, s),
            None => Ok(false),
        }
    }
}
