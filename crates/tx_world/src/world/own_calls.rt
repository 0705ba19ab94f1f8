//! Calls with the steps before them, calls whose steps the caller made, and the status.
ghost use Rattle.std.specs.Prelude.{ℕ, ◌≡◌, ◌∷◌, List, IfOk, OnOk, OnErr, IsTrue, true, is_some};
ghost use Rattle.dtx_values.specs.declared.call.Call.TheVariants.{Status as StatusCall};
ghost use Rattle.dtx_values.specs.TxIds.{number_of};
ghost use Rattle.dtx_values.specs.declared.entry.Answer.TheVariants.{Did};
ghost use Rattle.dtx_values.specs.declared.entry.Entry.TheVariants.{Called};
ghost use Rattle.dtx_values.specs.declared.number.TxNo.{TxNo};
ghost use Rattle.dtx_model.specs.Answers.{if_begun};
ghost use Rattle.dtx_model.specs.Caused.{MayAnswer};
ghost use Rattle.dtx_model.specs.Log.{CommitRecord};
ghost use Rattle.dtx_model.specs.Steps.{Calls};
ghost use Rattle.dtx_model.specs.Tied.{tied};
ghost use Rattle.dtx_model.specs.World.{answer_at, half};
ghost use Rattle.coordinator_log.specs.Slots.{open_records};
ghost use Rattle.tx_world.specs.AtLog.{Fits};
ghost use Rattle.tx_world.specs.OwnCalls.{DoesAlone, DoesCall, Prepares, is_do, place_of, said, status_of};
ghost use Rattle.tx_world.specs.State.{may_enter};
ghost use Rattle.tx_world.specs.Stepping.{SomeSteps};
ghost use Rattle.tx_world.specs.Leaves.{Leaves};
ghost use Rattle.tx_world.specs.Prepared.{NamesPrepared};

use super::TxWorld;
use crate::refusal::WorldError;
use coordinator_log::Log;
use dtx_values::{ActorNo, Answer, Call, Outbox, Outcome, Status};
use outside::Disk;

/// The status of a transaction that was decided so, or wasn't decided.
fn status_of(decided: Option<Outcome>) -> Status
    ensures { result ≡ status_of decided }
{
    match decided {
        Some(Outcome::Committed) => Status::Committed,
        Some(Outcome::Aborted) => Status::Aborted,
        Some(Outcome::InDoubt) => Status::InDoubt,
        None => Status::Active,
    }
}

impl TxWorld {
    /// The status of the transaction: active while nothing is decided, also before it is begun. Once it is begun, a `status` is answered so.
    pub fn status(&self) -> Status
        ensures decided { result ≡ status_of (half self.now.world).seen.decided }
        ensures answer { (t : TxNo) (m : ℕ) → answer_at (number_of self.now.transaction) self.now.world (StatusCall t) m ≡ if_begun (half self.now.world).seen.limit (said result) }
    {
        status_of(self.half.decided())
    }

    /// Enters a `do` whose m steps the caller made itself right before, each the pending step that the `do` names: at most as many as it asks for, and fewer only where
    /// there are fewer now. It writes the entry of the call, which says `did m` where the transaction is begun.
    ///
    /// # Errors
    ///
    /// [`WorldError::Memory`] where memory ran out, and then nothing was done.
    pub fn did(&mut self, actor: ActorNo, line: u32, c: &Call, m: u16) -> Result<(), WorldError>
        requires enters { may_enter self.old.world line c.now ≡ true }
        requires kind { is_do c.now ≡ true }
        requires answers { MayAnswer (number_of self.old.transaction) self.old.world c.now m }
        ensures done { OnOk result (DoesAlone (Calls line actor c.now m) self.old self.new) }
        ensures wrote { is_some (half self.old.world).seen.limit ≡ true → OnOk result (self.new.world.past ≡ Called line actor (Did m) ∷ self.old.world.past) }
        ensures fits { (rs : List CommitRecord) → Fits self.old rs → Fits self.new rs }
        ensures tied { tied self.old.world.past ≡ true → tied self.new.world.past ≡ true }
        ensures named { NamesPrepared self.old → NamesPrepared self.new }
        ensures memory { OnErr result (self.new ≡ self.old) }
    {
        let answer = self.half.if_begun(Answer::Did(m));
        self.is_own_run();
        let entered = self.write_alone(actor, line, c, m, answer);
        self.is_own_run();
        entered
    }

    /// Does what comes right before a call: the steps of a `do`, and an `await` settles. How many steps a `do` did; 0 for any other call.
    fn prepare<D: Disk>(
        &mut self,
        log: &mut Log<D>,
        out: &mut Outbox,
        c: &Call,
    ) -> Result<u16, WorldError>
        requires fits { IsTrue D.honest → IsTrue log.old.is_up → Fits self.old (open_records log.old.slots) }
        ensures prepared { IfOk result (λ m. Prepares D.faults c.now m self.old log.old self.new log.new) }
        ensures memory { OnErr result (SomeSteps D.faults (place_of c.now) self.old log.old self.new log.new) }
        ensures transaction { self.new.transaction ≡ self.old.transaction }
        ensures leaves { Leaves D.honest D.image D.faults self.old log.old self.new log.new }
        ensures tied { tied self.old.world.past ≡ true → tied self.new.world.past ≡ true }
    {
        match *c {
            Call::Do(_, k, n) => {
                let count = self.repeat(log, out, u32::from(k), u32::from(n))?;
                // It did no more steps than the call asks for.
                Ok(count as u16)
            }
            Call::Await(_) => {
                self.settle(log, out)?;
                Ok(0)
            }
            _ => Ok(0),
        }
    }

    /// Does a call: a `do` does its steps first, each the pending step that it names, as often as it asks for or until there are fewer; an `await` settles first. Then the
    /// call is entered, as [`TxWorld::enter`] does.
    ///
    /// # Errors
    ///
    /// [`WorldError::Memory`] where memory ran out; so it would in 2^32 - 1 steps of an `await`. The steps before that were done, and the call wasn't entered.
    pub fn call<D: Disk>(
        &mut self,
        log: &mut Log<D>,
        out: &mut Outbox,
        actor: ActorNo,
        line: u32,
        c: &Call,
    ) -> Result<Answer, WorldError>
        requires enters { may_enter self.old.world line c.now ≡ true }
        requires fits { IsTrue D.honest → IsTrue log.old.is_up → Fits self.old (open_records log.old.slots) }
        ensures done { IfOk result (λ a. DoesCall D.faults line actor c.now a self.old log.old self.new log.new) }
        ensures memory { OnErr result (SomeSteps D.faults (place_of c.now) self.old log.old self.new log.new) }
        ensures transaction { self.new.transaction ≡ self.old.transaction }
        ensures leaves { Leaves D.honest D.image D.faults self.old log.old self.new log.new }
        ensures tied { tied self.old.world.past ≡ true → tied self.new.world.past ≡ true }
    {
        let done = self.prepare(log, out, c)?;
        self.enter(log, out, actor, line, c, done)
    }
}
