//! Entering the next call of an actor.
ghost use Rattle.std.specs.Prelude.{◌≡◌, Some, None, IfErr, IfOk, false};
ghost use Rattle.tx_cells.specs.Entering.{Enters, may_promote_at, must_wait, next_of, put_off};
ghost use Rattle.tx_cells.specs.Ties.{IsCause, TiesWith};
ghost use Rattle.tx_cells.specs.declared.turns.Turned.{Turned};
ghost use Rattle.tx_world.specs.OwnCalls.{DoesAlone};
ghost use Rattle.tx_world.specs.Stepping.{Does};

use super::CellState;
use crate::error::TurnError;
use crate::run::Run;
use crate::turns::Turned;
use coordinator_log::Log;
use dtx_values::{ActorNo, Call};
use outside::Disk;
use tx_world::TxWorld;

/// Whether the call waits: it is an await, the client wasn't told, and a step is pending.
fn must_wait(w: &TxWorld, c: &Call) -> bool
    ensures { result ≡ must_wait w.now.world c.now }
{
    matches!(c, Call::Await(_)) && w.told().is_none() && w.pending() > 0
}

impl<N: Run> CellState<N> {
    /// The actor's next call here, where it is of this line and doesn't wait.
    ///
    /// # Errors
    ///
    /// What is said to the line otherwise.
    fn due(&self, a: ActorNo, line: u32) -> Result<Call, Turned>
        ensures due { IfOk result (λ c. (put_off self.now.tx.world line (next_of a self.now) ≡ None) × (next_of a self.now ≡ Some (record { line = line; call = c }))) }
        ensures put_off { IfErr result (λ x. put_off self.now.tx.world line (next_of a self.now) ≡ Some x) }
    {
        let Some(due) = self.rows.next(a) else {
            return Err(Turned::NotNext(0));
        };
        if due.line != line {
            return Err(Turned::NotNext(due.line));
        }
        if must_wait(&self.world, &due.call) {
            return Err(Turned::Later);
        }
        Ok(due.call)
    }

    /// Enters the actor's next call here, where it is of this line, which is neither a durable nor a marshal and so needs no log. Where it isn't, or waits, nothing is done.
    ///
    /// # Errors
    ///
    /// [`TurnError::Memory`] where memory ran out, and then nothing was done.
    pub(crate) fn enter_alone(&mut self, a: ActorNo, line: u32) -> Result<Turned, TurnError>
        requires alone { may_promote_at N.script line ≡ false }
        ensures entered { put_off self.old.tx.world line (next_of a self.old) ≡ None → IfOk result (λ r. Enters DoesAlone a line r self.old self.new) }
        ensures put_off { (x : Turned) → put_off self.old.tx.world line (next_of a self.old) ≡ Some x → IfOk result (λ r. (r ≡ x) × (self.new ≡ self.old)) }
        ensures memory { IfErr result (λ e. (e ≡ TurnError.Memory) × (self.new ≡ self.old)) }
    {
        let call = match self.due(a, line) {
            Ok(call) => call,
            Err(x) => return Ok(x),
        };
        let answer = self.world.call_alone(&mut self.outbox, a, line, &call)?;
        self.rows.advance(a);
        Ok(Turned::Did(answer))
    }

    /// Enters the actor's next call here, where it is of this line, over this log. Where it isn't, or waits, nothing is done.
    ///
    /// # Errors
    ///
    /// [`TurnError::Differs`] where the log is up and doesn't tie with the transaction, and [`TurnError::Memory`] where memory ran out; nothing was done then.
    pub(crate) fn enter_over<D: Disk>(
        &mut self,
        log: &Log<D>,
        a: ActorNo,
        line: u32,
    ) -> Result<Turned, TurnError>
        ensures tied { IfOk result (λ r. TiesWith self.old.tx log.now) }
        ensures entered { put_off self.old.tx.world line (next_of a self.old) ≡ None → IfOk result (λ r. Enters (λ m x y. Does D.faults m x log.now y log.now) a line r self.old self.new) }
        ensures put_off { (x : Turned) → put_off self.old.tx.world line (next_of a self.old) ≡ Some x → IfOk result (λ r. (r ≡ x) × (self.new ≡ self.old)) }
        ensures cause { IfErr result (λ e. IsCause self.old.tx log.now e × (self.new ≡ self.old)) }
    {
        if let Err(differs) = self.world.ties(log) {
            return Err(TurnError::Differs(differs));
        }
        let call = match self.due(a, line) {
            Ok(call) => call,
            Err(x) => return Ok(x),
        };
        let answer = self.world.enter(log, &mut self.outbox, a, line, &call, 0)?;
        self.rows.advance(a);
        Ok(Turned::Did(answer))
    }
}
