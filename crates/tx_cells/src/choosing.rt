//! The calls of a transaction's state that may be lent the log's.
ghost use Rattle.std.specs.Prelude.{◌≡◌, ◌⊎◌, ◌<◌, IfErr, IfNone, IfOk, MatchOption, None, Ok, Some, false, true};
ghost use Rattle.dtx_values.specs.declared.note.Note.{Note};
ghost use Rattle.dtx_values.specs.TxIds.{number_of};
ghost use Rattle.dtx_model.specs.Steps.{pending};
ghost use Rattle.dtx_model.specs.Words.{kth};
ghost use Rattle.tx_cells.specs.Cell.{MayReply};
ghost use Rattle.tx_cells.specs.Entering.{Enters, IsDone, IsKthDone, MayTurn, may_promote_at, next_of, put_off};
ghost use Rattle.tx_cells.specs.TakingBack.{TakesBack};
ghost use Rattle.tx_cells.specs.Ties.{IsCause};
ghost use Rattle.tx_cells.specs.Turns.{with_tx};
ghost use Rattle.tx_cells.specs.declared.turns.Turned.{Turned};
ghost use Rattle.tx_world.specs.Stepping.{needs_log};
ghost use Rattle.world_laws.specs.Left.{steps_left};
ghost use Rattle.turn_parts.specs.Marks.{same_note};

use crate::cell::CellState;
use crate::error::TurnError;
use crate::run::Run;
use crate::shared_log::LogState;
use crate::turns::Turned;
use dtx_values::{ActorNo, EnlNo, Note, Reply};
use outside::Disk;

#[tactic(auto, using(crate::proofs::EitherWay::enters_alone, crate::proofs::EitherWay::enters_over, crate::proofs::EitherWay::kth_alone, crate::proofs::EitherWay::kth_over, crate::proofs::EitherWay::taken_alone, crate::proofs::EitherWay::taken_over))]
impl<N: Run> CellState<N> {
    /// Enters the actor's next call here, where it is of this line. Where it isn't, or waits, nothing is done. The log is lent where the line is a durable or a marshal.
    ///
    /// # Errors
    ///
    /// [`TurnError::Differs`] where a log is lent that is up and doesn't tie with the transaction, and [`TurnError::Memory`] where memory ran out; nothing was done then.
    pub fn enter<D: Disk>(
        &mut self,
        log: Option<&LogState<D, N>>,
        a: ActorNo,
        line: u32,
    ) -> Result<Turned, TurnError>
        requires lent { IfNone log (may_promote_at N.script line ≡ false) }
        ensures entered { put_off self.old.tx.world line (next_of a self.old) ≡ None → IfOk result (λ r. Enters IsDone a line r self.old self.new) }
        ensures put_off { (x : Turned) → put_off self.old.tx.world line (next_of a self.old) ≡ Some x → IfOk result (λ r. (r ≡ x) × (self.new ≡ self.old)) }
        ensures called { IfOk result (MayTurn N.script (number_of self.old.tx.transaction) a line) }
        ensures cause { IfErr result (λ e. (self.new ≡ self.old) × MatchOption log.entry (e ≡ TurnError.Memory) (λ l. IsCause self.old.tx l.now.log e)) }
    {
        self.is_kept();
        match log {
            Some(log) => self.enter_with(log, a, line),
            None => self.enter_alone(a, line),
        }
    }

    /// Does the k-th pending step, from 1; false exactly where fewer than k are pending, or k is 0. A reply is the planned one. The log is lent where the step needs it: it is the coordinator's act, or a reply to
    /// promote. Where an append or a free in it stopped the log, `stopped` is written at the log too.
    ///
    /// # Errors
    ///
    /// [`TurnError::Differs`] where a log is lent that is up and doesn't tie with the transaction, and [`TurnError::Memory`] where memory ran out; nothing was done then.
    pub fn do_step<D: Disk>(
        &mut self,
        log: Option<&mut LogState<D, N>>,
        k: u32,
    ) -> Result<bool, TurnError>
        requires lent { IfNone log (needs_log self.old.tx.world k ≡ false) }
        ensures none { result ≡ Ok false → (kth (pending self.old.tx.world) k ≡ None) × (self.new ≡ self.old) }
        ensures some { result ≡ Ok true → IsKthDone k self.old.tx self.new.tx }
        ensures nearer { result ≡ Ok true → steps_left self.new.tx.world < steps_left self.old.tx.world }
        ensures same { self.new ≡ with_tx self.new.tx self.old }
        ensures cause { IfErr result (λ e. (self.new ≡ self.old) × MatchOption log.entry (e ≡ TurnError.Memory) (λ l. (e ≡ TurnError.Memory) ⊎ IsCause self.old.tx l.now.log e)) }
    {
        match log {
            Some(log) => self.do_step_with(log, k),
            None => self.do_step_alone(k),
        }
    }

    /// Takes the mark off, and enters the reply of the enlistment to this note. False exactly where no reply of it to this note is pending, and then only the mark goes. The log is lent where the note is
    /// Promote.
    ///
    /// # Errors
    ///
    /// [`TurnError::Differs`] where a log is lent that is up and doesn't tie with the transaction, and [`TurnError::Memory`] where memory ran out; only the mark went then.
    pub fn take_back<D: Disk>(
        &mut self,
        log: Option<&LogState<D, N>>,
        e: EnlNo,
        n: Note,
        r: Reply,
    ) -> Result<bool, TurnError>
        requires right { MayReply N.script N.objects e n r }
        requires lent { IfNone log (same_note n Note.Promote ≡ false) }
        ensures taken { TakesBack IsDone e n r result self.old self.new }
        ensures cause { IfErr result (λ x. (self.new.tx ≡ self.old.tx) × MatchOption log.entry (x ≡ TurnError.Memory) (λ l. IsCause self.old.tx l.now.log x)) }
    {
        match log {
            Some(log) => self.take_back_with(log, e, n, r),
            None => self.take_back_alone(e, n, r),
        }
    }
}
