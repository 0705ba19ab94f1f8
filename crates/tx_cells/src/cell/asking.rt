//! What is to be done next, and replies that are out.
ghost use Rattle.std.specs.Prelude.{◌≡◌, ◌&&◌, ◌++◌, ◌∷◌, [], IfErr, IfOk, IfSome, OnOk, is_some, length, true, false};
ghost use Rattle.dtx_values.specs.declared.note.Note.{Note};
ghost use Rattle.dtx_model.specs.Outcome.{is_empty};
ghost use Rattle.dtx_model.specs.Steps.{pending};
ghost use Rattle.dtx_model.specs.Words.{kth};
ghost use Rattle.tx_cells.specs.Cell.{MayReply};
ghost use Rattle.tx_cells.specs.TakingBack.{TakesBack};
ghost use Rattle.tx_cells.specs.Ties.{IsCause, TiesWith};
ghost use Rattle.tx_cells.specs.Turns.{turn_of, unmarked};
ghost use Rattle.tx_world.specs.OwnCalls.{DoesAlone};
ghost use Rattle.tx_world.specs.Stepping.{Does, reply_in};
ghost use Rattle.turn_parts.specs.Marks.{is_due, is_out, is_that, same_note};

use super::CellState;
use crate::error::TurnError;
use crate::run::Run;
use crate::turns::Turn;
use coordinator_log::Log;
use dtx_values::{EnlNo, Note, Reply};
use outside::Disk;
use turn_parts::{is_due, is_out, place_of, take_off};

impl<N: Run> CellState<N> {
    /// How many steps are pending.
    pub fn pending(&self) -> u32
        ensures { result ≡ length (pending self.now.tx.world) }
    {
        self.world.pending()
    }

    /// The enlistment and the note of the k-th pending step, from 1, where that step is a reply.
    pub fn due_at(&self, k: u32) -> Option<(EnlNo, Note)>
        ensures { result ≡ reply_in self.now.tx.world (kth (pending self.now.tx.world) k) }
    {
        self.world.due_at(k)
    }

    /// Whether nothing is pending and no reply is out.
    pub fn is_quiet(&self) -> bool
        ensures { result ≡ (is_empty (pending self.now.tx.world) && is_empty self.now.out) }
    {
        self.world.pending() == 0 && self.out.is_empty()
    }

    /// What is to be done next: the first pending step that isn't a reply that is out.
    pub fn next_turn(&self) -> Turn
        ensures { result ≡ turn_of self.now }
    {
        let count = self.world.pending();
        for k in 0..count {
            let Some(x) = self.world.due_at(k + 1) else {
                return Turn::Step(k + 1);
            };
            if !is_out(self.out.as_slice(), x) {
                return Turn::Ask(x.0, x.1);
            }
        }
        Turn::Nothing
    }

    /// Marks the reply of the enlistment to this note as out.
    ///
    /// # Errors
    ///
    /// [`TurnError::Memory`] where memory ran out, and then nothing was done.
    pub fn mark_out(&mut self, e: EnlNo, n: Note) -> Result<(), TurnError>
        ensures marked { OnOk result (self.new ≡ record { tx = self.old.tx; rows = self.old.rows; out = self.old.out ++ (e, n) ∷ [] }) }
        ensures memory { IfErr result (λ x. (x ≡ TurnError.Memory) × (self.new ≡ self.old)) }
    {
        self.out.reserve(1)?;
        self.out.push_reserved((e, n));
        Ok(())
    }

    /// Takes the mark off that the reply of the enlistment to this note is out. The place of that reply among the pending steps, from 1; `None` where it isn't pending any more.
    pub fn unmark(&mut self, e: EnlNo, n: Note) -> Option<u32>
        ensures unmarked { self.new ≡ unmarked (e, n) self.old }
        ensures due { is_some result ≡ is_due self.old.tx.world (e, n) }
        ensures place { IfSome result (λ k. is_that (e, n) (reply_in self.old.tx.world (kth (pending self.old.tx.world) k)) ≡ true) }
    {
        let asked = (e, n);
        take_off(&mut self.out, asked);
        place_of(&self.world, asked)
    }

    /// Takes the mark off, and enters the reply of the enlistment to this note, which isn't one to promote. False exactly where no reply of it to this note is pending, and then only the mark goes.
    ///
    /// # Errors
    ///
    /// [`TurnError::Memory`] where memory ran out, and then only the mark went.
    pub(crate) fn take_back_alone(&mut self, e: EnlNo, n: Note, r: Reply) -> Result<bool, TurnError>
        requires right { MayReply N.script N.objects e n r }
        requires alone { same_note n Note.Promote ≡ false }
        ensures taken { TakesBack DoesAlone e n r result self.old self.new }
        ensures ours { (self.new.tx.ours ≡ self.old.tx.ours) × (self.new.tx.unsure ≡ self.old.tx.unsure) }
        ensures memory { IfErr result (λ x. (x ≡ TurnError.Memory) × (self.new.tx ≡ self.old.tx)) }
    {
        take_off(&mut self.out, (e, n));
        if !is_due(&self.world, (e, n)) {
            return Ok(false);
        }
        self.world.is_own_run();
        self.world.reply_alone(&mut self.outbox, e, r)?;
        Ok(true)
    }

    /// Takes the mark off, and enters the reply of the enlistment to this note over this log. False exactly where no reply of it to this note is pending, and then only the mark goes.
    ///
    /// # Errors
    ///
    /// [`TurnError::Differs`] where the log is up and doesn't tie with the transaction, and [`TurnError::Memory`] where memory ran out; only the mark went then.
    pub(crate) fn take_back_over<D: Disk>(
        &mut self,
        log: &Log<D>,
        e: EnlNo,
        n: Note,
        r: Reply,
    ) -> Result<bool, TurnError>
        requires right { MayReply N.script N.objects e n r }
        ensures tied { IfOk result (λ b. TiesWith self.old.tx log.now) }
        ensures taken { TakesBack (λ m x y. Does D.faults m x log.now y log.now) e n r result self.old self.new }
        ensures ours { (self.new.tx.ours ≡ self.old.tx.ours) × (self.new.tx.unsure ≡ self.old.tx.unsure) }
        ensures cause { IfErr result (λ x. IsCause self.old.tx log.now x × (self.new.tx ≡ self.old.tx)) }
    {
        let asked = (e, n);
        take_off(&mut self.out, asked);
        if let Err(differs) = self.world.ties(log) {
            return Err(TurnError::Differs(differs));
        }
        if !is_due(&self.world, asked) {
            return Ok(false);
        }
        self.world.is_own_run();
        self.world.reply(log, &mut self.outbox, e, r)?;
        Ok(true)
    }
}
