//! What lies under the log's lock.
ghost use Rattle.std.specs.Prelude.{ℕ, ◌≡◌, ◌≤◌, ◌<◌, ◌-◌, ◌⊎◌, List, [], None, Some, Ok, IfErr, IfOk, IsTrue, OnErr, false, true};
ghost use Rattle.dtx_model.specs.Steps.{pending};
ghost use Rattle.dtx_model.specs.Words.{kth, past_of};
ghost use Rattle.coordinator_log.specs.Slots.{open_records};
ghost use Rattle.script_calls.specs.Rows.{are_entered};
ghost use Rattle.script_calls.specs.SeenRow.{SeenRow};
ghost use Rattle.dtx_values.specs.declared.number.ActorNo.{ActorNo};
ghost use Rattle.script_calls.specs.declared.calls.LogCall.{LogCall};
ghost use Rattle.tx_cells.specs.Fresh.{MayBegin};
ghost use Rattle.tx_cells.specs.LogAnswers.{put_off_at_log};
ghost use Rattle.tx_cells.specs.LogCell.{IsLogKept};
ghost use Rattle.tx_cells.specs.LogEntering.{EntersLog, MayTurnAtLog, next_at_log};
ghost use Rattle.tx_cells.specs.Ties.{IsCause, TiesWith};
ghost use Rattle.tx_cells.specs.Turns.{with_tx};
ghost use Rattle.tx_cells.specs.declared.turns.Turned.{Turned};
ghost use Rattle.tx_world.specs.AtLog.{AtMostOne};
ghost use Rattle.tx_world.specs.Leaves.{IsLater};
ghost use Rattle.tx_world.specs.Stepping.{DoesKth};
ghost use Rattle.world_laws.specs.Left.{steps_left};
ghost use Rattle.turn_parts.specs.Reopening.{restart_answer, stop_noted};

use crate::cell::CellState;
use crate::error::TurnError;
use crate::run::Run;
use crate::turns::Turned;
use coordinator_log::Log;
use dtx_values::{ActorNo, Answer, Entry, Image, LogNote, Script};
use outside::Disk;
use script_calls::{Due, LogCall, Rows, log_rows};
use std::alloc::{AllocError, Global};
use std::marker::{Model, PhantomData};
use std::sync::Mutex;
use turn_parts::{reopened, restart_answer, write_restart, write_stop};

mod kept;

/// What lies under the log's lock: the log, the calls of each actor there, and the entries at the log.
#[derive(Drop)]
pub struct LogState<D: Disk, N: Run> {
    log: Log<D>,
    rows: Rows<LogCall>,
    /// Oldest first.
    entries: Vec<Entry>,
    of: PhantomData<N>,
}

impl<D: Disk, N: Run> Model for LogState<D, N> {
    ghost use Rattle.dtx_model.specs.Words.{past_of};
    ghost use Rattle.tx_cells.specs.LogCell.{IsLogKept, LogCell};

    ghost Value = { LogCell D };

    ghost view = { λ l. record { log = l.log; rows = l.rows; past = past_of l.entries.items } };

    ghost invariant = { λ l. IsLogKept D.faults D.honest D.image N.script N.honest N.faults (record { log = l.log; rows = l.rows; past = past_of l.entries.items }) };
}

impl<D: Disk, N: Run> LogState<D, N> {
    /// The state over this log, at which nothing came yet, with the calls of each actor there.
    ///
    /// # Errors
    ///
    /// The log is handed back where memory ran out.
    fn over(alloc: Global, log: Log<D>, s: &Script) -> Result<Self, (AllocError, Log<D>)>
        requires { MayBegin N.script N.honest N.faults D.honest D.faults s.now log }
        ensures log { IfOk result (λ c. c.log ≡ log) }
        ensures blank { IfOk result (λ c. c.past ≡ []) }
        ensures back { IfErr result (λ e. e.1 ≡ log) }
    {
        let rows = match log_rows(alloc, s.lines()) {
            Ok(rows) => rows,
            Err(e) => return Err((e, log)),
        };
        // A proof sees here what the images of the disk have.
        let _ = log.is_up();
        Ok(LogState {
            log,
            rows,
            entries: Vec::new(alloc),
            of: PhantomData,
        })
    }

    /// The entries at the log, oldest first.
    pub fn entries(&self) -> &[Entry]
        ensures { past_of result.now ≡ self.now.past }
    {
        self.entries.as_slice()
    }

    /// The actor's next call at the log; `None` where none is left.
    pub fn next(&self, a: ActorNo) -> Option<Due<LogCall>>
        ensures { result ≡ next_at_log a self.now }
    {
        self.rows.next(a)
    }

    /// Whether each call at the log was entered.
    pub fn are_entered(&self) -> bool
        ensures value { result ≡ are_entered self.now.rows }
        ensures none { ((a : ActorNo) → next_at_log a self.now ≡ None) → are_entered self.now.rows ≡ true }
    {
        self.rows.are_all_entered()
    }

    /// Whether the log is up.
    pub fn is_up(&self) -> bool
        ensures { result ≡ self.now.log.is_up }
    {
        self.log.is_up()
    }

    /// The log.
    pub fn log(&self) -> &Log<D>
        ensures same { result.now ≡ self.now.log }
        ensures honest { D.honest ≡ N.honest }
        ensures once { (id : ℕ) → IsTrue D.honest → IsTrue self.now.log.is_up → AtMostOne id (open_records self.now.log.slots) }
    {
        &self.log
    }

    /// Enters the actor's next call at the log, where it is of this line: a `stop`, or a `restart`, which writes its call, `stopped` where the log was up, and `opened` where it was opened. Where it isn't
    /// of this line, nothing is done.
    ///
    /// # Errors
    ///
    /// [`TurnError::Memory`] where memory ran out, and then nothing was done.
    pub fn enter(&mut self, a: ActorNo, line: u32) -> Result<Turned, TurnError>
        ensures entered { put_off_at_log line (next_at_log a self.old) ≡ None → IfOk result (λ r. EntersLog D.faults D.honest D.seen a line r self.old self.new) }
        ensures put_off { (x : Turned) → put_off_at_log line (next_at_log a self.old) ≡ Some x → IfOk result (λ r. (r ≡ x) × (self.new ≡ self.old)) }
        ensures called { IfOk result (MayTurnAtLog N.script a line) }
        ensures memory { IfErr result (λ e. (e ≡ TurnError.Memory) × (self.new ≡ self.old)) }
    {
        let Some(due) = self.rows.next(a) else {
            return Ok(Turned::NotNext(0));
        };
        if due.line != line {
            return Ok(Turned::NotNext(due.line));
        }
        match due.call {
            LogCall::Stop(k, image) => Ok(self.enter_stop(a, line, k, image)?),
            LogCall::Restart => Ok(self.enter_restart(a, line)?),
        }
    }

    /// Does the k-th pending step of a transaction of the run over the log, from 1; false exactly where fewer than k are pending, or k is 0. Where an append or a free in it stopped the log, `stopped` is
    /// written at the log too.
    ///
    /// # Errors
    ///
    /// [`TurnError::Differs`] where the log is up and doesn't tie with the transaction, and [`TurnError::Memory`] where memory ran out; nothing was done then.
    pub(crate) fn step(&mut self, cell: &mut CellState<N>, k: u32) -> Result<bool, TurnError>
        ensures tied { IfOk result (λ b. TiesWith cell.old.tx self.old.log) }
        ensures none { result ≡ Ok false → (kth (pending cell.old.tx.world) k ≡ None) × (cell.new ≡ cell.old) × (self.new ≡ self.old) }
        ensures some { result ≡ Ok true → DoesKth D.faults k cell.old.tx self.old.log cell.new.tx self.new.log }
        ensures nearer { result ≡ Ok true → steps_left cell.new.tx.world < steps_left cell.old.tx.world }
        ensures same { cell.new ≡ with_tx cell.new.tx cell.old }
        ensures rows { self.new.rows ≡ self.old.rows }
        ensures past { self.new.past ≡ stop_noted self.old.log.is_up self.new.log.is_up self.old.past }
        ensures later { IsLater D.faults self.old.log self.new.log }
        ensures cause { IfErr result (λ e. ((e ≡ TurnError.Memory) ⊎ IsCause cell.old.tx self.old.log e) × (cell.new ≡ cell.old) × (self.new ≡ self.old)) }
    {
        cell.is_named();
        self.entries.reserve(1)?;
        let was_up = self.log.is_up();
        if !cell.do_step_over(&mut self.log, k)? {
            return Ok(false);
        }
        let is_up = self.log.is_up();
        write_stop(&mut self.entries, was_up, is_up);
        Ok(true)
    }

    /// The log, and the entries at it, oldest first.
    pub fn into_parts(self) -> (Log<D>, Vec<Entry>)
        ensures log { result.0 ≡ self.log }
        ensures past { past_of result.1.items ≡ self.past }
    {
        let LogState {
            log,
            rows: _,
            entries,
            of: _,
        } = self;
        (log, entries)
    }

    /// Enters the actor's next call, which arms a stop.
    fn enter_stop(
        &mut self,
        a: ActorNo,
        line: u32,
        k: u8,
        image: Image,
    ) -> Result<Turned, AllocError>
        requires { next_at_log a self.old ≡ Some (record { line = line; call = LogCall.Stop k image }) }
        ensures entered { IfOk result (λ r. EntersLog D.faults D.honest D.seen a line r self.old self.new) }
        ensures memory { OnErr result (self.new ≡ self.old) }
    {
        self.entries.reserve(2)?;
        self.log.arm(k, image);
        self.entries
            .push_reserved(Entry::Called(line, a, Answer::Fine));
        self.entries
            .push_reserved(Entry::LogWord(LogNote::Armed(k, image)));
        self.rows.advance(a);
        Ok(Turned::Did(Answer::Fine))
    }

    /// Enters the actor's next call, which stops the log and opens it again.
    fn enter_restart(&mut self, a: ActorNo, line: u32) -> Result<Turned, AllocError>
        requires { next_at_log a self.old ≡ Some (record { line = line; call = LogCall.Restart }) }
        ensures entered { IfOk result (λ r. EntersLog D.faults D.honest D.seen a line r self.old self.new) }
        ensures memory { OnErr result (self.new ≡ self.old) }
    {
        self.entries.reserve(3)?;
        let was_up = self.log.is_up();
        let found = reopened(&mut self.log);
        write_restart(&mut self.entries, line, a, was_up, &found);
        self.rows.advance(a);
        Ok(Turned::Did(restart_answer(&found)))
    }
}

/// The log's lock, with the log, the calls of each actor there, and the entries at the log.
#[derive(Drop)]
pub struct SharedLog<D: Disk, N: Run> {
    lock: Mutex<LogState<D, N>>,
}

impl<D: Disk, N: Run> SharedLog<D, N> {
    /// The lock of a log at which nothing came yet.
    ///
    /// # Errors
    ///
    /// The log is handed back where memory ran out.
    pub fn over(alloc: Global, log: Log<D>, s: &Script) -> Result<Self, (AllocError, Log<D>)>
        requires { MayBegin N.script N.honest N.faults D.honest D.faults s.now log }
        ensures { IfErr result (λ e. e.1 ≡ log) }
    {
        match LogState::over(alloc, log, s) {
            Ok(state) => Ok(SharedLog {
                lock: Mutex::new(state),
            }),
            Err(back) => Err(back),
        }
    }

    /// The lock.
    pub fn state(&self) -> &Mutex<LogState<D, N>> {
        &self.lock
    }

    /// What the lock has.
    pub fn into_state(self) -> LogState<D, N> {
        let SharedLog { lock } = self;
        lock.into_inner()
    }

    /// The log, and the entries at it, oldest first. They are what the type of its state keeps.
    pub fn into_parts(self) -> (Log<D>, Vec<Entry>)
        ensures { (rows : List (SeenRow LogCall)) × IsLogKept D.faults D.honest D.image N.script N.honest N.faults (record { log = result.0; rows = rows; past = past_of result.1.items }) }
    {
        self.into_state().into_parts()
    }
}
