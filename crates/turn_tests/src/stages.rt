//! Where the threads of a test act: a run with no objects, its cells and the log that they share.
ghost use Rattle.std.specs.Prelude.{◌≡◌};

use dtx_values::{ActorNo, Entry, Outcome, TxNo};
use outside::{Disk, OpenGate};
use std::alloc::Global;
use std::sync::Wait;
use tx_threads::{Cells, Run, SharedLog, TurnError, Turned, call_as, help_one, peek_outcome};

/// A run whose threads may act.
#[derive(Drop)]
pub struct Stage<'a, N: Run, D: Disk, R> {
    pub rt: &'a R,
    pub alloc: Global,
    pub cells: &'a Cells<N>,
    pub log: &'a SharedLog<D, N>,
}

impl<N: Run, D: Disk, R: Wait> Stage<'_, N, D, R> {
    /// Enters the actor's calls from the first line to the last at the transaction: whether each was entered.
    pub fn entered(&self, a: ActorNo, first: u32, last: u32, t: TxNo) -> Result<bool, TurnError>
        requires { N.objects ≡ 0 }
    {
        let none = [];
        let objects = none.as_slice();
        let (rt, alloc, cells, log) = (self.rt, self.alloc, self.cells, self.log);
        for line in first..=last {
            if !cells.has(t) {
                return Ok(false);
            }
            let turned = call_as(rt, alloc, cells, log, &OpenGate, objects, a, line, t)?;
            if !matches!(turned, Turned::Did(_)) {
                return Ok(false);
            }
        }
        Ok(true)
    }

    /// Does what is to be done in the transaction, until nothing is.
    fn helped(&self, t: TxNo) -> Result<(), TurnError>
        requires { N.objects ≡ 0 }
    {
        let none = [];
        let objects = none.as_slice();
        let (rt, alloc, cells, log) = (self.rt, self.alloc, self.cells, self.log);
        for _ in 0..1_000 {
            if !cells.has(t) || !help_one(rt, alloc, cells, log, &OpenGate, objects, t)? {
                break;
            }
        }
        Ok(())
    }

    /// What is on the board of the transaction, seen without its lock.
    pub fn told(&self, t: TxNo) -> Option<Outcome> {
        if !self.cells.has(t) {
            return None;
        }
        let mut note = self.cells.note_of(t);
        let posted = peek_outcome(self.cells, t, &mut note)?;
        Some(posted.outcome())
    }

    /// Enters the calls, does what is to be done then, and looks at the board; `None` where a call wasn't entered.
    pub fn brought(
        &self,
        a: ActorNo,
        first: u32,
        last: u32,
        t: TxNo,
    ) -> Result<Option<Outcome>, TurnError>
        requires { N.objects ≡ 0 }
    {
        if !self.entered(a, first, last, t)? {
            return Ok(None);
        }
        self.helped(t)?;
        Ok(self.told(t))
    }

    /// Whether the history of the transaction has this entry, and whether that is its last.
    pub fn seen(&self, t: TxNo, wanted: Entry) -> (bool, bool) {
        let (mut is_there, mut is_last) = (false, false);
        if self.cells.has(t) {
            let state = self.cells.cell(t).state().lock(self.rt);
            for i in 0..state.history().len() {
                is_last = state.history().at(i) == wanted;
                is_there |= is_last;
            }
        }
        (is_there, is_last)
    }
}
