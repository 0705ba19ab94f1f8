//! What the coordinator does at its log, and what a stop, a restart and the end of a manager's recovery make of it.
ghost use Rattle.std.specs.Prelude.{ℕ, ◌≡◌, ◌<◌, ◌≤◌, ◌+◌, [], ◌∷◌, ◌++◌, ◌&&◌, not, Some, None, false, true, if◌then◌else◌, is_some, take};
ghost use Rattle.std.specs.Option.{ForSome};
ghost use Rattle.dtx_values.specs.Outgoing.{written};
ghost use Rattle.dtx_values.specs.TxIds.{number_of};
ghost use Rattle.dtx_values.specs.declared.entry.Entry.TheVariants.{Freed, LogFull, Logged, Recovered, Restarted, Stopped};
ghost use Rattle.dtx_values.specs.declared.record.LogRecord.{LogRecord};
ghost use Rattle.dtx_model.specs.Coordinated.{abort_sends, commit_sends, follow, follow_all, is_prepared, may_free, may_log};
ghost use Rattle.dtx_model.specs.Log.{record_of};
ghost use Rattle.dtx_model.specs.Promotes.{identifier_of};
ghost use Rattle.coordinator_core.specs.Acting.{IsHeard, IsVoted, appended_by, freed_by, record_for};
ghost use Rattle.coordinator_core.specs.Kept.{HasRoom};

use super::Core;
use crate::act::CoreAct;
use crate::ballots::is_prepared;
use crate::desks::keep;
use crate::stages::restarted;
use dtx_model::{Desk, Stage};
use dtx_values::{LogRecord, Outbox, RmNo};

/// Puts an enlistment into a record, where it said PREPARED. The record has room for it.
fn add_if_prepared(kept: &mut LogRecord, d: &Desk)
    requires { kept.old.count < 16 }
    ensures id { kept.new.id ≡ kept.old.id }
    ensures count { kept.new.count ≤ kept.old.count + 1 }
    ensures pairs { take kept.new.count kept.new.durables ≡ take kept.old.count kept.old.durables ++ (if is_prepared d.now.ballot then (d.now.manager, d.now.enlistment) ∷ [] else []) }
{
    if is_prepared(d.ballot) {
        kept.add(d.manager, d.enlistment);
    }
}

#[tactic(auto, unfolding(dtx_model::specs::Coordinated::follow, dtx_model::specs::Coordinated::follow_all))]
impl Core {
    /// The record of the commit: the transaction's identifier, and each enlistment that said PREPARED.
    fn record(&self) -> LogRecord
        ensures { record_of result ≡ record_for (number_of self.now.transaction) self.now.state }
    {
        let mut record = LogRecord::new(self.identifier());
        for d in self.desks() {
            add_if_prepared(&mut record, d);
        }
        record
    }

    /// The act at the log; `None` exactly where there is none. The record of the commit is to be appended where all votes stand, and it
    /// is to be freed where each that said PREPARED is finished.
    pub fn act(&self) -> Option<CoreAct>
        ensures appends { appended_by result ≡ (if may_log self.now.state then Some (record_for (number_of self.now.transaction) self.now.state) else None) }
        ensures frees { freed_by result ≡ (if not (may_log self.now.state) && may_free self.now.state then Some (identifier_of (number_of self.now.transaction)) else None) }
        // the causes: a record is appended on all votes alone, and freed once all heard the commit
        ensures voted { (r : LogRecord) → result ≡ Some (CoreAct.WriteRecord r) → IsVoted self.now.state }
        ensures heard { (id : ℕ) → result ≡ Some (CoreAct.FreeIt id) → IsHeard self.now.state }
    {
        if self.may_log() {
            return Some(CoreAct::WriteRecord(self.record()));
        }
        if self.may_free() {
            return Some(CoreAct::FreeIt(self.identifier()));
        }
        None
    }

    /// The record stands, as the caller wrote: each is told of the commit.
    pub fn logged(&mut self, out: &mut Outbox)
        requires pending { may_log self.old.state ≡ true }
        requires room { HasRoom out.old }
        ensures transaction { self.new.transaction ≡ self.old.transaction }
        ensures state { self.new.state ≡ follow_all self.old.state (Logged ∷ commit_sends (follow self.old.state Logged)) }
        ensures out { out.new ≡ written out.old (commit_sends (follow self.old.state Logged)) }
    {
        self.stage = Stage::Recorded;
        self.tell_commit(out);
    }

    /// The log was full, as the caller wrote: the transaction aborts.
    pub fn log_full(&mut self, out: &mut Outbox)
        requires pending { may_log self.old.state ≡ true }
        requires room { HasRoom out.old }
        ensures transaction { self.new.transaction ≡ self.old.transaction }
        ensures state { self.new.state ≡ follow_all self.old.state (LogFull ∷ abort_sends (follow self.old.state LogFull)) }
        ensures out { out.new ≡ written out.old (abort_sends (follow self.old.state LogFull)) }
    {
        self.stage = Stage::Aborted;
        self.tell_abort(out);
    }

    /// The record was freed, as the caller wrote. Nothing else is written.
    pub fn freed(&mut self, _out: &mut Outbox)
        requires { may_free self.old.state ≡ true }
        ensures transaction { self.new.transaction ≡ self.old.transaction }
        ensures state { self.new.state ≡ follow self.old.state Freed }
        ensures out { _out.new ≡ _out.old }
    {
        self.stage = Stage::Over;
    }

    /// The log stopped: every connection is lost, and nobody waits any more.
    pub fn stopped(&mut self)
        requires { self.old.state.stopped ≡ false }
        ensures transaction { self.new.transaction ≡ self.old.transaction }
        ensures state { self.new.state ≡ follow self.old.state Stopped }
    {
        self.known.clear();
        self.waits.clear();
        self.stopped = true;
    }

    /// The log was opened again, with this record of the transaction or none. The enlistments of the record are those that said PREPARED, so of
    /// what was found only the identifier is asked.
    pub fn restarted(&mut self, found: Option<&LogRecord>)
        requires stopped { self.old.state.stopped ≡ true }
        requires own { ForSome found (λ r. r.now.id ≡ identifier_of (number_of self.old.transaction)) }
        ensures transaction { self.new.transaction ≡ self.old.transaction }
        ensures state { self.new.state ≡ follow self.old.state (Restarted (is_some found.entry)) }
    {
        let is_found = found.is_some();
        self.stage = restarted(is_found, self.stage);
        keep(&mut self.desks, is_found);
        self.stopped = false;
    }

    /// The recovery of a manager is over: each of its enlistments is finished.
    pub fn recovery_over(&mut self, r: RmNo)
        ensures transaction { self.new.transaction ≡ self.old.transaction }
        ensures state { self.new.state ≡ follow self.old.state (Recovered r) }
    {
        self.recovered |= 1 << r.get();
    }
}
