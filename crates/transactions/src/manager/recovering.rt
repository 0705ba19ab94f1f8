//! The recovery of resource managers, which asks what came of the transactions of earlier processes.
ghost use Rattle.std.specs.Prelude.{◌≡◌, ◌≢◌, ◌⊎◌, ◌≤◌, ◌++◌, ◌∷◌, [], List, None, Err, IfErr, IfOk, IsFalse, IsSome, IsTrue, OnErr, OnOk, length, map, true, vec_capacity};
ghost use Rattle.outside.specs.Faults.{Rose};
ghost use Rattle.coordinator_log.specs.Crash.{AllHold};
ghost use Rattle.coordinator_log.specs.Slots.{open_records};
ghost use Rattle.log_epochs.specs.Beginning.{AllAre};
ghost use Rattle.recovery_laws.specs.Finding.{settled};
ghost use Rattle.resource_managers.specs.Holding.{Holding};
ghost use Rattle.transactions.specs.Recovering.{FreesLog, NoneIsFound, OnlyFrees, recovered_outcome, without_each};
ghost use Rattle.transactions.specs.Recovery.{IsFoundPartly, IsOneOf, IsPartly, finish_told, finishes, first_obstacle, is_early, is_finished, obstacle_in};

use super::{NODE, TransactionManager};
use crate::desk::RecoveryDesk;
use crate::error::TxError;
use crate::finishing::{finish_all, first_refusal};
use crate::recovered::{RecoverRefusal, Recovered};
use crate::recovering::{free_recovered, outcome_by, room};
use dtx_values::{EnlNo, Outcome, RmNo};
use outside::{Clock, Disk};
use resource_managers::Recoverable;

impl<D: Disk + Drop, C: Clock + Drop> TransactionManager<D, C> {
    /// What came of an enlistment, by the number for good of its transaction ([`CommittableTransaction::into_number`]) and its own: for a resource manager that prepared for a
    /// transaction of an earlier process, and didn't hear. It committed where the log's record of the transaction names it, and else it aborted, since no record means abort.
    ///
    /// Of a transaction that goes on here it says nothing: its record may be to come. [`ResourceManager::on`] tells that.
    ///
    /// [`CommittableTransaction::into_number`]: crate::CommittableTransaction::into_number
    /// [`ResourceManager::on`]: crate::ResourceManager::on
    pub fn recovered_outcome(&self, number: u64, e: EnlNo) -> Outcome
        ensures { result ≡ recovered_outcome number e.value (open_records self.now.log.slots) }
    {
        outcome_by(self.log.lookup(NODE + u128::from(number)), e)
    }

    /// A resource manager has recovered: it asked for the outcome of each enlistment that it had prepared, and asks for no more. It is put on the desk, and each record is freed
    /// all of whose managers are there by now; but no epoch's, and none of a transaction that has a place here, as each has that goes on. (`RecoveryComplete` of
    /// System.Transactions.)
    ///
    /// The log frees the record of the lowest slot with an identifier. Where that one may not be freed, one in a later slot is left.
    ///
    /// # Errors
    ///
    /// - [`TxError::Memory`] where memory ran out. Nothing is done.
    /// - [`TxError::LogStopped`] where the log is stopped, and finds a record that may be freed; or where its disk failed now. The manager counts as recovered, and each image
    ///   that a crash can leave has all records that may not be freed.
    pub fn recovery_complete(&mut self, desk: &mut RecoveryDesk, r: RmNo) -> Result<(), TxError>
        // The desk.
        ensures added { result ≢ Err TxError.Memory → desk.new ≡ desk.old ++ r ∷ [] }
        ensures memory { result ≡ Err TxError.Memory → (desk.new ≡ desk.old) × (self.new ≡ self.old) }

        // Only records go that may be freed, and after Ok none is found that may.
        ensures records { OnlyFrees desk.new self.old.lives (open_records self.old.log.slots) (open_records self.new.log.slots) }
        ensures freed { OnOk result (NoneIsFound desk.new self.old.lives (open_records self.new.log.slots)) }
        ensures nothing { NoneIsFound desk.new self.old.lives (open_records self.old.log.slots) → (result ≢ Err TxError.LogStopped) × (self.new ≡ self.old) }

        // What a crash leaves.
        ensures images { IsTrue D.honest → IsTrue self.old.log.is_up → AllAre (D.image self.new.log.disk) (OnlyFrees desk.new self.old.lives (open_records self.old.log.slots)) }
        ensures durable { IsTrue D.honest → IsTrue self.old.log.is_up → OnOk result (AllHold (D.image self.new.log.disk) (open_records self.new.log.slots)) }

        // The manager, and why it isn't done.
        ensures rest { self.new ≡ record self.old { log = self.new.log } }
        ensures down { IsFalse self.old.log.is_up → self.new ≡ self.old }
        ensures up { OnOk result (self.new.log.is_up ≡ self.old.log.is_up) }
        ensures smooth { OnOk result (D.faults self.new.log.disk ≡ D.faults self.old.log.disk) }
        ensures grows { D.faults self.old.log.disk ≤ D.faults self.new.log.disk }
        ensures cause { IfErr result (λ e. e ≢ TxError.Memory → (e ≡ TxError.LogStopped) × IsFalse self.new.log.is_up × (IsFalse self.old.log.is_up ⊎ Rose (D.faults self.old.log.disk) (D.faults self.new.log.disk))) }
    {
        // A proof sees here what the images have.
        let _ = self.log.is_up();
        let mut freed = match room(self.alloc, &self.log) {
            Ok(freed) => freed,
            Err(_) => return Err(TxError::Memory),
        };
        if let Err(e) = desk.add(r) {
            return Err(e);
        }
        self.free_covered(desk, &mut freed)
    }

    /// Frees the records that may be freed, and lists their identifiers.
    fn free_covered(&mut self, desk: &RecoveryDesk, freed: &mut Vec<u128>) -> Result<(), TxError>
        requires empty { freed.old.items ≡ [] }
        requires room { length (open_records self.old.log.slots) ≤ vec_capacity freed.old }
        ensures frees { FreesLog D.honest D.image D.faults desk.now self.old.lives self.old.log self.new.log result }
        ensures listed { OnOk result (open_records self.new.log.slots ≡ without_each freed.new.items (open_records self.old.log.slots)) }
        ensures rest { self.new ≡ record self.old { log = self.new.log } }
        ensures only { IfErr result (λ e. e ≡ TxError.LogStopped) }
        ensures faulty { OnErr result (IsFalse self.old.log.is_up ⊎ Rose (D.faults self.old.log.disk) (D.faults self.new.log.disk)) }
    {
        match free_recovered(&mut self.log, &self.lives, desk, freed) {
            Ok(()) => Ok(()),
            Err(_) => Err(TxError::LogStopped),
        }
    }

    /// Recovers a resource of manager `rm`: each enlistment that it holds in doubt is finished by the log. It is marked as committed where the record of its transaction names it,
    /// and is gone where the log has no record of that, since no record means abort. Then the manager counts as recovered, and records are freed as by
    /// [`TransactionManager::recovery_complete`].
    ///
    /// Resources are recovered one after the other: each transaction that was whole is then ended, at all of them alike ([`recovery_laws::recovery_one_by_one`]). What a process
    /// doesn't recover stays in doubt, and its record stays in the log.
    ///
    /// # Errors
    ///
    /// Before anything is done:
    ///
    /// - [`RecoverRefusal::Later`], [`RecoverRefusal::GoesOn`] and [`RecoverRefusal::NotNamed`] exactly where it holds what they say, by the first that keeps it from being
    ///   recovered.
    /// - [`RecoverRefusal::Memory`] where memory ran out.
    ///
    /// And then:
    ///
    /// - [`RecoverRefusal::Failed`] where the resource's disk failed. The manager doesn't count as recovered, and no record is freed; what was finished is finished.
    /// - [`RecoverRefusal::LogStopped`] as [`TxError::LogStopped`] of [`TransactionManager::recovery_complete`]. All is finished.
    pub fn recover<R: Recoverable>(
        &mut self,
        desk: &mut RecoveryDesk,
        rm: RmNo,
        r: &mut R,
    ) -> Result<Recovered, RecoverRefusal>
        // Each refusal, exactly where the resource holds what it says.
        ensures clear { OnOk result (first_obstacle (open_records self.old.log.slots) self.old.lives rm.value (R.holds r.old) ≡ None) }
        ensures obstacle { IfErr result (λ e. IsSome (obstacle_in e) → first_obstacle (open_records self.old.log.slots) self.old.lives rm.value (R.holds r.old) ≡ obstacle_in e) }
        ensures untouched { IfErr result (λ e. is_early e ≡ true → (self.new ≡ self.old) × (r.new ≡ r.old) × (desk.new ≡ desk.old)) }

        // The resource, and what a crash leaves of it.
        ensures settled { is_finished result ≡ true → R.holds r.new ≡ settled (open_records self.old.log.slots) rm.value (R.holds r.old) }
        ensures told { IfOk result (λ x. map finish_told x.finished.items ≡ finishes (open_records self.old.log.slots) rm.value (R.holds r.old)) }
        ensures partly { IsPartly (open_records self.old.log.slots) rm.value (R.holds r.old) (R.holds r.new) }
        ensures images { (hs : List Holding) → R.leaves r.new hs → R.leaves r.old hs ⊎ IsFoundPartly (open_records self.old.log.slots) rm.value (R.holds r.old) hs }
        ensures since { is_finished result ≡ true → (x : R) → R.fails r.new x → R.fails r.old x }
        ensures failed { result ≡ Err RecoverRefusal.Failed → R.fails r.old r.new × (self.new ≡ self.old) × (desk.new ≡ desk.old) }

        // The log, of which nothing goes before all is finished.
        ensures added { is_finished result ≡ true → desk.new ≡ desk.old ++ rm ∷ [] }
        ensures frees { is_finished result ≡ true → FreesLog D.honest D.image D.faults desk.new self.old.lives self.old.log self.new.log result }
        ensures listed { IfOk result (λ x. open_records self.new.log.slots ≡ without_each x.freed.items (open_records self.old.log.slots)) }
        ensures one_of { is_finished result ≡ true → IsOneOf desk.old rm (open_records self.old.log.slots) (open_records self.new.log.slots) }
        ensures rest { self.new ≡ record self.old { log = self.new.log } }
        ensures stopped { result ≡ Err RecoverRefusal.LogStopped → IsFalse self.old.log.is_up ⊎ Rose (D.faults self.old.log.disk) (D.faults self.new.log.disk) }
    {
        if let Some(refusal) = first_refusal(&self.log, &self.lives, rm, r) {
            return Err(refusal);
        }
        let mut finished = match Vec::with_capacity(self.alloc, r.count()) {
            Ok(finished) => finished,
            Err(_) => return Err(RecoverRefusal::Memory),
        };
        let mut freed = match room(self.alloc, &self.log) {
            Ok(freed) => freed,
            Err(_) => return Err(RecoverRefusal::Memory),
        };
        if desk.add(rm).is_err() {
            return Err(RecoverRefusal::Memory);
        }
        if finish_all(&self.log, rm, r, &mut finished).is_err() {
            desk.take_back();
            return Err(RecoverRefusal::Failed);
        }
        match self.free_covered(desk, &mut freed) {
            Ok(()) => Ok(Recovered { finished, freed }),
            Err(_) => Err(RecoverRefusal::LogStopped),
        }
    }
}
