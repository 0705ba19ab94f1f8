//! The beginning and the end of a manager: over an empty log, and over the log of a disk.
ghost use Rattle.std.specs.Prelude.{ℕ, ◌≡◌, ◌≤◌, ◌+◌, ◌*◌, [], None, IfOk, IfErr, IsTrue, Err};
ghost use Rattle.dtx_model.specs.Log.{log_has};
ghost use Rattle.coordinator_log.specs.Crash.{AllHold, IsOpened};
ghost use Rattle.coordinator_log.specs.Slots.{open_records};
ghost use Rattle.coordinator_log.specs.declared.layout.TheConstants.{LOG_BYTES};
ghost use Rattle.log_epochs.specs.Epochs.{epoch_of};
ghost use Rattle.outside.specs.Faults.{Rose};
ghost use Rattle.transactions.specs.Numbering.{AreFrom};

use super::TransactionManager;
use crate::error::{OpenError, open_error};
use coordinator_log::{LOG_BYTES, Log};
use dtx_values::{ActorNo, Outbox, TxNo};
use log_epochs::epoch;
use outside::{Clock, Disk};
use std::alloc::Global;

impl<D: Disk + Drop, C: Clock + Drop> TransactionManager<D, C> {
    /// A manager over a log, in which all numbers of the log's epoch count as given.
    fn over(alloc: Global, log: Log<D>, clock: C, out: Outbox, actor: ActorNo) -> Self
        requires unarmed { log.armed ≡ None }
        requires images { IsTrue D.honest → AllHold (D.image log.disk) (open_records log.slots) }
        ensures log { result.log ≡ log }
        ensures lives { result.lives ≡ [] }
        ensures last { result.last ≡ 65536 * epoch_of (open_records log.slots) + 256 }
    {
        let epoch = epoch(&log);
        let mut clock = clock;
        let reading = clock.now();
        TransactionManager {
            alloc,
            log,
            clock,
            out,
            actor,
            reading,
            lives: Vec::new(alloc),
            epoch,
            given: TxNo::MAX,
        }
    }

    /// A manager over an empty log, which it writes to the disk: what was there is lost. Its first transaction is number 1 of epoch 1.
    ///
    /// # Errors
    ///
    /// The disk and the clock are handed back.
    ///
    /// - [`OpenError::Fault`] where the disk failed.
    /// - [`OpenError::Memory`] where memory ran out.
    pub fn create(alloc: Global, disk: D, clock: C) -> Result<Self, (OpenError, D, C)>
        requires { LOG_BYTES ≤ D.size disk }
        ensures made { IfOk result (λ m. (m.lives ≡ []) × IsTrue m.log.is_up) }
        ensures last { IfOk result (λ m. (m.last ≡ 256) × (open_records m.log.slots ≡ [])) }
        ensures images { IsTrue D.honest → IfOk result (λ m. AllHold (D.image m.log.disk) (open_records m.log.slots)) }
        ensures fault { IfErr result (λ e. e.0 ≡ OpenError.Fault → Rose (D.faults disk) (D.faults e.1)) }
        ensures size { IfErr result (λ e. D.size e.1 ≡ D.size disk) }
    {
        let Some(actor) = ActorNo::new(1) else {
            return Err((OpenError::Memory, disk, clock));
        };
        let Ok(out) = Outbox::with_room(alloc) else {
            return Err((OpenError::Memory, disk, clock));
        };
        let log = match Log::format(alloc, disk) {
            Ok(log) => log,
            Err((e, disk)) => return Err((open_error(e), disk, clock)),
        };
        Ok(TransactionManager::over(alloc, log, clock, out, actor))
    }

    /// A manager over the log that is on the disk, which it only syncs and reads. None of the log's transactions goes on in it: their recovery is the resource managers'. Its
    /// first transaction begins the log's next epoch, so that its numbers are above all that were given before.
    ///
    /// # Errors
    ///
    /// The disk and the clock are handed back, and what is read of the disk is as before.
    ///
    /// - [`OpenError::NotALog`] where the disk has no log: the first place of another form.
    /// - [`OpenError::Fault`] where the disk failed.
    /// - [`OpenError::Memory`] where memory ran out.
    pub fn open(alloc: Global, disk: D, clock: C) -> Result<Self, (OpenError, D, C)>
        requires { LOG_BYTES ≤ D.size disk }
        ensures opened { IfOk result (λ m. (m.lives ≡ []) × IsTrue m.log.is_up) }
        ensures last { IfOk result (λ m. m.last ≡ 65536 * epoch_of (open_records m.log.slots) + 256) }
        ensures records { IsTrue D.honest → IfOk result (λ m. IsOpened D.seen disk m.log) }
        ensures images { IsTrue D.honest → IfOk result (λ m. AllHold (D.image m.log.disk) (open_records m.log.slots)) }
        ensures seen { IsTrue D.honest → IfOk result (λ m. D.seen m.log.disk ≡ D.seen disk) }
        ensures not_a_log { IsTrue D.honest → IfErr result (λ e. (p : ℕ) → e.0 ≡ OpenError.NotALog p → log_has (D.seen disk) ≡ Err p) }
        ensures fault { IfErr result (λ e. e.0 ≡ OpenError.Fault → Rose (D.faults disk) (D.faults e.1)) }
        ensures handed_back { IsTrue D.honest → IfErr result (λ e. D.seen e.1 ≡ D.seen disk) }
        ensures size { IfErr result (λ e. D.size e.1 ≡ D.size disk) }
    {
        let Some(actor) = ActorNo::new(1) else {
            return Err((OpenError::Memory, disk, clock));
        };
        let Ok(out) = Outbox::with_room(alloc) else {
            return Err((OpenError::Memory, disk, clock));
        };
        let log = match Log::from_disk(alloc, disk) {
            Ok(log) => log,
            Err((e, disk)) => return Err((open_error(e), disk, clock)),
        };
        Ok(TransactionManager::over(alloc, log, clock, out, actor))
    }

    /// Gives up the manager, with all transactions that go on, and hands the disk back. Another manager over it begins above all numbers that this one gave.
    pub fn into_disk(self) -> D
        ensures disk { result ≡ self.log.disk }
        ensures room { LOG_BYTES ≤ D.size result }
        ensures numbers { IsTrue D.honest → AreFrom self.last (D.image result) }
    {
        self.numbers_last();
        let TransactionManager { log, .. } = self;
        log.into_disk()
    }
}
