//! The manager that a host polls: its life, and the work of its disk.
ghost use Rattle.std.specs.Prelude.{◌≡◌, ◌⊎◌, [], IfErr, IfOk, Ok};
ghost use Rattle.std.specs.Option.{option_map};
ghost use Rattle.host_manager.specs.Host.{is_quiet, records};
ghost use Rattle.dtx_model.specs.Log.{log_has};
ghost use Rattle.host_manager.specs.Lives.{Begins, HoldsLog, IsNew, IsNoLog, MayNotOpen, Recovers, SaysOutcome, Starts};
ghost use Rattle.host_manager.specs.Requests.{Asks, IsGiven};

use crate::clock::HostClock;
use crate::error::HostError;
use crate::results::begun_in;
use coordinator_log::LOG_BYTES;
use dtx_values::{EnlNo, Outcome, RmNo, Timeout};
use host_disk::{HostDisk, Request};
use outside::Relay;
use std::alloc::Global;
use std::marker::Model;
use transactions::{OpenError, RecoveryDesk, TransactionManager, TxError};

mod calls;
mod polls;

/// A transaction manager that a host polls, over a log whose disk is in memory.
///
/// A clause sees it as a `HostView`.
#[derive(Drop)]
pub struct HostManager {
    manager: TransactionManager<HostDisk, HostClock>,
    /// The resource managers that have recovered.
    desk: RecoveryDesk,
    /// How many of the disk's requests were given to the host.
    given: usize,
}

impl Model for HostManager {
    ghost use Rattle.std.specs.Prelude.{◌≤◌, length};
    ghost use Rattle.host_manager.specs.Host.{HostView};

    ghost Value = { HostView };

    ghost view = { λ m. record { manager = m.manager; recovered = m.desk; given = m.given } };

    ghost invariant = { λ m. m.given ≤ length m.manager.log.disk.asked };
}

impl HostManager {
    /// A manager over a log with these bytes; over an empty one, which it makes, where there are none. None of the log's transactions goes on in it. The disk has work to do then.
    ///
    /// # Errors
    ///
    /// - [`HostError::NotALog`] where these bytes are no log: so also where a crash came while it was made.
    /// - [`HostError::Call`] with [`TxError::Memory`] where memory ran out.
    pub fn open(alloc: Global, log: Vec<u8>) -> Result<HostManager, HostError>
        ensures new { IfOk result IsNew }
        ensures opened { IfOk result (HoldsLog log.items) }
        ensures cause { IfErr result (MayNotOpen log.items) }
    {
        if log.is_empty() {
            HostManager::create(alloc)
        } else {
            HostManager::take_up(alloc, log)
        }
    }

    // A manager over an empty log.
    fn create(alloc: Global) -> Result<HostManager, HostError>
        ensures new { IfOk result IsNew }
        ensures opened { IfOk result (HoldsLog []) }
        ensures cause { IfErr result (λ e. e ≡ HostError.Call TxError.Memory) }
    {
        let Ok(bytes) = Vec::from_elem(alloc, 0u8, LOG_BYTES as usize) else {
            return Err(HostError::Call(TxError::Memory));
        };
        let Ok(disk) = HostDisk::new(alloc, bytes) else {
            return Err(HostError::Call(TxError::Memory));
        };
        match TransactionManager::create(alloc, disk, HostClock) {
            Ok(manager) => Ok(HostManager {
                manager,
                desk: RecoveryDesk::new(alloc),
                given: 0,
            }),
            Err(_) => Err(HostError::Call(TxError::Memory)),
        }
    }

    // A manager over the log with these bytes.
    fn take_up(alloc: Global, log: Vec<u8>) -> Result<HostManager, HostError>
        ensures new { IfOk result IsNew }
        ensures opened { IfOk result (λ m. log_has log.items ≡ Ok (records m)) }
        ensures cause { IfErr result (λ e. ((e ≡ HostError.NotALog) × IsNoLog log.items) ⊎ (e ≡ HostError.Call TxError.Memory)) }
    {
        if log.len() as u64 != LOG_BYTES {
            return Err(HostError::NotALog);
        }
        let Ok(disk) = HostDisk::new(alloc, log) else {
            return Err(HostError::Call(TxError::Memory));
        };
        match TransactionManager::open(alloc, disk, HostClock) {
            Ok(manager) => Ok(HostManager {
                manager,
                desk: RecoveryDesk::new(alloc),
                given: 0,
            }),
            Err((OpenError::NotALog(_), _, _)) => Err(HostError::NotALog),
            Err(_) => Err(HostError::Call(TxError::Memory)),
        }
    }

    /// Whether nothing is asked of the disk.
    fn is_quiet(&self) -> bool
        ensures { result ≡ is_quiet self.now }
    {
        self.manager.disk().is_settled()
    }

    /// What came of an enlistment of a transaction of an earlier life, by its number for good and its own ([`TransactionManager::recovered_outcome`]).
    ///
    /// # Errors
    ///
    /// [`HostError::Disk`] where something is asked of the disk.
    pub fn outcome(&self, number: u64, e: EnlNo) -> Result<Outcome, HostError>
        ensures { SaysOutcome number e self.now result }
    {
        if !self.is_quiet() {
            return Err(HostError::Disk);
        }
        Ok(self.manager.recovered_outcome(number, e))
    }

    /// A resource manager has recovered ([`TransactionManager::recovery_complete`]). The disk may have work to do then.
    ///
    /// # Errors
    ///
    /// - [`HostError::Disk`] where something is asked of the disk.
    /// - [`HostError::Call`] with the manager's error.
    pub fn recovered(&mut self, r: RmNo) -> Result<(), HostError>
        ensures { Recovers r self.old self.new result }
    {
        if !self.is_quiet() {
            return Err(HostError::Disk);
        }
        match self.manager.recovery_complete(&mut self.desk, r) {
            Ok(()) => Ok(()),
            Err(e) => Err(HostError::Call(e)),
        }
    }

    /// Begins an epoch at the log ([`TransactionManager::start`]). The disk has work to do then.
    ///
    /// # Errors
    ///
    /// As of [`HostManager::recovered`].
    pub fn start(&mut self) -> Result<(), HostError>
        ensures { Starts self.old self.new result }
    {
        if !self.is_quiet() {
            return Err(HostError::Disk);
        }
        match self.manager.start() {
            Ok(()) => Ok(()),
            Err(e) => Err(HostError::Call(e)),
        }
    }

    /// Begins a transaction; its number for good ([`TransactionManager::poll_begin`]).
    ///
    /// # Errors
    ///
    /// - [`HostError::Disk`] where something is asked of the disk, or where an epoch began first: then the disk has work to do now.
    /// - [`HostError::Call`] with the manager's error.
    pub fn begin(&mut self, timeout: Timeout) -> Result<u64, HostError>
        ensures { Begins timeout self.old self.new result }
    {
        begun_in(self.manager.poll_begin(timeout))
    }

    /// Whether there is something more for the host to do in its file, which [`HostManager::request`] then gives; with this call it says that it did the one before. Once it did all,
    /// the disk is settled.
    pub fn next_request(&mut self) -> bool
        ensures { Asks self.old self.new result }
    {
        if self.given == self.manager.disk().asked().len() {
            self.manager.disk_done();
            self.given = 0;
            return false;
        }
        self.given += 1;
        true
    }

    /// What the host is to do in its file: the request that it was given last, where it isn't done.
    pub fn request(&self) -> Option<&Request>
        ensures { IsGiven self.now (option_map (λ r. r.now) result) }
    {
        let last = self.given.checked_sub(1)?;
        self.manager.disk().asked().get(last)
    }
}
