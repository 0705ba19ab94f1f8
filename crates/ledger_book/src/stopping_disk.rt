//! A disk that stops with the others of its run.
ghost use Rattle.std.specs.Prelude.{◌≡◌, ◌≤◌, ◌+◌, length, OnOk, OnErr, IfErr, IsErr, IsOk};
ghost use Rattle.outside.specs.Faults.{one_more};

use crate::stop::Stop;
use outside::{Disk, Failed, Image};
use std::alloc::Global;
use std::rc::Rc;

/// A disk that stops with the others of its run: before the write or sync that the [`Stop`] of all of them names. From then on each call of each of them fails and is not done, as
/// if the process had ended there. Until then it is the disk that it is over.
///
/// It counts as faults the calls that failed and those that were not done.
#[derive(Drop)]
pub struct StoppingDisk<D: Disk> {
    /// The disk that it is over.
    pub disk: D,
    /// Where it stops.
    pub stop: Rc<Stop, Global>,
    /// How many calls failed.
    pub faults: u64,
}

impl<D: Disk> StoppingDisk<D> {
    /// The disk, which stops there.
    pub fn new(disk: D, stop: Rc<Stop, Global>) -> StoppingDisk<D>
        ensures disk { result.disk ≡ disk }
        ensures faults { result.faults ≡ 0 }
    {
        StoppingDisk {
            disk,
            stop,
            faults: 0,
        }
    }

    /// Hands the disk back.
    pub fn into_inner(self) -> D
        ensures { result ≡ self.disk }
    {
        let StoppingDisk {
            disk,
            stop: _,
            faults: _,
        } = self;
        disk
    }

    // Counts a call that isn't done.
    fn refuse(&mut self) -> Result<(), Failed>
        ensures failed { IsErr result }
        ensures disk { self.new.disk ≡ self.old.disk }
        ensures counted { self.new.faults ≡ one_more self.old.faults }
        ensures grows { self.old.faults ≤ self.new.faults }
    {
        self.faults = self.faults.saturating_add(1);
        Err(Failed)
    }

    // Counts a call that was done, where it failed.
    fn counted(&mut self, done: Result<(), Failed>) -> Result<(), Failed>
        ensures same { result ≡ done }
        ensures disk { self.new.disk ≡ self.old.disk }
        ensures smooth { OnOk done (self.new.faults ≡ self.old.faults) }
        ensures failed { OnErr done (self.new.faults ≡ one_more self.old.faults) }
        ensures grows { self.old.faults ≤ self.new.faults }
    {
        if done.is_err() {
            self.stop.fail();
            self.faults = self.faults.saturating_add(1);
        }
        done
    }
}

impl<D: Disk> Disk for StoppingDisk<D> {
    ghost honest = { D.honest };

    ghost size = { λ d. D.size d.disk };

    ghost seen = { λ d. D.seen d.disk };

    ghost image = { λ d. D.image d.disk };

    ghost leaves = { λ wish d. D.leaves wish d.disk };

    ghost obeys = { D.obeys };

    ghost images = { λ d. D.images d.disk };

    ghost faults = { λ d. d.faults };

    fn len(&self) -> u64 {
        self.disk.len()
    }

    fn read(&mut self, at: u64, into: &mut [u8]) -> Result<(), Failed> {
        if self.stop.has_stopped() {
            return self.refuse();
        }
        let done = self.disk.read(at, into);
        self.counted(done)
    }

    fn write_at(&mut self, at: u64, from: &[u8]) -> Result<(), Failed> {
        if !self.stop.passes() {
            return self.refuse();
        }
        let done = self.disk.write_at(at, from);
        self.counted(done)
    }

    fn sync(&mut self) -> Result<(), Failed> {
        if !self.stop.passes() {
            return self.refuse();
        }
        let done = self.disk.sync();
        self.counted(done)
    }

    fn crash(&mut self, wish: Image) {
        self.disk.crash(wish);
    }

    ghost sees = { λ d h. D.sees d.disk h };

    ghost among = { λ wish d c h left. D.among wish d.disk c h left };

    ghost long = { λ d c h one. D.long d.disk c h one };

    ghost tells = { λ o. D.tells o };

    ghost kept = { λ d o. D.kept d.disk o };
}
