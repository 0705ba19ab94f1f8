// A disk in memory, with calls that fail where one says so.
ghost use Rattle.std.specs.Prelude.{◌≡◌, ◌≤◌, ◌+◌, ◌↔◌, length, take, drop, replicate, refl, true, false, IfOk, OnOk, OnErr, IsErr};
ghost use Rattle.std.proofs.Common.{inl};
ghost use Rattle.outside.specs.Disk.{AreWithin, Follows, IsOnly, IsTorn};
ghost use Rattle.outside.specs.Images.{IsLeft, IsOneOf, after_crash, after_sync, after_write};
ghost use Rattle.outside.specs.Memory.{FailsNext, counted};

use crate::plan::Plan;
use crate::{Disk, Failed, Image, SureDisk};
use std::alloc::{AllocError, Global};
use std::marker::Model;

/// A disk in memory, whose calls fail where one says so. It tells what it holds. A definition of this
/// project.
///
/// Its images, and what a crash does, are those of a [`SureDisk`]. A sync that failed leaves what was safe.
///
/// A clause sees it as a `Device`: its images, and its calls. No call but `new` takes memory.
#[derive(Drop)]
pub struct MemDisk {
    disk: SureDisk,
    plan: Plan,
}

impl Model for MemDisk {
    ghost use Rattle.outside.specs.Memory.{Device};

    ghost Value = { Device };

    ghost view = { λ d. record { images = d.disk; calls = d.plan } };
}

impl MemDisk {
    /// A disk of `size` bytes, all zero and synced.
    ///
    /// Its calls `read`, `write_at` and `sync` are numbered from 1, in order of calling. A call whose number
    /// is in `fail` answers [`Failed`] and does nothing but count.
    ///
    /// # Errors
    ///
    /// Where no memory was left.
    pub fn new(alloc: Global, size: u64, fail: Vec<u64>) -> Result<MemDisk, AllocError>
        ensures size { IfOk result (λ d. length d.images.kept ≡ size) }
        ensures zeros { IfOk result (λ d. d.images.kept ≡ replicate (length d.images.kept) 0) }
        ensures synced { IfOk result (λ d. d.images.synced ≡ d.images.kept) }
        ensures torn { IfOk result (λ d. d.images.torn ≡ d.images.kept) }
        ensures calls { IfOk result
            (λ d. d.calls ≡ record { fail = fail.items; came = 0; failed = 0 }) }
    {
        Ok(MemDisk {
            disk: SureDisk::new(alloc, size)?,
            plan: Plan::new(fail),
        })
    }
}

impl Disk for MemDisk {
    ghost honest = { true };

    ghost size = { λ d. length d.images.kept };

    ghost seen = { λ d. d.images.kept };

    ghost image = { λ d. IsOneOf d.images };

    ghost leaves = { λ wish d. IsLeft wish d.images };

    ghost obeys = { true };

    ghost images = { λ d. d.images };

    ghost faults = { λ d. d.calls.failed };

    fn len(&self) -> u64
        ensures { result ≡ length self.now.images.kept }
    {
        self.disk.len()
    }

    fn read(&mut self, at: u64, into: &mut [u8]) -> Result<(), Failed>
        requires { at + length into.old ≤ length self.old.images.kept }
        ensures planned { IsErr result ↔ FailsNext self.old.calls }
        ensures bytes { OnOk result (into.new ≡ take (length into.old) (drop at self.old.images.kept)) }
        ensures counts { OnOk result (self.new ≡ record self.old { calls = counted false self.old.calls }) }
        ensures failed { OnErr result (self.new ≡ record self.old { calls = counted true self.old.calls }) }
        ensures untouched { OnErr result (into.new ≡ into.old) }
        ensures grows { self.old.calls.failed ≤ self.new.calls.failed }
    {
        self.plan.call()?;
        self.disk.read(at, into)
    }

    fn write_at(&mut self, at: u64, from: &[u8]) -> Result<(), Failed>
        requires { at + length from.now ≤ length self.old.images.kept }
        ensures planned { IsErr result ↔ FailsNext self.old.calls }
        ensures put { OnOk result (self.new ≡ record {
          images = after_write at from.now self.old.images;
          calls = counted false self.old.calls;
        }) }
        ensures failed { OnErr result (self.new ≡ record self.old { calls = counted true self.old.calls }) }
        ensures images { Follows (IsTorn at (length from.now)) (IsOneOf self.old.images) (IsOneOf self.new.images) }
        ensures size { length self.new.images.kept ≡ length self.old.images.kept }
        ensures grows { self.old.calls.failed ≤ self.new.calls.failed }
    {
        self.plan.call()?;
        self.disk.write_at(at, from)
    }

    fn sync(&mut self) -> Result<(), Failed>
        ensures planned { IsErr result ↔ FailsNext self.old.calls }
        ensures synced { OnOk result (self.new ≡ record {
          images = after_sync self.old.images;
          calls = counted false self.old.calls;
        }) }
        ensures failed { OnErr result (self.new ≡ record self.old { calls = counted true self.old.calls }) }
        ensures durable { OnOk result (IsOnly self.old.images.kept (IsOneOf self.new.images)) }
        ensures images { AreWithin (IsOneOf self.old.images) (IsOneOf self.new.images) }
        ensures grows { self.old.calls.failed ≤ self.new.calls.failed }
    {
        self.plan.call()?;
        self.disk.sync()
    }

    fn crash(&mut self, wish: Image)
        ensures wished { self.new ≡ record self.old { images = after_crash wish self.old.images } }
        ensures seen { IsOneOf self.old.images self.new.images.kept }
        ensures images { AreWithin (IsOneOf self.old.images) (IsOneOf self.new.images) }
        ensures size { length self.new.images.kept ≡ length self.old.images.kept }
    {
        self.disk.crash(wish);
    }

    ghost sees = { λ d h. record { one = inl refl; long = refl } };

    ghost among = { λ wish d c h left. left.1 };

    ghost long = { λ d c h one. one.long };

    ghost tells = { λ o. o };

    ghost kept = { λ d o. refl };
}
