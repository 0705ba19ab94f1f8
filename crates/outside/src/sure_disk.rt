// A disk in memory that never fails.
ghost use Rattle.std.specs.Prelude.{◌≡◌, ◌≤◌, ◌+◌, length, take, drop, replicate, refl, true, IfOk, IsOk};
ghost use Rattle.std.proofs.Common.{inl};
ghost use Rattle.outside.specs.Disk.{AreWithin, Follows, IsOnly, IsTorn};
ghost use Rattle.outside.specs.Images.{IsLeft, IsOneOf, after_crash, after_sync, after_write};

use crate::sheet::Sheet;
use crate::{Disk, Failed, Image};
use std::alloc::{AllocError, Global};
use std::marker::Model;

/// A disk in memory that never fails. It tells what it holds, and its count of faults is 0. A definition of
/// this project.
///
/// Its images are three. `Lose` undoes every write since the last sync, `Keep` keeps every write, and `Torn`
/// has the byte 0xA5 at each place that was written since the last sync. A crash makes what a read gives the
/// image that is wished, and makes nothing safe: what was synced, and what is torn, stay. So a `Lose` after a
/// `Keep` with no sync between undoes the writes before either. What a crash undid, no later `Keep` brings
/// back.
///
/// A clause sees it as `Images`: what a read gives, which is what `Keep` leaves, and what `Lose` and `Torn`
/// leave. No call but `new` takes memory.
#[derive(Drop)]
pub struct SureDisk {
    kept: Sheet,
    synced: Sheet,
    /// What is torn, but for the last range that was written since: that is spoilt before the next write or a crash. A sync, which mostly comes
    /// first, makes that needless.
    torn: Sheet,
    /// Where the last range begins, and how many bytes it has.
    last: usize,
    many: usize,
}

impl Model for SureDisk {
    ghost use Rattle.std.specs.Prelude.{◌≡◌, ◌≤◌, ◌+◌, length};
    ghost use Rattle.outside.specs.Disk.{overwritten};
    ghost use Rattle.outside.specs.Images.{Images, spoilt};

    ghost Value = { Images };

    ghost view = { λ d. record { kept = d.kept; synced = d.synced; torn = overwritten d.torn d.last (spoilt d.many) } };

    ghost invariant = { λ d. (length d.synced ≡ length d.kept) × (length d.torn ≡ length d.kept) × (d.last + d.many ≤ length d.kept) };
}

impl SureDisk {
    /// A disk of `size` bytes, all zero and synced.
    ///
    /// # Errors
    ///
    /// Where no memory was left.
    pub fn new(alloc: Global, size: u64) -> Result<SureDisk, AllocError>
        ensures size { IfOk result (λ d. length d.kept ≡ size) }
        ensures zeros { IfOk result (λ d. d.kept ≡ replicate (length d.kept) 0) }
        ensures synced { IfOk result (λ d. d.synced ≡ d.kept) }
        ensures torn { IfOk result (λ d. d.torn ≡ d.kept) }
    {
        let size = size as usize;
        Ok(SureDisk {
            kept: Sheet::new(alloc, size)?,
            synced: Sheet::new(alloc, size)?,
            torn: Sheet::new(alloc, size)?,
            last: 0,
            many: 0,
        })
    }
}

impl Disk for SureDisk {
    ghost honest = { true };

    ghost size = { λ d. length d.kept };

    ghost seen = { λ d. d.kept };

    ghost image = { IsOneOf };

    ghost leaves = { IsLeft };

    ghost obeys = { true };

    ghost images = { λ d. d };

    ghost faults = { λ _. 0 };

    fn len(&self) -> u64
        ensures { result ≡ length self.now.kept }
    {
        self.kept.len() as u64
    }

    fn read(&mut self, at: u64, into: &mut [u8]) -> Result<(), Failed>
        requires { at + length into.old ≤ length self.old.kept }
        ensures sure { IsOk result }
        ensures bytes { into.new ≡ take (length into.old) (drop at self.old.kept) }
        ensures same { self.new ≡ self.old }
    {
        self.kept.read(at as usize, into);
        Ok(())
    }

    fn write_at(&mut self, at: u64, from: &[u8]) -> Result<(), Failed>
        requires { at + length from.now ≤ length self.old.kept }
        ensures sure { IsOk result }
        ensures put { self.new ≡ after_write at from.now self.old }
        ensures images { Follows (IsTorn at (length from.now)) (IsOneOf self.old) (IsOneOf self.new) }
        ensures size { length self.new.kept ≡ length self.old.kept }
    {
        self.kept.put(at as usize, from);
        self.torn.spoil(self.last, self.many);
        self.last = at as usize;
        self.many = from.len();
        Ok(())
    }

    fn sync(&mut self) -> Result<(), Failed>
        ensures sure { IsOk result }
        ensures synced { self.new ≡ after_sync self.old }
        ensures durable { IsOnly self.old.kept (IsOneOf self.new) }
        ensures images { AreWithin (IsOneOf self.old) (IsOneOf self.new) }
    {
        self.synced.copy(&self.kept);
        self.torn.copy(&self.kept);
        self.last = 0;
        self.many = 0;
        Ok(())
    }

    fn crash(&mut self, wish: Image)
        ensures wished { self.new ≡ after_crash wish self.old }
        ensures seen { IsOneOf self.old self.new.kept }
        ensures images { AreWithin (IsOneOf self.old) (IsOneOf self.new) }
        ensures size { length self.new.kept ≡ length self.old.kept }
    {
        match wish {
            Image::Lose => self.kept.copy(&self.synced),
            Image::Keep => (),
            Image::Torn => {
                self.torn.spoil(self.last, self.many);
                self.last = 0;
                self.many = 0;
                self.kept.copy(&self.torn);
            }
        }
    }

    ghost sees = { λ d h. record { one = inl refl; long = refl } };

    ghost among = { λ wish d c h left. left.1 };

    ghost long = { λ d c h one. one.long };

    ghost tells = { λ o. o };

    ghost kept = { λ d o. refl };
}
