//! A disk whose write can be held.
use crate::flags::looked;
use outside::{Disk, Failed, Image, MemDisk};
use std::sync::atomic::{AtomicBool, Ordering};

/// What the threads of a test tell each other of a write.
#[derive(Drop)]
pub struct WriteFlags {
    /// From now on a write tells that it began, and waits.
    pub armed: AtomicBool,
    /// A write began.
    pub writing: AtomicBool,
    /// The write may go on.
    pub go_on: AtomicBool,
    /// The write was told so.
    pub seen: AtomicBool,
}

impl WriteFlags {
    /// None is set.
    pub fn new() -> WriteFlags {
        WriteFlags {
            armed: AtomicBool::new(false),
            writing: AtomicBool::new(false),
            go_on: AtomicBool::new(false),
            seen: AtomicBool::new(false),
        }
    }
}

/// A disk in memory that tells nothing of what it holds. Once it is armed, its first write sets a flag, and looks for the one by which it may go on.
pub struct Slow<'a> {
    pub disk: MemDisk,
    pub flags: &'a WriteFlags,
}

impl Drop for Slow<'_> {
    fn drop(self) {
        let Slow { disk: _, flags: _ } = self;
    }
}

impl Slow<'_> {
    /// Waits in the first write since it was armed.
    fn hold(&self) {
        let is_first = !self.flags.writing.load(Ordering::SeqCst);
        if is_first && self.flags.armed.load(Ordering::SeqCst) {
            self.flags.writing.store(true, Ordering::SeqCst);
            let is_seen = looked(&self.flags.go_on);
            self.flags.seen.store(is_seen, Ordering::SeqCst);
        }
    }
}

impl Disk for Slow<'_> {
    ghost use Rattle.std.specs.Prelude.{false, length, [], refl};

    ghost honest = { false };

    ghost size = { λ d. length d.disk.images.kept };

    ghost seen = { λ _. [] };

    ghost image = { λ _ _. ⊥ };

    ghost leaves = { λ _ _ _. ⊥ };

    ghost obeys = { false };

    ghost images = { λ _. record { kept = []; synced = []; torn = [] } };

    ghost faults = { λ d. d.disk.calls.failed };

    fn len(&self) -> u64 {
        self.disk.len()
    }

    fn read(&mut self, at: u64, into: &mut [u8]) -> Result<(), Failed> {
        self.disk.read(at, into)
    }

    fn write_at(&mut self, at: u64, from: &[u8]) -> Result<(), Failed> {
        self.hold();
        self.disk.write_at(at, from)
    }

    fn sync(&mut self) -> Result<(), Failed> {
        self.disk.sync()
    }

    fn crash(&mut self, wish: Image) {
        self.disk.crash(wish);
    }

    ghost sees = { λ d h. absurd (Prim.cc) };

    ghost among = { λ wish d c h left. absurd left };

    ghost long = { λ d c h one. absurd one };

    ghost tells = { λ o. o };

    ghost kept = { λ d o. refl };
}
