//! The disks of a book.
ghost use Rattle.std.specs.Prelude.{◌≡◌, IfOk};

use crate::stop::Stop;
use crate::stopping_disk::StoppingDisk;
use outside::Disk;
use std::alloc::{AllocError, Global};
use std::rc::Rc;

/// The three disks of a book.
#[derive(Drop)]
pub struct Disks<D> {
    /// The coordinator's log.
    pub log: D,
    /// The store of resource manager 1.
    pub left: D,
    /// The store of resource manager 2.
    pub right: D,
}

impl<D: Disk + Drop> Disks<D> {
    /// The disks, which stop there together.
    ///
    /// # Errors
    ///
    /// Where no memory was left.
    pub fn stopping(self, stop: &Rc<Stop, Global>) -> Result<Disks<StoppingDisk<D>>, AllocError>
        ensures log { IfOk result (λ d. d.log.disk ≡ self.log) }
        ensures left { IfOk result (λ d. d.left.disk ≡ self.left) }
        ensures right { IfOk result (λ d. d.right.disk ≡ self.right) }
    {
        let Disks { log, left, right } = self;
        Ok(Disks {
            log: StoppingDisk::new(log, stop.clone()?),
            left: StoppingDisk::new(left, stop.clone()?),
            right: StoppingDisk::new(right, stop.clone()?),
        })
    }
}

impl<D: Disk + Drop> Disks<StoppingDisk<D>> {
    /// Hands back the disks that these are over.
    pub fn into_inner(self) -> Disks<D>
        ensures log { result.log ≡ self.log.disk }
        ensures left { result.left ≡ self.left.disk }
        ensures right { result.right ≡ self.right.disk }
    {
        let Disks { log, left, right } = self;
        Disks {
            log: log.into_inner(),
            left: left.into_inner(),
            right: right.into_inner(),
        }
    }
}
