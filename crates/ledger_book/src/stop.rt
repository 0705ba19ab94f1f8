//! Where a run stops.
use std::cell::Cell;

/// Where a run stops: what its disks have in common. It counts their writes and syncs down, and tells whether one of them was stopped or failed.
///
/// No clause says what it counts: it is shared.
#[derive(Drop)]
pub struct Stop {
    /// How many writes and syncs are done before it; `None` where the run isn't stopped.
    left: Cell<Option<u64>>,
    has_stopped: Cell<bool>,
    has_failed: Cell<bool>,
}

impl Stop {
    /// No stop.
    pub fn never() -> Stop {
        Stop {
            left: Cell::new(None),
            has_stopped: Cell::new(false),
            has_failed: Cell::new(false),
        }
    }

    /// A stop before this write or sync, counted from 1 over all disks. Number 0 stands for 1.
    pub fn before(number: u64) -> Stop {
        Stop {
            left: Cell::new(Some(number.saturating_sub(1))),
            has_stopped: Cell::new(false),
            has_failed: Cell::new(false),
        }
    }

    /// Whether a call came that isn't to be done. From then on none is done.
    pub fn has_stopped(&self) -> bool {
        self.has_stopped.get()
    }

    /// Whether a call of a disk failed that wasn't stopped.
    pub fn has_failed(&self) -> bool {
        self.has_failed.get()
    }

    /// Counts a write or a sync that is about to be done; whether it is to be done.
    pub(crate) fn passes(&self) -> bool {
        if self.has_stopped.get() {
            return false;
        }
        match self.left.get() {
            None => true,
            Some(0) => {
                self.has_stopped.set(true);
                false
            }
            Some(left) => {
                self.left.set(Some(left - 1));
                true
            }
        }
    }

    /// A call of a disk failed.
    pub(crate) fn fail(&self) {
        self.has_failed.set(true);
    }
}
