//! Objects that count what they heard, and managers over a disk in memory.
use coordinator_log::LOG_BYTES;
use dtx_values::{Note, Reply, Vote};
use outside::{Disk, MemClock, SureDisk};
use std::alloc::Global;
use transactions::{Enlistment, OpenError, ResourceManager, TransactionManager};

/// Objects that vote yes and acknowledge, but put off one note.
#[derive(Drop)]
pub struct Objects {
    /// How often they were asked to prepare, and heard a commit, a rollback, and anything else.
    pub heard: [u32; 4],
    /// The note that is put off.
    pub put_off: Option<Note>,
}

impl ResourceManager for Objects {
    ghost gives = { λ old e n r new. Unit {0} };

    fn on(&mut self, _: Enlistment, n: Note) -> Option<Reply> {
        let (i, reply) = match n {
            Note::Prepare => (0, Some(Reply::Vote(Vote::Yes))),
            Note::Commit => (1, Some(Reply::Ack)),
            Note::Rollback => (2, None),
            _ => (3, None),
        };
        self.heard[i] = self.heard[i].saturating_add(1);
        if self.put_off == Some(n) { None } else { reply }
    }
}

/// A manager over a disk in memory that never fails.
pub type Manager = TransactionManager<SureDisk, MemClock>;

/// A manager over a disk: over an empty log, which it makes, or over the log that is there. Its clock has these readings, the first of them when it is made.
pub fn manager(
    alloc: Global,
    is_new: bool,
    disk: SureDisk,
    readings: Vec<u64>,
) -> Result<Manager, OpenError> {
    if disk.len() < LOG_BYTES {
        return Err(OpenError::Memory);
    }
    let clock = MemClock::new(readings);
    let made = if is_new {
        TransactionManager::create(alloc, disk, clock)
    } else {
        TransactionManager::open(alloc, disk, clock)
    };
    match made {
        Ok(manager) => Ok(manager),
        Err((e, _, _)) => Err(e),
    }
}
