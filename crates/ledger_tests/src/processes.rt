//! Processes that work on a book, one after the other.
ghost use Rattle.std.specs.Prelude.{◌≤◌, length, IsTrue};
ghost use Rattle.coordinator_log.specs.declared.layout.TheConstants.{LOG_BYTES};
ghost use Rattle.kv_resource.specs.declared.layout.TheConstants.{KV_BYTES};

use coordinator_log::LOG_BYTES;
use kv_resource::KV_BYTES;
use ledger_book::{Account, Book, Disks, Side, Stop, StoppingDisk, Trouble};
use outside::{Disk, Image, MemClock, MemDisk};
use std::alloc::Global;
use std::rc::Rc;

/// The three disks, in memory.
pub type Memory = Disks<MemDisk>;

type OpenBook = Book<StoppingDisk<MemDisk>, MemClock>;

/// The images that a crash may leave of each disk.
pub const IMAGES: [Image; 3] = [Image::Lose, Image::Keep, Image::Torn];

/// What a process does with the book.
#[derive(Clone, Copy, PartialEq, Eq, Debug)]
pub enum Work {
    /// Makes it, with two accounts of 1,000 in each store.
    Make,
    /// Recovers it, and moves 50 from l1 to r2.
    Move,
    /// Recovers it.
    Show,
}

/// What a process came to.
#[derive(Clone, Copy, PartialEq, Eq, Debug)]
pub struct Came {
    /// Whether it was stopped.
    pub stopped: bool,
    /// Why its work wasn't done.
    pub trouble: Option<Trouble>,
    /// How many enlistments and records its recovery finished and freed.
    pub recovered: usize,
    /// What l1, l2, r1 and r2 have.
    pub amounts: [Option<u64>; 4],
}

/// What each account has after the book was made.
pub const MADE: [Option<u64>; 4] = [Some(1000), Some(1000), Some(1000), Some(1000)];

/// What each account has after the move.
pub const MOVED: [Option<u64>; 4] = [Some(950), Some(1000), Some(1000), Some(1050)];

/// The three disks, all zero.
pub fn blank(alloc: Global) -> Option<Memory> {
    Some(Disks {
        log: MemDisk::new(alloc, LOG_BYTES, Vec::new(alloc)).ok()?,
        left: MemDisk::new(alloc, KV_BYTES, Vec::new(alloc)).ok()?,
        right: MemDisk::new(alloc, KV_BYTES, Vec::new(alloc)).ok()?,
    })
}

/// Whether they are long enough for a book.
fn fit(disks: &Memory) -> bool
    ensures log { IsTrue result → LOG_BYTES ≤ length disks.now.log.images.kept }
    ensures left { IsTrue result → KV_BYTES ≤ length disks.now.left.images.kept }
    ensures right { IsTrue result → KV_BYTES ≤ length disks.now.right.images.kept }
{
    disks.log.len() >= LOG_BYTES && disks.left.len() >= KV_BYTES && disks.right.len() >= KV_BYTES
}

/// How many bytes of a disk that only a book of these tests was on aren't zero at most: its head and its first slots.
const USED: usize = 8192;

/// A copy of a disk, all of it synced.
fn copy_of(alloc: Global, disk: &mut MemDisk) -> Option<MemDisk> {
    let len = disk.len();
    if len < USED as u64 {
        return None;
    }
    let mut bytes = [0; USED];
    disk.read(0, &mut bytes).ok()?;
    let mut copy = MemDisk::new(alloc, len, Vec::new(alloc)).ok()?;
    if copy.len() < USED as u64 {
        return None;
    }
    copy.write_at(0, &bytes).ok()?;
    copy.sync().ok()?;
    Some(copy)
}

/// Copies of the disks, all of them synced.
pub fn copies_of(alloc: Global, disks: &mut Memory) -> Option<Memory> {
    Some(Disks {
        log: copy_of(alloc, &mut disks.log)?,
        left: copy_of(alloc, &mut disks.left)?,
        right: copy_of(alloc, &mut disks.right)?,
    })
}

/// What an account has.
fn amount(book: &OpenBook, side: Side, number: u32) -> Option<u64> {
    book.amount(Account { side, number })
}

/// Does the work in a book that is open; how many enlistments and records its recovery finished and freed.
fn works(alloc: Global, book: &mut OpenBook, work: Work) -> Result<usize, Trouble> {
    if work == Work::Make {
        let _ = book.fill(alloc, 2, 1000)?;
        return Ok(0);
    }
    let recovery = book.recover(alloc)?;
    if work == Work::Move {
        let (from, to) = (Side::Left, Side::Right);
        let from = Account {
            side: from,
            number: 1,
        };
        let to = Account {
            side: to,
            number: 2,
        };
        let _ = book.transfer(from, to, 50)?;
    }
    Ok(recovery.ended.len().saturating_add(recovery.freed.len()))
}

/// A process that does this work, and that ends before the write or sync of this number; what it came to, and the disks.
pub fn process(
    alloc: Global,
    disks: Memory,
    work: Work,
    stop: Option<u64>,
) -> Option<(Came, Memory)> {
    if !fit(&disks) {
        return None;
    }
    let place = match stop {
        Some(number) => Stop::before(number),
        None => Stop::never(),
    };
    let stop = Rc::new(alloc, place).ok()?;
    let disks = disks.stopping(&stop).ok()?;
    let clock = MemClock::new(Vec::new(alloc));
    let opened = match work {
        Work::Make => Book::make(alloc, disks, clock),
        Work::Move | Work::Show => Book::open(alloc, disks, clock),
    };
    let mut came = Came {
        stopped: false,
        trouble: None,
        recovered: 0,
        amounts: [None; 4],
    };
    let disks = match opened {
        Ok(mut book) => {
            match works(alloc, &mut book, work) {
                Ok(recovered) => came.recovered = recovered,
                Err(e) => came.trouble = Some(e),
            }
            came.amounts = [
                amount(&book, Side::Left, 1),
                amount(&book, Side::Left, 2),
                amount(&book, Side::Right, 1),
                amount(&book, Side::Right, 2),
            ];
            book.into_disks()
        }
        Err((e, disks)) => {
            came.trouble = Some(e);
            disks
        }
    };
    came.stopped = stop.has_stopped();
    Some((came, disks.into_inner()))
}

/// A crash that leaves these images of the log, of the left store and of the right one.
pub fn crash(disks: &mut Memory, wishes: [Image; 3]) {
    disks.log.crash(wishes[0]);
    disks.left.crash(wishes[1]);
    disks.right.crash(wishes[2]);
}
