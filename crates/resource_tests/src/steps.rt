//! Steps of a store over a disk in memory.
ghost use Rattle.std.specs.Prelude.{◌≡◌, length, IfOk};

use dtx_values::{EnlNo, Note, Outcome, Reply, Resource, TxNo, Vote};
use kv_resource::{KV_BYTES, Kv, KvRefusal};
use outside::{Disk, Image, MemDisk};
use std::alloc::{AllocError, Global};
use std::process::Abort;
use std::test::Fail;

/// What a step refuses. A transaction stands by its number for good.
#[derive(Clone, Copy, PartialEq, Eq, Debug)]
pub enum Refused {
    Stopped,
    Prepared(u64, u32),
    Busy(u64, u32),
    TooMany,
}

/// A step, and what it is to answer.
#[derive(Clone, Copy, PartialEq, Eq, Debug)]
pub enum Step {
    Put(u32, u32, u32, u64, Option<Refused>),
    On(u32, u32, Note, Option<Reply>),
    /// `into_disk`, a crash and `from_disk`.
    Reopen(Image),
    /// What `get` gives.
    Has(u32, Option<u64>),
    /// What is in doubt, at most two.
    Doubt([Option<(u64, u32)>; 2]),
}

pub const YES: Option<Reply> = Some(Reply::Vote(Vote::Yes));

pub const NO: Option<Reply> = Some(Reply::Vote(Vote::No));

pub const DONE: Option<Reply> = Some(Reply::Vote(Vote::Done));

pub const COMMITTED: Option<Reply> = Some(Reply::Owner(Outcome::Committed));

pub const ABORTED: Option<Reply> = Some(Reply::Owner(Outcome::Aborted));

pub const UNSURE: Option<Reply> = Some(Reply::Owner(Outcome::InDoubt));

pub const ACK: Option<Reply> = Some(Reply::Ack);

pub const PROMOTED: Option<Reply> = Some(Reply::Promote(true));

/// A disk for a store, whose calls of these numbers fail.
pub fn disk(alloc: Global, fail: &[u64]) -> Result<MemDisk, AllocError>
    ensures { IfOk result (λ d. length d.images.kept ≡ KV_BYTES) }
{
    MemDisk::new(alloc, KV_BYTES, Vec::from_slice(alloc, fail)?)
}

/// The numbers of an enlistment.
pub fn pair(t: u32, e: u32) -> Result<(TxNo, EnlNo), Fail> {
    let t = TxNo::new(t).ok_or("transaction")?;
    let e = EnlNo::new(e).ok_or("enlistment")?;
    Ok((t, e))
}

/// A refusal in the words of the tables.
pub fn in_words(r: KvRefusal) -> Option<Refused> {
    match r {
        KvRefusal::Stopped => Some(Refused::Stopped),
        KvRefusal::Prepared(t, e) => Some(Refused::Prepared(t.number(), e.get())),
        KvRefusal::Busy(t, e) => Some(Refused::Busy(t.number(), e.get())),
        KvRefusal::TooMany(40) => Some(Refused::TooMany),
        _ => None,
    }
}

/// The first two in doubt.
pub fn doubts(store: &Kv<MemDisk>) -> [Option<(u64, u32)>; 2] {
    let mut doubts = store.in_doubt();
    let first = doubts.next().map(|(t, e)| (t.number(), e.get()));
    let second = doubts.next().map(|(t, e)| (t.number(), e.get()));
    [first, second]
}

/// The store that is found after a crash.
pub fn reopened(alloc: Global, store: Kv<MemDisk>, image: Image) -> Result<Kv<MemDisk>, Fail> {
    let mut disk = store.into_disk();
    disk.crash(image);
    if disk.len() < KV_BYTES {
        return Err("short".into());
    }
    match Kv::from_disk(alloc, disk) {
        Ok(store) => Ok(store),
        Err(_) => Err("no store".into()),
    }
}

/// Makes a step, and says whether it answered as it is to.
pub fn answers(store: &mut Kv<MemDisk>, step: Step) -> Result<bool, Fail> {
    match step {
        Step::Put(t, e, key, value, want) => {
            let (t, e) = pair(t, e)?;
            match store.put(t, e, key, value) {
                Ok(()) => Ok(want.is_none()),
                Err(r) => Ok(want.is_some() && in_words(r) == want),
            }
        }
        Step::On(t, e, note, want) => {
            let (t, e) = pair(t, e)?;
            Ok(store.on(t, e, note) == want)
        }
        Step::Reopen(_) => Ok(true),
        Step::Has(key, want) => Ok(store.get(key) == want),
        Step::Doubt(want) => Ok(doubts(store) == want),
    }
}

/// Makes the steps on a fresh store, whose disk fails the calls of these numbers.
pub fn run(rt: &impl Abort, alloc: Global, fail: &[u64], steps: &[Step]) -> Result<(), Fail> {
    let disk = disk(alloc, fail)?;
    let mut store = match Kv::format(alloc, disk) {
        Ok(store) => store,
        Err(_) => return Err("format".into()),
    };
    for step in steps {
        let as_wanted = answers(&mut store, *step)?;
        assert!(rt; as_wanted, "{step:?}");
        if let Step::Reopen(image) = *step {
            store = reopened(alloc, store, image)?;
        }
    }
    Ok(())
}
