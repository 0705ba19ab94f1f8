//! Stores whose transactions are of several epochs, and what is finished of what an earlier process left.
ghost use Rattle.std.specs.Prelude.{◌≡◌, ◌≤◌, length};

use crate::steps::{Refused, YES, disk, doubts, in_words, reopened};
use dtx_values::{EnlNo, Note, Reply, TxId, TxNo};
use kv_resource::{KV_BYTES, Kv, KvRefusal};
use outside::{Disk, Image, MemDisk};
use resource_managers::{Enlistment, Held, Recoverable, ResourceManager};
use std::alloc::Global;
use std::process::Abort;
use std::test::Fail;

/// An enlistment: its transaction's epoch and number within that, and its own number there.
type Name = (u32, u32, u32);

/// A step, and what it is to answer. An answer has a transaction by its number for good.
#[derive(Clone, Copy, PartialEq, Eq, Debug)]
enum Step {
    Put(Name, u32, u64, Option<Refused>),
    On(Name, Note, Option<Reply>),
    /// `into_disk`, a crash and `from_disk`.
    Reopen,
    /// What `get` gives.
    Has(u32, Option<u64>),
    /// Who hasn't committed, at most two.
    Open([Option<(u64, u32)>; 2]),
    /// Who is in doubt first.
    Doubt(Option<(u64, u32)>),
    Count(usize),
    /// What is held at a place: whose, whether it is marked, and whether it was prepared since the
    /// store was opened.
    Held(usize, Option<(u64, u32, bool, bool)>),
    /// Whether a finish did its work.
    Finish(Name, bool, bool),
}

fn enlistment(name: Name) -> Result<Enlistment, Fail> {
    let t = TxNo::new(name.1).ok_or("transaction")?;
    let e = EnlNo::new(name.2).ok_or("enlistment")?;
    Ok(Enlistment::new(TxId::new(name.0, t), e))
}

fn numbers(e: Enlistment) -> (u64, u32) {
    (e.transaction().number(), e.number().get())
}

fn in_numbers(h: Held) -> (u64, u32, bool, bool) {
    let (t, e) = numbers(h.enlistment);
    (t, e, h.marked, h.prepared_here)
}

/// Whether a put was refused as it is to be.
fn puts(
    store: &mut Kv<MemDisk>,
    e: Enlistment,
    key: u32,
    value: u64,
    want: Option<Refused>,
) -> bool {
    match store.put_in(e.transaction(), e.number(), key, value) {
        Ok(()) => want.is_none(),
        Err(r) => want.is_some() && in_words(r) == want,
    }
}

/// Who is in doubt first.
fn first_doubt(store: &impl Recoverable) -> Option<(u64, u32)> {
    store.in_doubt().map(numbers)
}

/// Makes a step, and says whether it answered as it is to.
fn answers(store: &mut Kv<MemDisk>, step: Step) -> Result<bool, Fail> {
    match step {
        Step::Put(name, key, value, want) => Ok(puts(store, enlistment(name)?, key, value, want)),
        Step::On(name, note, want) => Ok(store.on(enlistment(name)?, note) == want),
        Step::Reopen => Ok(true),
        Step::Has(key, want) => Ok(store.get(key) == want),
        Step::Open(want) => Ok(doubts(store) == want),
        Step::Doubt(want) => Ok(first_doubt(store) == want),
        Step::Count(want) => Ok(store.count() == want),
        Step::Held(place, want) => Ok(store.held(place).map(in_numbers) == want),
        Step::Finish(name, commit, want) => {
            Ok(store.finish(enlistment(name)?, commit).is_ok() == want)
        }
    }
}

/// Makes the steps on a fresh store, whose disk fails the calls of these numbers.
fn run(rt: &impl Abort, alloc: Global, fail: &[u64], steps: &[Step]) -> Result<(), Fail> {
    let disk = disk(alloc, fail)?;
    let mut store = match Kv::format(alloc, disk) {
        Ok(store) => store,
        Err(_) => return Err("format".into()),
    };
    for step in steps {
        let as_wanted = answers(&mut store, *step)?;
        assert!(rt; as_wanted, "{step:?}");
        if let Step::Reopen = *step {
            store = reopened(alloc, store, Image::Lose)?;
        }
    }
    Ok(())
}

/// Three pairs prepare, t1 e1 of the epochs 1, 2 and 0 in turn. After a crash each is finished, and
/// a pair of epoch 3 that prepares then isn't.
const ROWS: [Step; 46] = [
    Step::Put((1, 1, 1), 1, 10, None),
    Step::Put((2, 1, 1), 1, 11, Some(Refused::Busy(65_537, 1))),
    Step::Put((1, 1, 1), 2, 20, None),
    Step::On((1, 1, 1), Note::Prepare, YES),
    Step::Put((1, 1, 1), 3, 30, Some(Refused::Prepared(65_537, 1))),
    Step::Put((2, 1, 1), 2, 21, Some(Refused::Busy(65_537, 1))),
    Step::Put((2, 1, 1), 5, 50, None),
    Step::Put((1, 2, 1), 5, 51, Some(Refused::Busy(131_073, 1))),
    Step::On((2, 1, 1), Note::Prepare, YES),
    Step::Put((0, 1, 1), 5, 52, Some(Refused::Busy(131_073, 1))),
    Step::Put((0, 1, 1), 7, 70, None),
    Step::On((0, 1, 1), Note::Prepare, YES),
    Step::Open([Some((65_537, 1)), Some((131_073, 1))]),
    Step::Doubt(None),
    Step::Finish((1, 1, 1), true, true),
    Step::Has(1, None),
    Step::Held(0, Some((65_537, 1, false, true))),
    Step::Reopen,
    Step::Count(3),
    Step::Held(0, Some((65_537, 1, false, false))),
    Step::Held(1, Some((131_073, 1, false, false))),
    Step::Held(2, Some((1, 1, false, false))),
    Step::Held(3, None),
    Step::Doubt(Some((65_537, 1))),
    Step::Put((3, 1, 1), 9, 90, None),
    Step::On((3, 1, 1), Note::Prepare, YES),
    Step::Held(3, Some((196_609, 1, false, true))),
    Step::Finish((2, 1, 1), true, true),
    Step::Has(5, Some(50)),
    Step::Held(1, Some((131_073, 1, true, false))),
    Step::Doubt(Some((65_537, 1))),
    Step::Finish((1, 1, 1), false, true),
    Step::Has(1, None),
    Step::Doubt(Some((1, 1))),
    Step::Count(3),
    Step::Finish((1, 1, 1), true, true),
    Step::Has(1, None),
    Step::Finish((3, 1, 1), true, true),
    Step::Has(9, None),
    Step::Finish((0, 1, 1), true, true),
    Step::Has(7, Some(70)),
    Step::Doubt(None),
    Step::Open([Some((196_609, 1)), None]),
    Step::Reopen,
    Step::Doubt(Some((196_609, 1))),
    Step::Has(5, Some(50)),
];

#[test]
fn finishes_what_an_earlier_process_left(rt: HostRuntime) -> Result<(), Fail> {
    run(&rt, rt.alloc(), &[], &ROWS)
}

/// The first call of the disk under a finish fails: 4 calls came under `format`, 4 under the
/// prepare, and 1,026 under `from_disk`.
const FAULT: [u64; 1] = [1035];

const STOPPED: [Step; 9] = [
    Step::Put((1, 1, 1), 1, 10, None),
    Step::On((1, 1, 1), Note::Prepare, YES),
    Step::Reopen,
    Step::Finish((1, 1, 1), true, false),
    Step::Doubt(Some((65_537, 1))),
    Step::Finish((1, 1, 1), false, false),
    Step::Finish((2, 1, 1), true, true),
    Step::Held(0, Some((65_537, 1, false, false))),
    Step::Has(1, None),
];

#[test]
fn finishes_nothing_once_it_is_stopped(rt: HostRuntime) -> Result<(), Fail> {
    run(&rt, rt.alloc(), &FAULT, &STOPPED)
}

/// The first slot of a store, after an enlistment of epoch 2 prepared.
fn written(alloc: Global) -> Result<[u8; 512], Fail> {
    let mut store = match Kv::format(alloc, disk(alloc, &[])?) {
        Ok(store) => store,
        Err(_) => return Err("format".into()),
    };
    let e = enlistment((2, 1, 1))?;
    if !puts(&mut store, e, 3, 30, None) || store.on(e, Note::Prepare) != YES {
        return Err("prepare".into());
    }
    let mut disk = store.into_disk();
    let mut slot = [0; 512];
    if disk.len() != KV_BYTES || disk.read(512, &mut slot).is_err() {
        return Err("read".into());
    }
    Ok(slot)
}

#[test]
fn writes_the_epoch_before_the_mark(rt: HostRuntime) -> Result<(), Fail> {
    let slot = written(rt.alloc())?;
    assert!(rt; slot[4..8] == [1, 0, 0, 0]);
    assert!(rt; slot[506..512] == [0, 2, 0, 0, 0, 0]);
    Ok(())
}
