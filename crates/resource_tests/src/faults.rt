//! Notes under which each device call fails in turn: what is answered, and what each image then holds.
ghost use Rattle.std.specs.Prelude.{◌≤◌};

use crate::steps::{
    ACK, COMMITTED, NO, Refused, Step, UNSURE, YES, answers, disk, doubts, reopened,
};
use dtx_values::{Note, Reply};
use kv_resource::Kv;
use outside::Image;
use std::alloc::Global;
use std::process::Abort;
use std::test::Fail;

/// What an enlistment did before the note: it put, it prepared, or it committed.
#[derive(Clone, Copy, PartialEq, Eq, Debug)]
enum Before {
    Put,
    Prepared,
    Marked,
}

/// What a crash leaves of it: nothing, its record, or its record marked.
#[derive(Clone, Copy, PartialEq, Eq, Debug)]
enum Left {
    Nothing,
    Record,
    Marked,
}

/// A note; what came before; which of the note's device calls fails, 0 for none; the answer; what `Lose`, `Keep` and `Torn` leave.
type Row = (Note, Before, u8, Option<Reply>, [Left; 3]);

const ROWS: [Row; 26] = [
    (Note::Prepare, Before::Put, 0, YES, [Left::Record; 3]),
    (Note::Prepare, Before::Put, 1, NO, [Left::Nothing; 3]),
    (Note::Prepare, Before::Put, 2, NO, [Left::Nothing; 3]),
    (Note::Prepare, Before::Put, 3, NO, [Left::Nothing; 3]),
    (
        Note::Prepare,
        Before::Put,
        4,
        NO,
        [Left::Nothing, Left::Record, Left::Nothing],
    ),
    (Note::Prepare, Before::Prepared, 0, YES, [Left::Record; 3]),
    (Note::Prepare, Before::Marked, 0, YES, [Left::Marked; 3]),
    (Note::Hand, Before::Put, 0, COMMITTED, [Left::Marked; 3]),
    (Note::Hand, Before::Put, 1, UNSURE, [Left::Nothing; 3]),
    (Note::Hand, Before::Put, 2, UNSURE, [Left::Nothing; 3]),
    (Note::Hand, Before::Put, 3, UNSURE, [Left::Nothing; 3]),
    (
        Note::Hand,
        Before::Put,
        4,
        UNSURE,
        [Left::Nothing, Left::Record, Left::Nothing],
    ),
    (Note::Hand, Before::Put, 5, UNSURE, [Left::Record; 3]),
    (
        Note::Hand,
        Before::Put,
        6,
        UNSURE,
        [Left::Record, Left::Marked, Left::Record],
    ),
    (
        Note::Hand,
        Before::Prepared,
        0,
        COMMITTED,
        [Left::Marked; 3],
    ),
    (Note::Hand, Before::Prepared, 1, UNSURE, [Left::Record; 3]),
    (
        Note::Hand,
        Before::Prepared,
        2,
        UNSURE,
        [Left::Record, Left::Marked, Left::Record],
    ),
    (Note::Hand, Before::Marked, 0, COMMITTED, [Left::Marked; 3]),
    (Note::Commit, Before::Put, 0, ACK, [Left::Nothing; 3]),
    (Note::Commit, Before::Prepared, 0, ACK, [Left::Marked; 3]),
    (Note::Commit, Before::Prepared, 1, None, [Left::Record; 3]),
    (
        Note::Commit,
        Before::Prepared,
        2,
        None,
        [Left::Record, Left::Marked, Left::Record],
    ),
    (Note::Commit, Before::Marked, 0, ACK, [Left::Marked; 3]),
    (Note::Rollback, Before::Prepared, 1, None, [Left::Record; 3]),
    (
        Note::Rollback,
        Before::Prepared,
        2,
        None,
        [Left::Record, Left::Nothing, Left::Nothing],
    ),
    (Note::Rollback, Before::Marked, 0, None, [Left::Marked; 3]),
];

/// How many device calls came before the note: those of `format`, of the other's prepare, and of what came before.
fn calls_before(before: Before) -> u64
    ensures { result ≤ 14 }
{
    match before {
        Before::Put => 8,
        Before::Prepared => 12,
        Before::Marked => 14,
    }
}

/// The steps before the note: t2 e2 prepares, and t1 e1 does its part.
fn steps_before(before: Before) -> [Step; 5] {
    let put = Step::Put(1, 1, 7, 70, None);
    let idle = Step::Has(1000, None);
    let (fourth, fifth) = match before {
        Before::Put => (idle, idle),
        Before::Prepared => (Step::On(1, 1, Note::Prepare, YES), idle),
        Before::Marked => (
            Step::On(1, 1, Note::Prepare, YES),
            Step::On(1, 1, Note::Commit, ACK),
        ),
    };
    [
        Step::Put(2, 2, 3, 30, None),
        Step::On(2, 2, Note::Prepare, YES),
        put,
        fourth,
        fifth,
    ]
}

/// Whether a store has t2 e2 in doubt, and this of t1 e1.
fn holds(store: &mut Kv<outside::MemDisk>, left: Left) -> bool {
    let (second, value) = match left {
        Left::Nothing => (None, None),
        Left::Record => (Some((1, 1)), None),
        Left::Marked => (None, Some(70)),
    };
    doubts(store) == [Some((2, 2)), second] && store.get(7) == value && store.get(3).is_none()
}

/// Gives the note of a row, with one crash.
fn crashed(rt: &impl Abort, alloc: Global, row: Row, image: Image, left: Left) -> Result<(), Fail> {
    let (note, before, fail, answer, _) = row;
    let number = if fail == 0 {
        0
    } else {
        calls_before(before) + u64::from(fail)
    };
    let disk = disk(alloc, &[number])?;
    let mut store = match Kv::format(alloc, disk) {
        Ok(store) => store,
        Err(_) => return Err("format".into()),
    };
    for step in steps_before(before) {
        let as_wanted = answers(&mut store, step)?;
        assert!(rt; as_wanted, "{row:?} {step:?}");
    }
    let as_wanted = answers(&mut store, Step::On(1, 1, note, answer))?;
    assert!(rt; as_wanted, "{row:?}");
    let refused = Step::Put(
        3,
        3,
        100,
        1,
        if fail == 0 {
            None
        } else {
            Some(Refused::Stopped)
        },
    );
    let as_wanted = answers(&mut store, refused)?;
    assert!(rt; as_wanted, "{row:?} {refused:?}");
    let mut store = reopened(alloc, store, image)?;
    assert!(rt; holds(&mut store, left), "{row:?} {image:?}");
    Ok(())
}

/// Each row, with one crash.
fn each_row(rt: &impl Abort, alloc: Global, image: Image) -> Result<(), Fail> {
    for row in ROWS {
        let [lose, keep, torn] = row.4;
        let left = match image {
            Image::Lose => lose,
            Image::Keep => keep,
            Image::Torn => torn,
        };
        crashed(rt, alloc, row, image, left)?;
    }
    Ok(())
}

#[test]
fn each_call_may_fail_and_be_lost(rt: HostRuntime) -> Result<(), Fail> {
    each_row(&rt, rt.alloc(), Image::Lose)
}

#[test]
fn each_call_may_fail_and_be_kept(rt: HostRuntime) -> Result<(), Fail> {
    each_row(&rt, rt.alloc(), Image::Keep)
}

#[test]
fn each_call_may_fail_and_be_torn(rt: HostRuntime) -> Result<(), Fail> {
    each_row(&rt, rt.alloc(), Image::Torn)
}
