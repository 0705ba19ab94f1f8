//! Worked lists of calls.
use crate::{MapRefusal, TxMap};
use dtx_values::Note::*;
use dtx_values::{EnlNo, Note, Reply, Resource, TxNo, Vote};
use std::alloc::{AllocError, Global};
use std::test::Fail;

/// A call of a map.
#[derive(Clone, Copy, Debug)]
enum Call {
    /// A new map in its place; these keys are looked up from here on.
    New(u32, u32, u32),
    /// A put by a transaction and an enlistment of a key and a value.
    Put(u32, u32, u32, Option<u64>),
    /// The same by t1 and e1 for each key from 1 to 1,000, with the key as its value.
    PutAll,
    /// A note to a transaction and an enlistment.
    On(u32, u32, Note),
}

use Call::{New, On, Put, PutAll};

/// A call, and what it answers; behind it `base` and `get` of the three keys.
static ROWS: [(Call, &str); 86] = [
    // the map
    (New(1, 2, 3), "ok: - - -: - - -"),
    (Put(1, 1, 1, Some(10)), "ok: - - -: 10 - -"),
    (Put(2, 2, 1, None), "busy 1 1: - - -: 10 - -"),
    (On(1, 1, Prepare), "yes: - - -: 10 - -"),
    (Put(1, 1, 2, None), "over 1 1: - - -: 10 - -"),
    (On(1, 1, Rollback), "none: - - -: - - -"),
    (Put(2, 2, 1, Some(11)), "ok: - - -: 11 - -"),
    (Put(2, 2, 2, Some(22)), "ok: - - -: 11 22 -"),
    (On(2, 2, Commit), "none: 11 22 -: 11 22 -"),
    (Put(1, 1, 1, None), "ok: 11 22 -: - 22 -"),
    (Put(1, 1, 2, Some(5)), "ok: 11 22 -: - 5 -"),
    (On(2, 2, Rollback), "none: 11 22 -: - 5 -"),
    (On(1, 1, Prepare), "yes: 11 22 -: - 5 -"),
    (On(1, 1, InDoubt), "none: 11 22 -: - 5 -"),
    (Put(1, 1, 3, Some(3)), "over 1 1: 11 22 -: - 5 -"),
    (On(1, 1, Commit), "none: - 5 -: - 5 -"),
    (On(1, 1, Prepare), "done: - 5 -: - 5 -"),
    // a rollback undoes its own alone
    (New(1, 2, 3), "ok: - - -: - - -"),
    (Put(1, 1, 1, Some(10)), "ok: - - -: 10 - -"),
    (Put(2, 2, 2, Some(20)), "ok: - - -: 10 20 -"),
    (Put(3, 3, 3, Some(30)), "ok: - - -: 10 20 30"),
    (Put(1, 3, 1, Some(11)), "busy 1 1: - - -: 10 20 30"),
    (On(1, 1, Commit), "none: 10 - -: 10 20 30"),
    (Put(1, 4, 1, None), "ok: 10 - -: - 20 30"),
    (On(2, 2, Rollback), "none: 10 - -: - - 30"),
    (On(1, 4, Rollback), "none: 10 - -: 10 - 30"),
    (On(3, 3, Prepare), "yes: 10 - -: 10 - 30"),
    (On(1, 1, Commit), "none: 10 - -: 10 - 30"),
    (Put(3, 3, 2, Some(1)), "over 3 3: 10 - -: 10 - 30"),
    (On(3, 3, Commit), "none: 10 - 30: 10 - 30"),
    (On(3, 3, Commit), "none: 10 - 30: 10 - 30"),
    // a removal is a live write
    (New(1, 2, 3), "ok: - - -: - - -"),
    (Put(1, 1, 1, None), "ok: - - -: - - -"),
    (Put(2, 2, 1, Some(1)), "busy 1 1: - - -: - - -"),
    (On(1, 1, Prepare), "yes: - - -: - - -"),
    (Put(1, 1, 1, Some(5)), "over 1 1: - - -: - - -"),
    (On(1, 1, Commit), "none: - - -: - - -"),
    (Put(2, 2, 1, Some(1)), "ok: - - -: 1 - -"),
    (On(2, 2, Commit), "none: 1 - -: 1 - -"),
    (Put(1, 1, 1, None), "ok: 1 - -: - - -"),
    (Put(1, 1, 2, Some(2)), "ok: 1 - -: - 2 -"),
    (On(1, 1, Prepare), "yes: 1 - -: - 2 -"),
    (On(1, 1, Commit), "none: - 2 -: - 2 -"),
    (Put(1, 1, 1, Some(9)), "ok: - 2 -: 9 2 -"),
    (On(1, 1, Prepare), "yes: - 2 -: 9 2 -"),
    (On(1, 1, Rollback), "none: - 2 -: - 2 -"),
    (Put(1, 1, 1, Some(8)), "ok: - 2 -: 8 2 -"),
    (Put(1, 1, 2, Some(8)), "ok: - 2 -: 8 8 -"),
    // in doubt for good
    (New(1, 2, 3), "ok: - - -: - - -"),
    (Put(1, 1, 1, Some(1)), "ok: - - -: 1 - -"),
    (On(1, 1, Prepare), "yes: - - -: 1 - -"),
    (On(1, 1, InDoubt), "none: - - -: 1 - -"),
    (Put(2, 2, 1, Some(2)), "busy 1 1: - - -: 1 - -"),
    (Put(1, 1, 2, Some(2)), "over 1 1: - - -: 1 - -"),
    (On(1, 1, Prepare), "yes: - - -: 1 - -"),
    (Put(2, 2, 2, Some(2)), "ok: - - -: 1 2 -"),
    (On(2, 2, Prepare), "yes: - - -: 1 2 -"),
    (On(2, 2, InDoubt), "none: - - -: 1 2 -"),
    (On(2, 2, Rollback), "none: - - -: 1 - -"),
    (On(1, 1, Commit), "none: 1 - -: 1 - -"),
    // a thousand keys
    (New(5, 1000, 1001), "ok: - - -: - - -"),
    (PutAll, "ok: - - -: 5 1000 -"),
    (Put(1, 1, 1001, Some(1)), "many 1000: - - -: 5 1000 -"),
    (Put(1, 1, 1000, Some(7)), "ok: - - -: 5 7 -"),
    (Put(2, 2, 1000, Some(1)), "busy 1 1: - - -: 5 7 -"),
    (Put(2, 2, 1001, Some(1)), "ok: - - -: 5 7 1"),
    (On(1, 1, Prepare), "yes: - - -: 5 7 1"),
    (Put(1, 1, 1001, Some(1)), "over 1 1: - - -: 5 7 1"),
    (On(1, 1, Commit), "none: 5 7 -: 5 7 1"),
    (Put(1, 1, 1002, Some(1)), "ok: 5 7 -: 5 7 1"),
    (Put(2, 2, 1002, Some(1)), "busy 1 1: 5 7 -: 5 7 1"),
    (Put(2, 2, 5, None), "ok: 5 7 -: - 7 1"),
    (On(2, 2, Commit), "none: - 7 1: - 7 1"),
    // two transactions, and other notes
    (New(1, 2, 3), "ok: - - -: - - -"),
    (Put(1, 1, 1, Some(1)), "ok: - - -: 1 - -"),
    (Put(2, 1, 2, Some(2)), "ok: - - -: 1 2 -"),
    (On(1, 1, Hand), "none: - - -: 1 2 -"),
    (On(1, 1, Promote), "none: - - -: 1 2 -"),
    (On(1, 1, Single), "none: - - -: 1 2 -"),
    (On(1, 1, Init), "none: - - -: 1 2 -"),
    (On(3, 9, Prepare), "done: - - -: 1 2 -"),
    (On(3, 9, Commit), "none: - - -: 1 2 -"),
    (On(2, 1, Commit), "none: - 2 -: 1 2 -"),
    (On(1, 1, Prepare), "yes: - 2 -: 1 2 -"),
    (On(2, 1, Prepare), "done: - 2 -: 1 2 -"),
    (On(1, 1, Rollback), "none: - 2 -: - 2 -"),
];

fn pair(t: u32, e: u32) -> Option<(TxNo, EnlNo)> {
    Some((TxNo::new(t)?, EnlNo::new(e)?))
}

fn put(
    alloc: Global,
    map: &mut TxMap,
    (t, e): (TxNo, EnlNo),
    key: u32,
    value: Option<u64>,
) -> Result<String, AllocError> {
    match map.put(t, e, key, value) {
        Ok(()) => format!(in alloc; "ok"),
        Err(MapRefusal::Over(t, e)) => format!(in alloc; "over {} {}", t.get(), e.get()),
        Err(MapRefusal::Busy(t, e)) => format!(in alloc; "busy {} {}", t.get(), e.get()),
        Err(MapRefusal::TooMany(n)) => format!(in alloc; "many {n}"),
        Err(MapRefusal::Memory) => Err(AllocError),
    }
}

fn word(answer: Option<Reply>) -> &'static str {
    match answer {
        None => "none",
        Some(Reply::Vote(Vote::Yes)) => "yes",
        Some(Reply::Vote(Vote::Done)) => "done",
        Some(_) => "another",
    }
}

/// Makes the call, and says what it answers. A new map comes with its keys.
fn make(
    alloc: Global,
    map: &mut TxMap,
    keys: &mut (u32, u32, u32),
    c: Call,
) -> Result<String, Fail> {
    match c {
        New(i, j, k) => {
            *map = TxMap::new(alloc);
            *keys = (i, j, k);
        }
        Put(t, e, key, value) => {
            return Ok(put(alloc, map, pair(t, e).ok_or("out of range")?, key, value)?);
        }
        PutAll => {
            for key in 1..=1000 {
                let one = pair(1, 1).ok_or("out of range")?;
                put(alloc, map, one, key, Some(u64::from(key)))?;
            }
        }
        On(t, e, n) => {
            let (t, e) = pair(t, e).ok_or("out of range")?;
            return Ok(format!(in alloc; "{}", word(map.on(t, e, n)))?);
        }
    }
    Ok(format!(in alloc; "ok")?)
}

/// The value, or a dash for none.
fn shown(alloc: Global, value: Option<u64>) -> Result<String, AllocError> {
    match value {
        Some(n) => format!(in alloc; "{n}"),
        None => format!(in alloc; "-"),
    }
}

/// The values of three keys.
fn three(
    alloc: Global,
    i: Option<u64>,
    j: Option<u64>,
    k: Option<u64>,
) -> Result<String, AllocError> {
    let i = shown(alloc, i)?;
    let j = shown(alloc, j)?;
    let k = shown(alloc, k)?;
    format!(in alloc; "{i} {j} {k}")
}

#[test]
fn puts_are_seen_and_committed_or_undone(rt: HostRuntime) -> Result<(), Fail> {
    let mut map = TxMap::new(rt.alloc());
    let mut keys = (1, 2, 3);
    for (c, want) in ROWS.iter().copied() {
        let answer = make(rt.alloc(), &mut map, &mut keys, c)?;
        let (i, j, k) = keys;
        let base = three(rt.alloc(), map.base(i), map.base(j), map.base(k))?;
        let get = three(rt.alloc(), map.get(i), map.get(j), map.get(k))?;
        let got = format!(in rt.alloc(); "{answer}: {base}: {get}")?;
        assert!(rt; got.as_str() == want, "{got} at {c:?}");
    }
    Ok(())
}
