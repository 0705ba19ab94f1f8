//! A book that is made over one that stands, and the stops of both.
use crate::processes::{MADE, MOVED, Memory, Work, blank, copies_of, process};
use ledger_book::Trouble;
use std::alloc::Global;

/// How many writes and syncs a move and a making have.
const MOVE_CALLS: u64 = 27;

const MAKE_CALLS: u64 = 34;

/// What is found after the stops.
#[derive(Clone, Copy, PartialEq, Eq, Debug)]
struct Found {
    /// A store is another's: it has a later epoch than the log.
    others: u32,
    /// The log or a store is none.
    none: u32,
    /// The book is there: it has no account, or all of them as they were made or after the move.
    whole: u32,
    /// Anything else.
    wrong: u32,
}

/// Adds what is found after a stop of a move and one of a making over it.
fn find(alloc: Global, made: &mut Memory, stops: [u64; 2], found: &mut Found) -> Option<()> {
    let disks = copies_of(alloc, made)?;
    let (_, disks) = process(alloc, disks, Work::Move, Some(stops[0]))?;
    let (_, disks) = process(alloc, disks, Work::Make, Some(stops[1]))?;
    let (came, _disks) = process(alloc, disks, Work::Show, None)?;
    let count = match came.trouble {
        Some(Trouble::Others(_)) => &mut found.others,
        Some(Trouble::NotOne(_, _)) => &mut found.none,
        None if [MADE, MOVED, [None; 4]].contains(&came.amounts) => &mut found.whole,
        _ => &mut found.wrong,
    };
    *count = count.saturating_add(1);
    Some(())
}

/// What is found after each stop of a move and each of a making over it.
fn finds(alloc: Global) -> Option<Found> {
    let (_, mut made) = process(alloc, blank(alloc)?, Work::Make, None)?;
    let mut found = Found {
        others: 0,
        none: 0,
        whole: 0,
        wrong: 0,
    };
    for first in 1..=MOVE_CALLS {
        for second in 1..=MAKE_CALLS {
            find(alloc, &mut made, [first, second], &mut found)?;
        }
    }
    Some(found)
}

#[test]
fn a_making_over_a_book_leaves_all_or_nothing(rt: HostRuntime) {
    let found = finds(rt.alloc()).expect(&rt, "memory");
    assert_eq!(&rt;
        found,
        Found {
            others: 108,
            none: 162,
            whole: 648,
            wrong: 0
        }
    );
}
