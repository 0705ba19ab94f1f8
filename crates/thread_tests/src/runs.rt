//! Runs on threads and in a replay, in which two managers have an object each: it hears each note to which a reply of one of the manager's enlistments is due, and no other, and its answer is the reply where it fits the note. And replies overlap: each is held until the other is called for.
use crate::objects::{Watch, objects};
use dtx_values::{Entry, Outcome, Party, Reply, Resource, Vote};
use entry_lists::Trace;
use script_runner::{run_replay, run_threads};
use std::alloc::Global;
use std::sync::atomic::Ordering;
use std::sync::{Arc, Wait};
use std::test::Fail;
use std::thread::Threads;
use turn_tests::{sure_log, threadable};

/// Runs a script over an empty log: on threads with so many helpers, or as a replay.
fn ran<R: Threads + Wait + Sync>(
    rt: &R,
    alloc: Global,
    text: &str,
    helpers: Option<u8>,
    gate: &Watch,
    mut given: Vec<Box<dyn Resource + Send>>,
) -> Result<Trace, Fail> {
    let script = threadable(alloc, text.as_bytes())?;
    let mut log = sure_log(alloc)?;
    let Some(helpers) = helpers else {
        return Ok(run_replay(alloc, &script, &mut log, given.as_mut_slice())?);
    };
    let (trace, _disk) = run_threads(rt, alloc, &script, helpers, log, gate, given);
    let Ok(trace) = trace else {
        return Err("no trace".into());
    };
    Ok(trace)
}

/// What the trace has: a vote for yes, one for no, and a client that was told committed, or aborted.
#[derive(Clone, Copy, PartialEq, Eq, Debug)]
struct Course {
    yes: bool,
    no: bool,
    committed: bool,
    aborted: bool,
}

const NONE: Course = Course {
    yes: false,
    no: false,
    committed: false,
    aborted: false,
};

const COMMITTED: Course = Course {
    yes: true,
    no: false,
    committed: true,
    aborted: false,
};

const ABORTED: Course = Course {
    yes: false,
    no: true,
    committed: false,
    aborted: true,
};

const BOTH: Course = Course {
    yes: true,
    no: true,
    committed: true,
    aborted: true,
};

fn found(trace: &Trace) -> Course {
    let mut found = NONE;
    for i in 0..trace.len() {
        match trace.at(i).1 {
            Entry::Voted(_, Vote::Yes) => found.yes = true,
            Entry::Voted(_, Vote::No) => found.no = true,
            Entry::Told(Party::Client, Outcome::Committed) => found.committed = true,
            Entry::Told(Party::Client, Outcome::Aborted) => found.aborted = true,
            _ => {}
        }
    }
    found
}

/// A client commits with a durable of manager 1 that plans to vote yes.
const YES: &str = "a1 begin t1 default\na1 durable t1 e1 r1 two yes\na1 commit t1\n";

/// The same, where the durable plans to stay silent.
const SILENT: &str = "a1 begin t1 default\na1 durable t1 e1 r1 two silent\na1 commit t1\n";

/// The same as the first, at manager 3, which has no object.
const ELSEWHERE: &str = "a1 begin t1 default\na1 durable t1 e1 r3 two yes\na1 commit t1\n";

/// The same as the first, where the client waits for the outcome.
const WAITS: &str = "a1 begin t1 default\na1 durable t1 e1 r1 two yes\na1 commit t1\na1 await t1\n";

/// A client commits with a durable of manager 1 that plans to vote no, and the log is stopped and opened again meanwhile.
const STOPS: &str =
    "a1 begin t1 default\na1 durable t1 e1 r1 two no\na1 commit t1\na1 stop 3 keep\n\
    a1 await t1\na1 restart\na1 reenlist e1\n";

/// Two transactions, each with a durable of its own manager.
const MANAGERS: &str = "a1 begin t1 default\na1 durable t1 e1 r1 two yes\na1 begin t2 default\n\
    a1 durable t2 e2 r2 two yes\na1 commit t1\na1 commit t2\n";

/// Two clients, each with a transaction and a volatile that votes.
const TWO: &str = "a1 begin t1 default\na1 volatile t1 e1 none yes\na2 begin t2 default\n\
    a2 volatile t2 e2 none yes\na1 par\na1 commit t1\na1 await t1\na2 commit t2\na2 await t2\n";

/// One client with two transactions, each with a volatile that votes. It waits for the outcome of the first alone: the reply of the second is called for by a helper.
const HELPED: &str = "a1 begin t1 default\na1 volatile t1 e1 none yes\na1 begin t2 default\n\
    a1 volatile t2 e2 none yes\na1 par\na1 commit t2\na1 commit t1\na1 await t1\n";

#[test]
fn objects_are_asked_and_replies_overlap(rt: HostRuntime) -> Result<(), Fail> {
    let alloc = rt.alloc();
    let (no, yes) = (Some(Reply::Vote(Vote::No)), Some(Reply::Vote(Vote::Yes)));
    // The script, its helpers, the answer of the first object; what is found, what the objects heard, and how many replies met. Without helpers the caller asks, after the threads ended.
    // To a durable that votes no, no further note comes to which it is to reply.
    let cases = [
        (YES, None, no, (ABORTED, 1, 0, 0)),
        (YES, None, None, (COMMITTED, 15, 0, 0)),
        (YES, None, Some(Reply::Ack), (COMMITTED, 15, 0, 0)),
        (SILENT, None, no, (NONE, 0, 0, 0)),
        (ELSEWHERE, None, no, (COMMITTED, 0, 0, 0)),
        (WAITS, Some(1), no, (ABORTED, 1, 0, 0)),
        (MANAGERS, Some(0), no, (BOTH, 1, 15, 0)),
        (MANAGERS, Some(2), no, (BOTH, 1, 15, 0)),
        (TWO, Some(2), no, (COMMITTED, 0, 0, 2)),
        (HELPED, Some(2), no, (COMMITTED, 0, 0, 2)),
    ];
    for (text, helpers, answer, wanted) in cases {
        let watch = Arc::new(alloc, Watch::new(wanted.3 == 0))?;
        let given = objects(alloc, &watch, answer)?;
        let found = found(&ran(&rt, alloc, text, helpers, &*watch, given)?);
        let first = watch.first.load(Ordering::SeqCst);
        let second = watch.second.load(Ordering::SeqCst);
        let met = watch.met.load(Ordering::SeqCst);
        assert_eq!(rt; (found, first, second, met), wanted, "at {text}");
    }
    // What is told and heard after a stop may differ from run to run; the votes don't.
    let watch = Arc::new(alloc, Watch::new(true))?;
    let given = objects(alloc, &watch, yes)?;
    let stopped = found(&ran(&rt, alloc, STOPS, Some(4), &*watch, given)?);
    assert!(rt; stopped.yes && !stopped.no);
    Ok(())
}
