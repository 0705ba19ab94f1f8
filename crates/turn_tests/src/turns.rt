//! That threads go on beside each other, and what the calls of a thread do.
ghost use Rattle.std.specs.Prelude.{◌≡◌};
ghost use Rattle.tx_cells.specs.Fresh.{MayBegin};

use crate::flags::looked;
use crate::scripts::{empty_log, threadable};
use crate::slow_disk::{Slow, WriteFlags};
use crate::stages::Stage;
use coordinator_log::{LOG_BYTES, Log};
use dtx_values::{ActorNo, Answer, Entry, Outcome, Script, TxNo};
use outside::{Disk, MemDisk};
use std::alloc::Global;
use std::marker::Brand;
use std::process::Abort;
use std::sync::Wait;
use std::sync::atomic::Ordering;
use std::test::Fail;
use std::thread::{Threads, join};
use tx_threads::{Cells, Run, SharedLog, TurnError, Turned, call_at_log};

/// A transaction that is promoted, so that its commit is logged, and another that needs no log. Then one with a veto, one with an owner, one with a clone that rolls back, and one with two durables. Then one with a second
/// durable, which promotes, so that its call waits; another that is promoted; and a restart.
const CALLS: &[u8] = b"a1 begin t1 default\na1 durable t1 e1 r1 two yes\na1 commit t1\n\
    a2 begin t2 default\na2 volatile t2 e2 none yes\na2 commit t2\n\
    a1 begin t3 default\na1 volatile t3 e3 none no\na1 commit t3\n\
    a1 begin t4 default\na1 durable t4 e4 r1 single yes committed\na1 commit t4\n\
    a1 begin t5 default\na1 clone t5 c5 rollback\na1 commit t5\n\
    a1 begin t6 default\na1 durable t6 e6 r1 two yes\na1 durable t6 e7 r2 two yes\na1 commit t6\n\
    a1 begin t7 default\na1 durable t7 e8 r1 single yes committed\na1 durable t7 e9 r2 two yes\n\
    a1 begin t8 default\na1 durable t8 e10 r1 two yes\na1 restart\n";

/// One thread brings the first transaction to its write at the log. While that waits, another looks at its board, and begins and commits the second one, whose steps need no log.
fn both_ways<N: Run + Send + Sync, D: Disk + Drop + Send, R: Threads + Wait + Abort + Sync>(
    stage: &Stage<N, D, R>,
    flags: &WriteFlags,
) -> Result<(), Fail>
    requires { N.objects ≡ 0 }
{
    let rt = stage.rt;
    let (a, b) = (ActorNo::new(1).ok_or("a1")?, ActorNo::new(2).ok_or("a2")?);
    let (t, u) = (TxNo::new(1).ok_or("t1")?, TxNo::new(2).ok_or("t2")?);
    flags.armed.store(true, Ordering::SeqCst);
    let (first, second) = join(
        rt,
        || -> Result<Option<Outcome>, TurnError>
            requires { N.objects ≡ 0 }
        { stage.brought(a, 1, 3, t) },
        || -> Result<(bool, Option<Outcome>, Option<Outcome>), TurnError>
            requires { N.objects ≡ 0 }
        {
            let is_writing = looked(&flags.writing);
            let early = stage.told(t);
            let told = stage.brought(b, 4, 6, u)?;
            flags.go_on.store(true, Ordering::SeqCst);
            Ok((is_writing, early, told))
        },
    );
    let committed = Some(Outcome::Committed);
    assert!(rt; first == Ok(committed) && second == Ok((true, None, committed)));
    Ok(())
}

/// The first and the last line of the calls of a transaction, and what its client is told when nothing is left to do. For `None` nothing is done after the calls.
const BROUGHT: [(u32, u32, u32, Option<Outcome>); 6] = [
    (3, 7, 9, Some(Outcome::Aborted)),
    (4, 10, 12, Some(Outcome::Committed)),
    (5, 13, 15, Some(Outcome::Aborted)),
    (6, 16, 19, Some(Outcome::Committed)),
    (7, 20, 22, None),
    (8, 23, 24, None),
];

/// Each of these is brought to what its client is told. The call that waits is answered when it returns; and after the restart the history of each that is open ends with what was found.
fn alone<N: Run, D: Disk, R: Wait + Abort>(stage: &Stage<N, D, R>) -> Result<(), Fail>
    requires { N.objects ≡ 0 }
{
    let rt = stage.rt;
    let a = ActorNo::new(1).ok_or("a1")?;
    for (n, first, last, told) in BROUGHT {
        let t = TxNo::new(n).ok_or("no transaction")?;
        let done = match told {
            Some(_) => stage.brought(a, first, last, t) == Ok(told),
            None => stage.entered(a, first, last, t) == Ok(true),
        };
        assert!(rt; done, "at transaction {n}");
    }
    let (t, u) = (TxNo::new(7).ok_or("t7")?, TxNo::new(8).ok_or("t8")?);
    let is_answered = stage.seen(t, Entry::Answered(22, Answer::Fine)).0;
    let restarted = call_at_log(rt, stage.alloc, stage.cells, stage.log, a, 25);
    let found = Entry::Restarted(false);
    assert!(rt; is_answered && restarted == Ok(Turned::Did(Answer::Fine)));
    assert!(rt; stage.seen(t, found).1 && stage.seen(u, found).1);
    Ok(())
}

/// Both, where the run begins so.
fn ran<N: Run + Send + Sync, D: Disk + Drop + Send, R: Threads + Wait + Abort + Sync>(
    rt: &R,
    alloc: Global,
    script: &Script,
    log: Log<D>,
    flags: &WriteFlags,
) -> Result<(), Fail>
    requires objects { N.objects ≡ 0 }
    requires begins { MayBegin N.script N.honest N.faults D.honest D.faults script.now log }
{
    let Ok(log) = SharedLog::<D, N>::over(alloc, log, script) else {
        return Err("no log".into());
    };
    let cells = Cells::<N>::new(alloc, script)?;
    let stage = Stage {
        rt,
        alloc,
        cells: &cells,
        log: &log,
    };
    both_ways(&stage, flags)?;
    alone(&stage)
}

#[test]
fn a_write_at_the_log_holds_no_other_and_calls_are_done(rt: HostRuntime) -> Result<(), Fail> {
    let flags = WriteFlags::new();
    let script = threadable(rt.alloc(), CALLS)?;
    let disk = Slow {
        disk: MemDisk::new(rt.alloc(), LOG_BYTES, Vec::new(rt.alloc()))?,
        flags: &flags,
    };
    let log = empty_log(rt.alloc(), disk)?;
    ran::<Brand, Slow<'_>, _>(&rt, rt.alloc(), &script, log, &flags)?;
    assert!(rt; flags.seen.load(Ordering::SeqCst));
    Ok(())
}
