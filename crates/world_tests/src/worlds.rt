//! Calls, steps and replies of a world over a log, and a stop.
ghost use Rattle.std.specs.Prelude.{◌≡◌, [], true, IfOk, IsTrue};
ghost use Rattle.dtx_model.specs.Caused.{MayAnswer};
ghost use Rattle.dtx_values.specs.TxIds.{number_of};
ghost use Rattle.tx_world.specs.State.{may_enter};
ghost use Rattle.coordinator_log.specs.Slots.{open_records};
ghost use Rattle.tx_world.specs.AtLog.{Fits};

use coordinator_log::{LOG_BYTES, Log};
use dtx_values::{
    ActorNo, Answer, Call, EnlNo, EnlistOption, Entry, Note, Outbox, Outcome, Place, Reply,
    Timeout, TxId, TxNo, Vote,
};
use entry_lists::{PlacedEntries, Trace};
use outside::MemDisk;
use std::alloc::{AllocError, Global};
use std::process::Abort;
use std::test::Fail;
use trace_text::print_trace;
use tx_world::TxWorld;

/// A transaction's world over a log, and room for what a step writes.
#[derive(Drop)]
struct Run {
    world: TxWorld,
    log: Log<MemDisk>,
    out: Outbox,
}

/// An empty log.
fn empty_log(rt: &impl Abort, alloc: Global) -> Result<Log<MemDisk>, AllocError>
    ensures empty { IfOk result (λ l. open_records l.slots ≡ []) }
{
    let disk = MemDisk::new(alloc, LOG_BYTES, Vec::new(alloc))?;
    match Log::format(alloc, disk) {
        Ok(log) => Ok(log),
        Err((refusal, _disk)) => panic!(rt; "{refusal:?}"),
    }
}

/// The transaction.
pub(crate) fn transaction(rt: &impl Abort) -> TxNo {
    TxNo::new(1).expect(rt, "no such transaction")
}

/// Client 1, whose call of this line may be entered.
pub(crate) fn client(rt: &impl Abort, world: &TxWorld, line: u32, c: &Call) -> ActorNo
    ensures { may_enter world.now.world line c.now ≡ true }
{
    if !world.may_enter(line, c) {
        panic!(rt; "the call of line {line} may not be entered");
    }
    ActorNo::new(1).expect(rt, "no such client")
}

/// A world of the transaction, to which nothing happened yet.
pub(crate) fn world(rt: &impl Abort, alloc: Global) -> TxWorld
    ensures { Fits result [] }
{
    match TxWorld::new(alloc, TxId::first(transaction(rt))) {
        Ok(world) => world,
        Err(error) => panic!(rt; "{error}"),
    }
}

/// Such a world over an empty log.
fn fresh(rt: &impl Abort, alloc: Global) -> Result<Run, AllocError>
    ensures fits { IfOk result (λ run. IsTrue run.log.is_up → Fits run.world (open_records run.log.slots)) }
{
    let log = empty_log(rt, alloc)?;
    let out = Outbox::with_room(alloc)?;
    let world = world(rt, alloc);
    Ok(Run { world, log, out })
}

/// Does a call of client 1, with the steps before it, and says what it answered.
fn call(rt: &impl Abort, run: &mut Run, line: u32, c: &Call) -> Answer
    requires fits { IsTrue run.old.log.is_up → Fits run.old.world (open_records run.old.log.slots) }
    ensures fits { IsTrue run.new.log.is_up → Fits run.new.world (open_records run.new.log.slots) }
{
    let actor = client(rt, &run.world, line, c);
    match run.world.call(&mut run.log, &mut run.out, actor, line, c) {
        Ok(answer) => answer,
        Err(error) => panic!(rt; "{error}"),
    }
}

/// Does these calls, of these lines, and compares what they answer.
fn calls(rt: &impl Abort, run: &mut Run, cases: &[(u32, Call, Answer)])
    requires fits { IsTrue run.old.log.is_up → Fits run.old.world (open_records run.old.log.slots) }
    ensures fits { IsTrue run.new.log.is_up → Fits run.new.world (open_records run.new.log.slots) }
{
    for (line, c, answer) in cases {
        let came = call(rt, run, *line, c);
        assert!(rt; came == *answer, "at line {line}");
    }
}

/// Replies so for the enlistment that is asked first, where one is asked to prepare; whether the reply was due.
fn reply(rt: &impl Abort, run: &mut Run, vote: Vote) -> bool
    requires fits { IsTrue run.old.log.is_up → Fits run.old.world (open_records run.old.log.slots) }
    ensures fits { IsTrue run.new.log.is_up → Fits run.new.world (open_records run.new.log.slots) }
{
    let Some((e, Note::Prepare)) = run.world.due_at(1) else {
        return false;
    };
    match run
        .world
        .reply(&run.log, &mut run.out, e, Reply::Vote(vote))
    {
        Ok(was_due) => was_due,
        Err(error) => panic!(rt; "{error}"),
    }
}

/// A volatile that plans yes is asked, and votes no.
fn votes_no(rt: &impl Abort, run: &mut Run)
    requires fits { IsTrue run.old.log.is_up → Fits run.old.world (open_records run.old.log.slots) }
{
    let t = transaction(rt);
    let e1 = EnlNo::new(1).expect(rt, "no such enlistment");
    let volatile = Call::Volatile(t, e1, EnlistOption::Plain, Some(Vote::Yes));
    let asked = [
        (1, Call::Begin(t, Timeout::Default), Answer::Fine),
        (2, volatile, Answer::Fine),
        (3, Call::Commit(t), Answer::Fine),
        (4, Call::Do(t, 1, 2), Answer::Did(2)),
    ];
    calls(rt, run, &asked);
    assert!(rt; reply(rt, run, Vote::No));
    assert!(rt; !reply(rt, run, Vote::No));
    let aborted = Answer::OutcomeIs(Outcome::Aborted);
    calls(rt, run, &[(5, Call::Await(t), aborted)]);
}

/// The history then.
const VOTED_NO: &str =
    "1 t1 call 1 a1 ok\n2 t1 began 60000\n3 t1 call 2 a1 ok\n4 t1 enlisted e1 one\n\
    5 t1 call 3 a1 ok\n6 t1 commit\n7 t1 sealed\n8 t1 ask e1 prepare\n9 t1 call 4 a1 did 2\n\
    10 t1 vote e1 no\n11 t1 decided aborted\n12 t1 told client aborted\n\
    13 t1 call 5 a1 aborted\n";

/// The history as text.
fn text(alloc: Global, world: &TxWorld, place: Place) -> Result<Vec<u8>, AllocError> {
    let mut entries = PlacedEntries::new(alloc);
    let history = world.history();
    entries.reserve(history.len())?;
    entries.push_from(place, history, 0);
    print_trace(alloc, &Trace::new(entries), false)
}

/// Compares the history with what is told of one that voted no.
fn shows(rt: &impl Abort, alloc: Global, world: &TxWorld) -> Result<(), AllocError> {
    let found = text(alloc, world, Place::Transaction(transaction(rt)))?;
    assert!(rt; found.as_slice() == VOTED_NO.as_bytes());
    Ok(())
}

/// The volatile of the transaction votes no, though its line plans yes.
#[test]
fn a_reply_need_not_be_the_planned_one(rt: HostRuntime) -> Result<(), Fail> {
    let mut run = fresh(&rt, rt.alloc())?;
    votes_no(&rt, &mut run);
    shows(&rt, rt.alloc(), &run.world)?;
    Ok(())
}

/// Enters a call of client 1, and says what it answered.
fn enter(rt: &impl Abort, run: &mut Run, line: u32, c: &Call) -> Answer
    requires answers { MayAnswer (number_of run.old.world.transaction) run.old.world.world c.now 0 }
    requires fits { IsTrue run.old.log.is_up → Fits run.old.world (open_records run.old.log.slots) }
    ensures fits { IsTrue run.new.log.is_up → Fits run.new.world (open_records run.new.log.slots) }
{
    let actor = client(rt, &run.world, line, c);
    match run.world.enter(&run.log, &mut run.out, actor, line, c, 0) {
        Ok(answer) => answer,
        Err(error) => panic!(rt; "{error}"),
    }
}

/// Does the first pending step, and then says so by a `do` of client 1.
fn step_and_say(rt: &impl Abort, run: &mut Run, line: u32)
    requires fits { IsTrue run.old.log.is_up → Fits run.old.world (open_records run.old.log.slots) }
    ensures fits { IsTrue run.new.log.is_up → Fits run.new.world (open_records run.new.log.slots) }
{
    let c = Call::Do(transaction(rt), 1, 1);
    let Ok(true) = run.world.step(&mut run.log, &mut run.out, 1) else {
        panic!(rt; "nothing is pending");
    };
    let actor = client(rt, &run.world, line, &c);
    assert!(rt; run.world.did(actor, line, &c, 1).is_ok());
}

/// The coordinator stops; whether the transaction is stopped then.
fn stops(rt: &impl Abort, run: &mut Run, stopped: bool)
    requires fits { IsTrue run.old.log.is_up → Fits run.old.world (open_records run.old.log.slots) }
    ensures fits { IsTrue run.new.log.is_up → Fits run.new.world (open_records run.new.log.slots) }
{
    assert!(rt; run.world.coordinator_stopped(0) == Ok(()));
    assert!(rt; run.world.is_stopped() == stopped);
}

/// The coordinator comes back over a log that wasn't opened since it stopped, so nothing is found yet.
fn comes_back(rt: &impl Abort, run: &mut Run)
    requires fits { IsTrue run.old.log.is_up → Fits run.old.world (open_records run.old.log.slots) }
{
    if !run.log.is_up() {
        panic!(rt; "the log is stopped");
    }
    assert!(rt; run.world.coordinator_restarted(&run.log) == Ok(()));
    assert!(rt; run.world.is_stopped());
}

/// The coordinator stops before the transaction is there, which then gets its identifier; and after that.
fn goes_on(rt: &impl Abort, run: &mut Run)
    requires fits { IsTrue run.old.log.is_up → Fits run.old.world (open_records run.old.log.slots) }
{
    let t = transaction(rt);
    let began = enter(rt, run, 1, &Call::Begin(t, Timeout::Default));
    assert!(rt; began == Answer::Fine);
    stops(rt, run, false);
    calls(rt, run, &[(2, Call::Marshal(t), Answer::Wait)]);
    step_and_say(rt, run, 3);
    assert!(rt; run.world.settle(&mut run.log, &mut run.out) == Ok(3));
    assert!(rt; run.world.pending() == 0);
    stops(rt, run, true);
    comes_back(rt, run);
}

/// How many entries came, and two of them: the first step is said before the others are done, and the stop is the last.
fn went_on(rt: &impl Abort, world: &TxWorld) {
    let a1 = ActorNo::new(1).expect(rt, "no such client");
    let h = world.history();
    assert!(rt; h.len() == 16);
    assert!(rt; h.at(7) == Entry::Called(3, a1, Answer::Did(1)));
    assert!(rt; h.at(15) == Entry::Stopped);
}

#[test]
fn a_stop_reaches_who_is_at_the_coordinator(rt: HostRuntime) -> Result<(), Fail> {
    let mut run = fresh(&rt, rt.alloc())?;
    goes_on(&rt, &mut run);
    went_on(&rt, &run.world);
    Ok(())
}
