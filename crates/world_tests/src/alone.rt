//! Calls, steps and replies of a world without a log.
ghost use Rattle.dtx_model.specs.Caused.{MayAnswer};
ghost use Rattle.dtx_values.specs.TxIds.{number_of};

use crate::worlds::{client, transaction, world};
use dtx_values::{Answer, Call, EnlNo, EnlistOption, Note, Outbox, Reply, Status, Timeout, Vote};
use std::process::Abort;
use std::test::Fail;
use tx_world::TxWorld;

/// Does a call of client 1, and says what it answered.
fn call(rt: &impl Abort, world: &mut TxWorld, out: &mut Outbox, line: u32, c: &Call) -> Answer
    requires answers { MayAnswer (number_of world.old.transaction) world.old.world c.now 0 }
{
    let actor = client(rt, world, line, c);
    if !TxWorld::is_alone(c) {
        panic!(rt; "the call of line {line} may not be done alone");
    }
    match world.call_alone(out, actor, line, c) {
        Ok(answer) => answer,
        Err(error) => panic!(rt; "{error}"),
    }
}

/// Does the first pending step, so many times.
fn steps(rt: &impl Abort, world: &mut TxWorld, out: &mut Outbox, n: u32) {
    for _ in 0..n {
        if world.needs_log(1) {
            panic!(rt; "the step needs the log");
        }
        assert!(rt; world.step_alone(out, 1) == Ok(true));
    }
}

/// Begins the transaction with the longest timeout, enlists a volatile that is to vote yes, and asks for the commit.
fn asks_to_commit(rt: &impl Abort, world: &mut TxWorld, out: &mut Outbox, e: EnlNo) {
    let t = transaction(rt);
    let begin = Call::Begin(t, Timeout::Milliseconds(0));
    assert_eq!(rt; call(rt, world, out, 1, &begin), Answer::Fine);
    let volatile = Call::Volatile(t, e, EnlistOption::Plain, Some(Vote::Yes));
    assert_eq!(rt; call(rt, world, out, 2, &volatile), Answer::Fine);
    assert_eq!(rt; call(rt, world, out, 3, &Call::Commit(t)), Answer::Fine);
}

/// Gives the volatile's vote by hand, where that is due.
fn votes(rt: &impl Abort, world: &mut TxWorld, out: &mut Outbox, e: EnlNo) {
    let vote = Reply::Vote(Vote::Yes);
    if !world.may_reply_alone(e, vote) {
        panic!(rt; "the reply doesn't fit, or needs the log");
    }
    assert!(rt; world.due_at(1) == Some((e, Note::Prepare)));
    assert!(rt; world.reply_alone(out, e, vote) == Ok(true));
}

/// Does the steps of a commit: two before the vote, and three after it.
fn commits(rt: &impl Abort, world: &mut TxWorld, out: &mut Outbox) {
    let e1 = EnlNo::new(1).expect(rt, "no such enlistment");
    asks_to_commit(rt, world, out, e1);
    steps(rt, world, out, 2);
    votes(rt, world, out, e1);
    steps(rt, world, out, 3);
    assert!(rt; world.pending() == 0 && world.status() == Status::Committed);
}

#[test]
fn a_transaction_commits_without_a_log(rt: HostRuntime) -> Result<(), Fail> {
    let mut out = Outbox::with_room(rt.alloc())?;
    let mut world = world(&rt, rt.alloc());
    commits(&rt, &mut world, &mut out);
    Ok(())
}
