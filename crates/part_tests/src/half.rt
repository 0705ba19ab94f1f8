//! The loop of the documentation of `LocalHalf`: what each call answers, and the entries of each step.
use dtx_values::{
    ActorNo, Answer, Ask, Call, EnlNo, EnlistOption, Entry, Note, Outbox, Outcome, Party, Reply,
    RmNo, Support, Timeout, TxId, TxNo, Vote,
};
use local_half::LocalHalf;
use std::process::Abort;
use std::test::Fail;

fn enl(rt: &impl Abort, n: u32) -> EnlNo {
    EnlNo::new(n).expect(rt, "no such number")
}

/// Does a call of line 1, where its conditions hold; whether it is fine.
fn is_fine(rt: &impl Abort, half: &mut LocalHalf, out: &mut Outbox, c: &Call) -> bool {
    let actor = ActorNo::new(1).expect(rt, "no such number");
    out.clear();
    LocalHalf::is_its_own(c) && half.is_free(1, c) && half.call(actor, 1, c, out) == Answer::Fine
}

/// The calls that begin it, with a durable enlistment e1 and a volatile one e2, and ask for the commit.
fn begin(rt: &impl Abort, half: &mut LocalHalf, out: &mut Outbox, t: TxNo) {
    let r1 = RmNo::new(1).expect(rt, "no such number");
    let single = Support::SinglePhase(None, None);
    let calls = [
        Call::Begin(t, Timeout::Default),
        Call::Durable(t, enl(rt, 1), r1, single),
        Call::Volatile(t, enl(rt, 2), EnlistOption::Plain, None),
        Call::Commit(t),
    ];
    for c in calls {
        assert!(rt; is_fine(rt, half, out, &c));
    }
}

/// What the enlistments reply: yes, and committed.
fn reply_to(note: Note) -> Reply {
    match note {
        Note::Prepare => Reply::Vote(Vote::Yes),
        Note::Hand => Reply::Owner(Outcome::Committed),
        _ => Reply::Ack,
    }
}

/// Does the next of the steps that follow of the calls; whether there was one.
fn step(half: &mut LocalHalf, out: &mut Outbox) -> bool {
    out.clear();
    match half.due() {
        Some((e, note)) => {
            let reply = reply_to(note);
            half.fits(e, reply) && half.reply(e, reply, out)
        }
        None => half.act(out),
    }
}

/// Does the steps until nothing is left, and compares what each writes: e2 votes, and e1 decides.
fn drive(rt: &impl Abort, half: &mut LocalHalf, out: &mut Outbox) {
    let (e1, e2) = (enl(rt, 1), enl(rt, 2));
    let committed = Outcome::Committed;
    let steps: [&[Entry]; 7] = [
        &[Entry::Sealed],
        &[Entry::Asked(e2, Ask::Prepare)],
        &[Entry::Voted(e2, Vote::Yes)],
        &[Entry::Handed(e1)],
        &[
            Entry::OwnerAnswered(e1, committed),
            Entry::Decided(committed),
        ],
        &[Entry::Told(Party::Enl(e2), committed)],
        &[Entry::Told(Party::Client, committed)],
    ];
    for (at, want) in steps.iter().enumerate() {
        assert!(rt; step(half, out) && out.entries() == *want, "at {at}");
    }
    assert!(rt; !step(half, out));
}

#[test]
fn a_half_is_driven_until_nothing_is_left(rt: HostRuntime) -> Result<(), Fail> {
    let t = TxNo::new(1).expect(&rt, "no such number");
    let mut out = Outbox::with_room(rt.alloc())?;
    let mut half = LocalHalf::new(rt.alloc(), TxId::first(t))?;
    begin(&rt, &mut half, &mut out, t);
    drive(&rt, &mut half, &mut out);
    Ok(())
}
