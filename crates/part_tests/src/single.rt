//! COMMIT for a single phase, fed by hand to a coordinator: with none or two enlistments it is an abort that keeps b, and one alone decides.
use coordinator_core::Core;
use dtx_model::Stage;
use dtx_values::{Conn, Dir, EnlNo, Info, Message, Outbox, RmNo, TxId, TxNo};
use std::process::Abort;
use std::test::Fail;

/// The identifier of transaction 1.
const ID: u128 = 0x1_0000_0000_0000_0001;

/// What b and v are told.
const BEGUN: [(Conn, Dir, Message); 1] = [(Conn::Begin, Dir::Down, Message::BeginBegun(ID))];

const CREATED: [(Conn, Dir, Message); 1] = [(Conn::Voter, Dir::Down, Message::VoterCreated)];

const ASK: [(Conn, Dir, Message); 1] = [(Conn::Voter, Dir::Down, Message::VoterAsk)];

const ABORTED: [(Conn, Dir, Message); 1] = [(Conn::Begin, Dir::Down, Message::BeginAborted)];

const COMMITTED: [(Conn, Dir, Message); 2] = [
    (Conn::Begin, Dir::Down, Message::BeginCommitted),
    (Conn::Voter, Dir::Down, Message::VoterCommit),
];

fn enl(rt: &impl Abort, n: u32) -> EnlNo {
    EnlNo::new(n).expect(rt, "no such number")
}

/// ENLIST of this enlistment.
fn enlist(rt: &impl Abort, enl: EnlNo) -> Message {
    let rm = RmNo::new(1).expect(rt, "no such number");
    Message::EnlistEnlist(Info { id: ID, rm, enl })
}

/// The coordinator of transaction 1, of which nothing came.
fn anew(rt: &impl Abort) -> Core {
    Core::new(TxId::first(TxNo::new(1).expect(rt, "no such number")))
}

#[test]
fn one_alone_decides(rt: HostRuntime) -> Result<(), Fail> {
    let (e1, e2) = (enl(&rt, 1), enl(&rt, 2));
    let (b, v, c1, c2) = (Conn::Begin, Conn::Voter, Conn::Enl(e1), Conn::Enl(e2));
    let (i1, i2) = (enlist(&rt, e1), enlist(&rt, e2));
    let first = [(c1, Dir::Down, Message::EnlistEnlisted)];
    let second = [(c2, Dir::Down, Message::EnlistEnlisted)];
    let single = [(c2, Dir::Down, Message::EnlistSingle)];
    let all_aborted = [
        (b, Dir::Down, Message::BeginAborted),
        (v, Dir::Down, Message::VoterAbort),
        (c1, Dir::Down, Message::EnlistAbort),
        (c2, Dir::Down, Message::EnlistAbort),
    ];
    // A message that comes, how far the transaction is then, and what is told. BEGIN comes to a new coordinator.
    let turns: [(Conn, Message, Stage, &[(Conn, Dir, Message)]); 14] = [
        (b, Message::BeginBegin, Stage::Active, &BEGUN),
        (b, Message::BeginCommitOne, Stage::Aborted, &ABORTED),
        (b, Message::BeginBegin, Stage::Active, &BEGUN),
        (v, Message::VoterVoter(ID), Stage::Active, &CREATED),
        (c1, i1, Stage::Active, &first),
        (c2, i2, Stage::Active, &second),
        (b, Message::BeginCommitOne, Stage::Aborted, &all_aborted),
        (b, Message::BeginBegin, Stage::Active, &BEGUN),
        (v, Message::VoterVoter(ID), Stage::Active, &CREATED),
        (c2, i2, Stage::Active, &second),
        (b, Message::BeginCommitOne, Stage::Sole, &ASK),
        (v, Message::VoterYes, Stage::Given, &single),
        (c2, Message::EnlistOneCommitted, Stage::Answered, &COMMITTED),
        (c2, Message::EnlistOneInDoubt, Stage::Answered, &[]),
    ];
    let mut out = Outbox::with_room(rt.alloc())?;
    let mut core = anew(&rt);
    for (c, m, stage, told) in turns {
        if m == Message::BeginBegin {
            core = anew(&rt);
        }
        out.clear();
        assert!(rt; core.has_room(c, m) && core.got(c, m, &mut out));
        assert!(rt; core.stage() == stage && out.sends() == told);
    }
    Ok(())
}
