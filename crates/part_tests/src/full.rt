//! A coordinator whose log is full.
use coordinator_core::{Core, CoreAct};
use dtx_model::Stage;
use dtx_values::{Conn, Dir, LogRecord, Message, Outbox, TxId, TxNo};
use std::process::Abort;
use std::test::Fail;

/// The identifier of transaction 1.
const ID: u128 = 0x1_0000_0000_0000_0001;

/// What comes until all votes are there: the transaction is begun, its local side is a voter, the client asks for the commit, and the local side votes yes.
const COME: [(Conn, Message); 4] = [
    (Conn::Begin, Message::BeginBegin),
    (Conn::Voter, Message::VoterVoter(ID)),
    (Conn::Begin, Message::BeginCommit),
    (Conn::Voter, Message::VoterYes),
];

/// Lets each message come in turn.
fn come(rt: &impl Abort, core: &mut Core, out: &mut Outbox) {
    for (c, m) in COME {
        out.clear();
        assert!(rt; core.act().is_none());
        assert!(rt; core.has_room(c, m) && core.got(c, m, out));
    }
}

/// All votes are there, and no record can be written.
fn finds_it_full(rt: &impl Abort, core: &mut Core, out: &mut Outbox) {
    let told = [
        (Conn::Begin, Dir::Down, Message::BeginAborted),
        (Conn::Voter, Dir::Down, Message::VoterAbort),
    ];
    assert!(rt; core.act() == Some(CoreAct::WriteRecord(LogRecord::new(ID))));
    out.clear();
    assert!(rt; core.may_log());
    core.log_full(out);
    assert!(rt; out.sends() == told.as_slice());
    assert!(rt; core.stage() == Stage::Aborted);
}

#[test]
fn a_full_log_aborts(rt: HostRuntime) -> Result<(), Fail> {
    let t = TxNo::new(1).expect(&rt, "no such number");
    let mut out = Outbox::with_room(rt.alloc())?;
    let mut core = Core::new(TxId::first(t));
    come(&rt, &mut core, &mut out);
    finds_it_full(&rt, &mut core, &mut out);
    Ok(())
}
