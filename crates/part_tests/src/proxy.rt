//! A run of messages, with the news of each and the connection on which a veto would say abort after it.
use dtx_values::{Conn, Message, Outcome};
use std::process::Abort;
use tm_proxy::{Proxy, ProxyNews};

/// What happens at the local side.
#[derive(Clone, Copy)]
enum Step {
    Sent(Conn, Message),
    Got(Conn, Message, ProxyNews),
    Down(Conn, ProxyNews),
}

/// An abort while the transaction is being promoted; then b is opened anew, and the coordinator is lost after the local side said yes.
const RUN: [(Step, Option<Conn>); 14] = [
    (Step::Sent(Conn::Begin, Message::BeginBegin), None),
    (
        Step::Got(Conn::Begin, Message::BeginBegun(7), ProxyNews::Begun(7)),
        Some(Conn::Begin),
    ),
    (Step::Sent(Conn::Begin, Message::BeginAbort), None),
    (
        Step::Got(
            Conn::Begin,
            Message::BeginAborted,
            ProxyNews::OutcomeIs(Outcome::Aborted),
        ),
        None,
    ),
    (Step::Sent(Conn::Begin, Message::BeginBegin), None),
    (
        Step::Got(Conn::Begin, Message::BeginBegun(8), ProxyNews::Begun(8)),
        Some(Conn::Begin),
    ),
    (
        Step::Sent(Conn::Voter, Message::VoterVoter(8)),
        Some(Conn::Begin),
    ),
    (
        Step::Got(Conn::Voter, Message::VoterCreated, ProxyNews::Created),
        Some(Conn::Begin),
    ),
    (
        Step::Sent(Conn::Begin, Message::BeginCommit),
        Some(Conn::Voter),
    ),
    (
        Step::Got(Conn::Voter, Message::VoterAsk, ProxyNews::AskVote),
        Some(Conn::Voter),
    ),
    (Step::Sent(Conn::Voter, Message::VoterYes), None),
    (Step::Down(Conn::Begin, ProxyNews::Lost(Conn::Begin)), None),
    (Step::Down(Conn::Voter, ProxyNews::AllLost), None),
    (Step::Down(Conn::Voter, ProxyNews::Lost(Conn::Voter)), None),
];

/// Sends the message, where there is room.
fn send(rt: &impl Abort, p: &mut Proxy, c: Conn, m: &Message) {
    if p.has_room(c, m) {
        p.sent(c, m);
    } else {
        panic!(rt; "no room");
    }
}

/// Does the steps.
fn goes_on(rt: &impl Abort, p: &mut Proxy) {
    for (at, (step, abort_on)) in RUN.iter().enumerate() {
        match *step {
            Step::Sent(c, m) => send(rt, p, c, &m),
            Step::Got(c, m, news) => assert!(rt; p.got(c, m) == news, "at {at}"),
            Step::Down(c, news) => assert!(rt; p.down(c) == news, "at {at}"),
        }
        assert!(rt; p.may_send_abort() == *abort_on, "after {at}");
    }
}

#[test]
fn a_run(rt: HostRuntime) {
    let mut p = Proxy::new();
    goes_on(&rt, &mut p);
}
