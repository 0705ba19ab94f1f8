//! Openings, losses and ends, by cases whose answers were worked out by hand.
use dtx_values::{Conn, Dir, EnlNo, Info, Message, ROOM, RmNo};
use oletx_session::{Delivered, Session, SessionRefusal, is_valid};
use std::alloc::Global;
use std::process::Abort;
use std::test::Fail;

const B: Conn = Conn::Begin;

const V: Conn = Conn::Voter;

/// Transaction 1 of node 1.
const ID: u128 = (1 << 64) + 1;

const BEGIN: Option<Delivered> = Some(Delivered::Msg(Message::BeginBegin));

const COMMIT: Option<Delivered> = Some(Delivered::Msg(Message::BeginCommit));

const BEGUN: Option<Delivered> = Some(Delivered::Msg(Message::BeginBegun(ID)));

const VOTER: Option<Delivered> = Some(Delivered::Msg(Message::VoterVoter(ID)));

const END: Option<Delivered> = Some(Delivered::End);

/// A call and its answer.
#[derive(Clone, Copy)]
enum Step {
    Start(Conn, Result<(), SessionRefusal>),
    StartLost(Conn, Result<(), SessionRefusal>),
    Send(Conn, Dir, Message, Result<(), SessionRefusal>),
    Lose(Conn, u32, u32, Option<(u32, u32)>),
    Stop,
    IsOpen(Conn, bool),
    Deliver(Conn, Dir, Option<Delivered>),
}

/// Does a call, and looks at its answer.
fn takes(rt: &impl Abort, s: &mut Session, step: Step) {
    match step {
        Step::Start(c, answer) => assert_eq!(rt; s.start(c), answer),
        Step::StartLost(c, answer) => assert_eq!(rt; s.start_lost(c), answer),
        Step::Send(c, d, m, answer) => {
            assert!(rt; is_valid(&m));
            assert_eq!(rt; s.send(c, d, &m), answer);
        }
        Step::Lose(c, up, down, answer) => assert_eq!(rt; s.lose(c, up, down), answer),
        Step::Stop => s.stop(),
        Step::IsOpen(c, answer) => assert_eq!(rt; s.is_open(c), answer),
        Step::Deliver(c, d, answer) => {
            assert_eq!(rt; s.has_left(c, d), answer.is_some());
            assert_eq!(rt; s.deliver(c, d), answer);
        }
    }
}

/// A connection is started once.
const STARTED: [Step; 8] = [
    Step::Start(B, Ok(())),
    Step::IsOpen(B, true),
    Step::IsOpen(V, false),
    Step::Start(B, Err(SessionRefusal::Taken(B))),
    Step::Send(
        V,
        Dir::Up,
        Message::VoterVoter(ID),
        Err(SessionRefusal::NotOpen(V)),
    ),
    Step::Deliver(B, Dir::Up, None),
    Step::Deliver(V, Dir::Down, None),
    Step::Lose(V, 0, 0, None),
];

/// A loss keeps the first messages.
const CUT: [Step; 10] = [
    Step::Start(B, Ok(())),
    Step::Send(B, Dir::Up, Message::BeginBegin, Ok(())),
    Step::Send(B, Dir::Up, Message::BeginCommit, Ok(())),
    Step::Send(B, Dir::Up, Message::BeginAbort, Ok(())),
    Step::Lose(B, 2, 0, Some((2, 0))),
    Step::Lose(B, 2, 0, None),
    Step::Deliver(B, Dir::Up, BEGIN),
    Step::Deliver(B, Dir::Up, COMMIT),
    Step::Deliver(B, Dir::Up, END),
    Step::Deliver(B, Dir::Up, None),
];

/// A message that is sent after a loss is dropped, and refused once its sender saw the end.
const DROPPED: [Step; 10] = [
    Step::Start(B, Ok(())),
    Step::Send(B, Dir::Up, Message::BeginBegin, Ok(())),
    Step::Lose(B, 9, 9, Some((1, 0))),
    Step::Send(B, Dir::Up, Message::BeginCommit, Ok(())),
    Step::Deliver(B, Dir::Down, END),
    Step::Deliver(B, Dir::Down, None),
    Step::Send(
        B,
        Dir::Up,
        Message::BeginAbort,
        Err(SessionRefusal::NotOpen(B)),
    ),
    Step::Deliver(B, Dir::Up, BEGIN),
    Step::Deliver(B, Dir::Up, END),
    Step::Deliver(B, Dir::Up, None),
];

/// A connection is taken until both of its ends are seen.
const TAKEN: [Step; 13] = [
    Step::Start(B, Ok(())),
    Step::Lose(B, 0, 0, Some((0, 0))),
    Step::IsOpen(B, false),
    Step::Start(B, Err(SessionRefusal::Taken(B))),
    Step::Deliver(B, Dir::Up, END),
    Step::Deliver(B, Dir::Up, None),
    Step::Start(B, Err(SessionRefusal::Taken(B))),
    Step::Deliver(B, Dir::Down, END),
    Step::Deliver(B, Dir::Down, None),
    Step::Start(B, Ok(())),
    Step::IsOpen(B, true),
    Step::Deliver(B, Dir::Up, None),
    Step::Deliver(B, Dir::Down, None),
];

/// Connections and directions keep apart.
const APART: [Step; 18] = [
    Step::Start(B, Ok(())),
    Step::Start(V, Ok(())),
    Step::Send(B, Dir::Up, Message::BeginBegin, Ok(())),
    Step::Send(V, Dir::Up, Message::VoterVoter(ID), Ok(())),
    Step::Send(B, Dir::Down, Message::BeginBegun(ID), Ok(())),
    Step::Send(V, Dir::Down, Message::VoterCreated, Ok(())),
    Step::Send(B, Dir::Up, Message::BeginCommit, Ok(())),
    Step::Lose(V, 1, 0, Some((1, 0))),
    Step::Deliver(B, Dir::Up, BEGIN),
    Step::Deliver(B, Dir::Up, COMMIT),
    Step::Deliver(B, Dir::Up, None),
    Step::Deliver(B, Dir::Down, BEGUN),
    Step::Deliver(B, Dir::Down, None),
    Step::Deliver(V, Dir::Up, VOTER),
    Step::Deliver(V, Dir::Up, END),
    Step::Deliver(V, Dir::Up, None),
    Step::Deliver(V, Dir::Down, END),
    Step::Deliver(V, Dir::Down, None),
];

/// A stop keeps what goes down, and the coordinator sees no end. What is started then is lost at once.
const STOPPED: [Step; 18] = [
    Step::Start(B, Ok(())),
    Step::Send(B, Dir::Up, Message::BeginBegin, Ok(())),
    Step::Send(B, Dir::Down, Message::BeginBegun(ID), Ok(())),
    Step::Stop,
    Step::IsOpen(B, false),
    Step::Deliver(B, Dir::Up, None),
    Step::StartLost(B, Err(SessionRefusal::Taken(B))),
    Step::Deliver(B, Dir::Down, BEGUN),
    Step::Deliver(B, Dir::Down, END),
    Step::Deliver(B, Dir::Down, None),
    Step::StartLost(V, Ok(())),
    Step::IsOpen(V, false),
    Step::Send(V, Dir::Up, Message::VoterVoter(ID), Ok(())),
    Step::Deliver(V, Dir::Up, None),
    Step::Deliver(V, Dir::Down, END),
    Step::Deliver(V, Dir::Down, None),
    Step::StartLost(V, Ok(())),
    Step::Start(V, Err(SessionRefusal::Taken(V))),
];

/// How many bytes cross at once: each byte alone, pieces that don't fit a frame, the longest frame whole, and more than that.
const SIZES: [u8; 5] = [1, 3, 7, 40, 255];

/// A session with pieces of this size.
fn session(rt: &impl Abort, alloc: Global, size: u8) -> Result<Session, Fail> {
    assert_ne!(rt; size, 0);
    Ok(Session::with_piece(alloc, size)?)
}

#[test]
fn calls_are_answered_as_by_hand(rt: HostRuntime) -> Result<(), Fail> {
    let runs: [&[Step]; 6] = [&STARTED, &CUT, &DROPPED, &TAKEN, &APART, &STOPPED];
    for size in SIZES {
        for run in runs {
            let mut s = session(&rt, rt.alloc(), size)?;
            for step in run {
                takes(&rt, &mut s, *step);
            }
        }
    }
    Ok(())
}

/// Recovery information, whose message has the longest frame.
fn information(rt: &impl Abort, n: u32) -> Info {
    Info {
        id: ID,
        rm: RmNo::new(1).expect(rt, "no such number"),
        enl: EnlNo::new(n).expect(rt, "no such number"),
    }
}

#[test]
fn there_is_room_for_so_many_starts_and_messages(rt: HostRuntime) -> Result<(), Fail> {
    for size in SIZES {
        let mut s = session(&rt, rt.alloc(), size)?;
        takes(&rt, &mut s, Step::Start(B, Ok(())));
        takes(
            &rt,
            &mut s,
            Step::Send(B, Dir::Up, Message::BeginBegin, Ok(())),
        );
        s.reserve()?;
        for n in 1..=ROOM as u32 {
            let m = Message::EnlistEnlist(information(&rt, n));
            let e = Conn::Enl(EnlNo::new(n).expect(&rt, "no such number"));
            takes(&rt, &mut s, Step::Start(e, Ok(())));
            takes(&rt, &mut s, Step::Send(e, Dir::Up, m, Ok(())));
        }
        for n in 1..=ROOM as u32 {
            let m = Message::EnlistEnlist(information(&rt, n));
            let e = Conn::Enl(EnlNo::new(n).expect(&rt, "no such number"));
            takes(
                &rt,
                &mut s,
                Step::Deliver(e, Dir::Up, Some(Delivered::Msg(m))),
            );
            takes(&rt, &mut s, Step::Deliver(e, Dir::Up, None));
        }
    }
    Ok(())
}
