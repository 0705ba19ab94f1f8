//! Whether an enlistment comes back by its recovery information, by cases whose answers were worked out by hand.
use dtx_values::{
    BadInfo, Class, Conn, Dir, EnlNo, Entry, Info, Message, Outcome, Party, RmNo, Vote, write_info,
};
use entry_lists::Entries;
use reenlist_recovery::{ReenlistRefusal, check};
use std::alloc::{AllocError, Global};
use std::test::Fail;

/// Transaction 1 of node 1.
const ID: u128 = (1 << 64) + 1;

/// The history of these entries, one list after the other.
fn history_of(alloc: Global, parts: [&[Entry]; 2]) -> Result<Entries, AllocError> {
    let mut history = Entries::with_capacity(alloc, 16)?;
    for part in parts {
        for x in part {
            history.reserve(1)?;
            history.push_reserved(x);
        }
    }
    Ok(history)
}

/// The information of enlistment 1 with manager 1 in the transaction of this identifier.
fn information(id: u128) -> Info {
    Info {
        id,
        rm: RmNo::new(1).unwrap(),
        enl: EnlNo::new(1).unwrap(),
    }
}

/// Its ENLIST, which the coordinator accepted.
fn accepted(info: Info) -> [Entry; 4] {
    let c = Conn::Enl(info.enl);
    [
        Entry::Sent(c, Dir::Up, Message::EnlistEnlist(info)),
        Entry::Got(c, Dir::Up, Message::EnlistEnlist(info)),
        Entry::Sent(c, Dir::Down, Message::EnlistEnlisted),
        Entry::Got(c, Dir::Down, Message::EnlistEnlisted),
    ]
}

#[test]
fn who_was_lost_and_is_not_finished_comes_back(rt: HostRuntime) -> Result<(), Fail> {
    let info = information(ID);
    let (e, r, c) = (info.enl, info.rm, Conn::Enl(info.enl));
    let cut = Entry::Cut(c, 0, 0);
    let (up, down) = (Entry::Down(c, Dir::Up), Entry::Down(c, Dir::Down));
    let prepare = Entry::Sent(c, Dir::Down, Message::EnlistPrepare);
    let back = Entry::Sent(Conn::Again(e), Dir::Up, Message::ReenlistReenlist(info));
    let made = Entry::Enlisted(e, Class::DurableTwo);
    let (yes, no) = (Entry::Voted(e, Vote::Yes), Entry::Voted(e, Vote::No));
    let recovered = Entry::Recovered(r);
    let other = Entry::Recovered(RmNo::new(2).unwrap());
    let connected = Err(ReenlistRefusal::Connected(e));
    let finished = Err(ReenlistRefusal::Finished(e));
    let over = Err(ReenlistRefusal::RecoveryOver(r));
    let cases: [(&[Entry], Result<Info, ReenlistRefusal>); 17] = [
        (&[], connected),
        (&[cut, up], connected),
        (&[cut, up, down], Ok(info)),
        (&[cut, up, down, back], connected),
        (&[prepare, Entry::Cut(c, 0, 1), up, down], connected),
        (&[prepare, cut, up, down], Ok(info)),
        (&[Entry::Stopped], connected),
        (&[Entry::Stopped, down], Err(ReenlistRefusal::Stopped)),
        (&[Entry::Stopped, down, Entry::Restarted(true)], Ok(info)),
        (&[Entry::Acked(e), cut, up, down], finished),
        (&[Entry::Told(Party::Enl(e), Outcome::Aborted)], finished),
        (&[made, no, cut, up, down], finished),
        (&[made, Entry::Voted(e, Vote::Done), recovered], finished),
        (&[made, yes, cut, up, down], Ok(info)),
        (&[recovered], over),
        (&[cut, up, down, recovered], over),
        (&[cut, up, down, other], Ok(info)),
    ];
    for (then, want) in cases {
        let history = history_of(rt.alloc(), [&accepted(info), then])?;
        assert!(rt; check(&history, ID, &write_info(&info)) == want);
    }
    Ok(())
}

#[test]
fn the_bytes_and_the_identifier_come_first(rt: HostRuntime) -> Result<(), Fail> {
    let none = history_of(rt.alloc(), [&[], &[]])?;
    let other = write_info(&information(ID + 1));
    let wrong = ReenlistRefusal::WrongTransaction((1 << 64) + 2, (1 << 64) + 1);
    let cases: [(&[u8], ReenlistRefusal); 3] = [
        (&[0; 35], ReenlistRefusal::BadInfo(BadInfo::Length(35))),
        (&[0; 36], ReenlistRefusal::BadInfo(BadInfo::Value(0))),
        (&other, wrong),
    ];
    for (bytes, refusal) in cases {
        assert!(rt; check(&none, ID, bytes) == Err(refusal));
    }
    let info = information(ID);
    let waiting = history_of(rt.alloc(), [&accepted(info)[..3], &[Entry::Stopped]])?;
    assert!(rt; check(&waiting, ID, &write_info(&info)) == Err(ReenlistRefusal::NoSuch));
    Ok(())
}
