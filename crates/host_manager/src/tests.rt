// A distributed commit, with what its disk is asked for; and the calls that no commit has.
use crate::{HostError, HostManager};
use dtx_values::{
    Answer, CloneKind, EnlNo, EnlistOption, Note, Outcome, Reply, RmNo, Timeout, Vote,
};
use host_disk::Request;
use std::test::Fail;
use transactions::{Event, Next, Phases, TxError};

/// Does all that is asked of the disk; how many syncs that were.
fn does_disk(manager: &mut HostManager) -> u32 {
    let mut syncs: u32 = 0;
    for _ in 0..100 {
        if !manager.next_request() {
            break;
        }
        if let Some(Request::Sync) = manager.request() {
            syncs = syncs.saturating_add(1);
        }
    }
    syncs
}

/// A manager that is ready to begin: it made its log, and began an epoch. A commit of an earlier life isn't known.
fn starts(manager: &mut HostManager, e: EnlNo, rm: RmNo) -> bool {
    let waits = manager.outcome(65_537, e) == Err(HostError::Disk);
    let first = manager.start() == Err(HostError::Disk) && does_disk(manager) == 2;
    let outcome = manager.outcome(65_537, e) == Ok(Outcome::Aborted);
    let recovered = manager.recovered(rm) == Ok(()) && does_disk(manager) == 0;
    let began = manager.start() == Ok(()) && does_disk(manager) == 2;
    waits && first && outcome && recovered && began
}

/// What the client is told, and how many syncs came before that: each enlistment says yes, and acknowledges.
fn goes_on(manager: &mut HostManager, number: u64) -> Option<(Outcome, u32)> {
    let mut syncs: u32 = 0;
    let mut told = None;
    for _ in 0..30 {
        match manager.next(number).ok()? {
            Next::Found(Event::Asked(e, Note::Prepare)) => {
                let yes = Reply::Vote(Vote::Yes);
                manager.reply(number, e.number(), yes).ok()?;
            }
            Next::Found(Event::Told(e, Outcome::Committed)) => {
                let _ = manager.reply(number, e.number(), Reply::Ack);
            }
            Next::Found(Event::Done(o)) => told = Some((o, syncs)),
            Next::Found(_) => return None,
            Next::Disk => syncs = syncs.saturating_add(does_disk(manager)),
            Next::Nothing => return told,
        }
    }
    None
}

/// A volatile and two durables commit; a clone is complete before.
fn commits(manager: &mut HostManager, rms: [RmNo; 2]) -> Option<bool> {
    let number = manager.begin(Timeout::Default).ok()?;
    manager.enlist_volatile(number, EnlistOption::Plain).ok()?;
    for rm in rms {
        manager.enlist_durable(number, rm, Phases::Two).ok()?;
    }
    let clone = manager.dependent_clone(number, CloneKind::Block).ok()?;
    manager.commit(number).ok()?;
    manager.complete(number, clone).ok()?;
    let told = goes_on(manager, number) == Some((Outcome::Committed, 2));
    let asked = manager.told(number) == Ok(Some(Outcome::Committed));
    let over = manager.end(number) == Ok(());
    let gone = manager.commit(number) == Err(TxError::Refused(Answer::NoSuch));
    Some(number == 65_537 && told && asked && over && gone)
}

/// A transaction with a resource that owns it, which is lost; it is identified, its time goes on, and it is rolled back.
fn rolls_back(manager: &mut HostManager, rm: RmNo) -> Option<bool> {
    let number = manager.begin(Timeout::Milliseconds(2)).ok()?;
    let live = manager.end(number) == Err(HostError::Live);
    let e = manager.enlist_promotable(number, rm).ok()??;
    let unasked = manager.reply(number, e, Reply::Ack) == Err(HostError::Unasked);
    let none = manager.enlist_promotable(number, rm) == Ok(None);
    let waits = manager.identifier(number) == Ok(None);
    manager.tick(number, 1).ok()?;
    manager.lost(number, e).ok()?;
    let again = manager.rollback(number).is_err();
    Some(number == 65_538 && live && unasked && none && waits && again)
}

#[test]
fn a_host_polls(rt: HostRuntime) -> Result<(), Fail> {
    let alloc = rt.alloc();
    let mut done = false;
    if let Some(one) = RmNo::new(1)
        && let Some(two) = RmNo::new(2)
        && let Some(e) = EnlNo::new(1)
        && let Ok(mut manager) = HostManager::open(alloc, Vec::new(alloc))
    {
        assert!(rt; starts(&mut manager, e, one));
        assert!(rt; commits(&mut manager, [one, two]) == Some(true));
        assert!(rt; rolls_back(&mut manager, one) == Some(true));
        done = true;
    }
    assert!(rt; done);
    Ok(())
}
