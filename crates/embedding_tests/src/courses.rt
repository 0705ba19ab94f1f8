//! What is done in a transaction, from its beginning to its end.
use crate::objects::{Manager, Objects};
use dtx_values::{CloneKind, EnlistOption, Note, Outcome, Reply, RmNo, Status, Timeout, Vote};
use transactions::{CommitError, CommittableTransaction, Event, Phases};

/// What is done in a transaction.
#[derive(Clone, Copy)]
pub enum Course {
    Fills,
    RollsBack,
    Loses,
    Waits,
    Asks,
    TimesOut,
    Undoes,
}

/// 30 volatiles and 2 durables commit, the second of which promotes the transaction, and then it is full; its identifier at the coordinator.
fn fills(
    manager: &mut Manager,
    tx: &CommittableTransaction,
    rms: [RmNo; 2],
    o: &mut Objects,
) -> Option<bool> {
    for _ in 0..30 {
        manager.enlist_volatile(tx, EnlistOption::Plain).ok()?;
    }
    for rm in rms {
        manager.enlist_durable(tx, rm, Phases::Two, o).ok()?;
    }
    let is_full = manager.enlist_volatile(tx, EnlistOption::Plain).is_err();
    let id = manager.identifier(tx, o).ok()?;
    manager.commit(tx, o).ok()?;
    Some(is_full && id == (1 << 64) + 65_537)
}

/// A volatile and a promotable roll back.
fn rolls_back(
    manager: &mut Manager,
    tx: &CommittableTransaction,
    rm: RmNo,
    o: &mut Objects,
) -> Option<bool> {
    manager.enlist_volatile(tx, EnlistOption::Plain).ok()?;
    let made = manager.enlist_promotable_single_phase(tx, rm, o).ok()?;
    manager.rollback(tx, o).ok()?;
    Some(made.is_some())
}

/// An enlistment that is lost before it voted counts as a veto. A volatile hears the abort all the same.
fn loses(manager: &mut Manager, tx: &CommittableTransaction, o: &mut Objects) -> Option<bool> {
    let e = manager.enlist_volatile(tx, EnlistOption::Plain).ok()?;
    manager.lost(e, o).ok()?;
    Some(manager.told(tx) == Some(Outcome::Aborted))
}

/// The commit waits for a clone, and then for a vote that is put off.
fn waits(
    manager: &mut Manager,
    tx: &CommittableTransaction,
    rm: RmNo,
    o: &mut Objects,
) -> Option<bool> {
    o.put_off = Some(Note::Prepare);
    let e = manager.enlist_durable(tx, rm, Phases::Two, o).ok()?;
    let clone = manager.dependent_clone(tx, CloneKind::Block).ok()?;
    let waits = manager.commit(tx, o) == Err(CommitError::Waits);
    manager.complete(clone, o).ok()?;
    let is_due = manager.reply(e, Reply::Vote(Vote::Yes), o).ok()?;
    Some(waits && is_due && manager.told(tx) == Some(Outcome::Committed))
}

/// A program without objects asks what comes next.
fn asks(manager: &mut Manager, tx: &CommittableTransaction) -> Option<bool> {
    let e = manager.enlist_volatile(tx, EnlistOption::Plain).ok()?;
    manager.begin_commit(tx).ok()?;
    let asked = manager.next(tx) == Ok(Some(Event::Asked(e, Note::Prepare)));
    let is_due = manager.answer(e, Reply::Vote(Vote::Yes)).ok()?;
    let told = manager.next(tx) == Ok(Some(Event::Told(e, Outcome::Committed)));
    let done = manager.next(tx) == Ok(Some(Event::Done(Outcome::Committed)));
    Some(asked && is_due && told && done && manager.next(tx) == Ok(None))
}

/// The time is up at 100, and not before. The clock falls back once: that reading counts as the one before.
fn times_out(manager: &mut Manager, tx: &CommittableTransaction, o: &mut Objects) -> Option<bool> {
    manager.enlist_volatile(tx, EnlistOption::Plain).ok()?;
    for _ in 0..3 {
        manager.pump(o).ok()?;
    }
    let before = manager.status(tx);
    manager.pump(o).ok()?;
    Some(before == Status::Active && manager.status(tx) == Status::Aborted)
}

/// A program without objects rolls back.
fn undoes(manager: &mut Manager, tx: &CommittableTransaction) -> Option<bool> {
    manager.begin_rollback(tx).ok()?;
    Some(manager.next(tx) == Ok(Some(Event::Done(Outcome::Aborted))))
}

fn does(
    course: Course,
    manager: &mut Manager,
    tx: &CommittableTransaction,
    rms: [RmNo; 2],
    o: &mut Objects,
) -> Option<bool> {
    match course {
        Course::Fills => fills(manager, tx, rms, o),
        Course::RollsBack => rolls_back(manager, tx, rms[0], o),
        Course::Loses => loses(manager, tx, o),
        Course::Waits => waits(manager, tx, rms[0], o),
        Course::Asks => asks(manager, tx),
        Course::TimesOut => times_out(manager, tx, o),
        Course::Undoes => undoes(manager, tx),
    }
}

/// Begins a transaction, does this in it, and ends it, of which nothing should be left to do; its number for good, and what the objects heard.
pub fn runs(manager: &mut Manager, course: Course, rms: [RmNo; 2]) -> Option<(u64, [u32; 4])> {
    let tx = manager.begin(Timeout::Milliseconds(100)).ok()?;
    let number = tx.number().number();
    let mut o = Objects {
        heard: [0; 4],
        put_off: None,
    };
    let done = does(course, manager, &tx, rms, &mut o);
    match manager.end(tx) {
        Ok(()) if done == Some(true) => Some((number, o.heard)),
        Ok(()) => None,
        Err(tx) => {
            manager.release(tx);
            None
        }
    }
}
