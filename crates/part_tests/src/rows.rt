//! What the tables of one transaction answer, by steps.
use dependent_clones::Clones;
use dtx_values::{Cause, Class, CloneNo, EnlNo, Vote};
use durable_enlist::{cause_of, owner_of};
use enlist_table::{AddRefusal, EnlistTable};
use phase_zero::Waves;
use promotable_enlist::try_own;
use scope_context::Context;
use std::process::Abort;
use std::test::Fail;
use volatile_enlist::{VoteRefusal, hears, next_ask, take_vote};

/// What is done with an enlistment or a clone, or asked; 0 is none.
#[derive(Clone, Copy)]
enum Step {
    Add(Class),
    /// So many are added, this one and those of the numbers after it.
    Fill(u32, Class),
    /// It isn't added, since it has a row, or since so many stand.
    Twice(Class),
    Many(u8, Class),
    Ask,
    Vote(Vote),
    NotAsked,
    AlreadyVoted,
    /// A blocking clone is made, or a rollback one.
    Clone(bool),
    Complete,
    /// Whom the next wave of phase zero asks, or of phase one.
    Next(bool),
    Hears(bool),
    /// Whether phase zero is over, with so much under way.
    IsOver(u8, bool),
    Owner,
    /// Why a durable call promotes that has single-phase support or not.
    Cause(bool, Option<Cause>),
    /// Whether a promotable may own a transaction that is promoted or not.
    MayOwn(bool, bool),
}

/// Volatile enlistments, one of which is added while a wave prepares, and then durable ones.
const WAVES: [(u32, Step); 60] = [
    (0, Step::Next(true)),
    (0, Step::IsOver(0, true)),
    (0, Step::IsOver(1, false)),
    (2, Step::Clone(false)),
    (0, Step::IsOver(0, true)),
    (1, Step::Clone(true)),
    (0, Step::IsOver(0, false)),
    (1, Step::Complete),
    (0, Step::IsOver(0, true)),
    (0, Step::Cause(true, None)),
    (0, Step::Cause(false, Some(Cause::Two))),
    (0, Step::MayOwn(false, true)),
    (0, Step::MayOwn(true, false)),
    (4, Step::Add(Class::One)),
    (0, Step::Next(true)),
    (0, Step::IsOver(0, true)),
    (0, Step::Cause(false, Some(Cause::Two))),
    (0, Step::MayOwn(true, false)),
    (2, Step::Add(Class::Zero)),
    (3, Step::Add(Class::Zero)),
    (0, Step::IsOver(0, false)),
    (2, Step::Next(true)),
    (4, Step::Next(false)),
    (2, Step::NotAsked),
    (2, Step::Ask),
    (1, Step::Add(Class::Zero)),
    (3, Step::Next(true)),
    (3, Step::Ask),
    (0, Step::Next(true)),
    (4, Step::Next(false)),
    (3, Step::Hears(true)),
    (3, Step::Vote(Vote::Done)),
    (3, Step::Hears(false)),
    (0, Step::Next(true)),
    (2, Step::Vote(Vote::Yes)),
    (2, Step::AlreadyVoted),
    (2, Step::Hears(true)),
    (1, Step::Next(true)),
    (0, Step::IsOver(0, false)),
    (1, Step::Ask),
    (1, Step::Vote(Vote::No)),
    (1, Step::Hears(false)),
    (0, Step::IsOver(0, true)),
    (0, Step::IsOver(2, false)),
    (4, Step::Hears(true)),
    (4, Step::Ask),
    (4, Step::Vote(Vote::Yes)),
    (4, Step::Hears(true)),
    (9, Step::Hears(false)),
    (0, Step::Owner),
    (0, Step::Cause(true, None)),
    (0, Step::MayOwn(false, true)),
    (5, Step::Add(Class::DurableSingle)),
    (5, Step::Owner),
    (0, Step::Cause(true, Some(Cause::Second))),
    (0, Step::Cause(false, Some(Cause::Second))),
    (0, Step::MayOwn(false, false)),
    (6, Step::Add(Class::DurableTwo)),
    (6, Step::Hears(false)),
    (0, Step::Owner),
];

/// A promotable enlistment, and another beside it.
const BESIDE: [(u32, Step); 10] = [
    (1, Step::Add(Class::Promotable)),
    (1, Step::Owner),
    (0, Step::Cause(true, Some(Cause::Beside))),
    (0, Step::Cause(false, Some(Cause::Beside))),
    (0, Step::MayOwn(false, false)),
    (1, Step::Ask),
    (1, Step::Vote(Vote::Yes)),
    (1, Step::Hears(false)),
    (2, Step::Add(Class::DurableTwo)),
    (0, Step::Owner),
];

/// A durable enlistment without single-phase support.
const TWO: [(u32, Step); 3] = [
    (1, Step::Add(Class::DurableTwo)),
    (0, Step::Cause(true, Some(Cause::Second))),
    (0, Step::MayOwn(false, false)),
];

/// As many as there may be, of which as many are durable as there may be.
const MANY: [(u32, Step); 7] = [
    (1, Step::Fill(16, Class::DurableTwo)),
    (99, Step::Many(16, Class::Promotable)),
    (17, Step::Fill(15, Class::One)),
    (32, Step::Add(Class::One)),
    (99, Step::Many(32, Class::One)),
    (99, Step::Many(32, Class::DurableTwo)),
    (1, Step::Twice(Class::Zero)),
];

/// A durable enlistment is the last.
const LAST: [(u32, Step); 3] = [
    (1, Step::Fill(31, Class::One)),
    (32, Step::Add(Class::DurableSingle)),
    (33, Step::Many(32, Class::Zero)),
];

/// Whether so many are added, of this number and those after it.
fn fills(t: &mut EnlistTable, n: u32, count: u32, class: Class) -> bool {
    for k in 0..count {
        let Some(e) = EnlNo::new(n.saturating_add(k)) else {
            return false;
        };
        if t.add(e, class) != Ok(()) {
            return false;
        }
    }
    true
}

/// Whether what is done with an enlistment is answered as the step says.
fn is_done(t: &mut EnlistTable, e: EnlNo, step: Step) -> bool {
    match step {
        Step::Add(class) => t.add(e, class) == Ok(()),
        Step::Fill(count, class) => fills(t, e.get(), count, class),
        Step::Twice(class) => t.add(e, class) == Err(AddRefusal::Twice(e)),
        Step::Many(stand, class) => t.add(e, class) == Err(AddRefusal::Many(stand)),
        Step::Ask => t.set_asked(e) == Ok(()),
        Step::Vote(v) => take_vote(t, e, v) == Ok(()),
        Step::NotAsked => take_vote(t, e, Vote::Yes) == Err(VoteRefusal::NotAsked(e)),
        Step::AlreadyVoted => take_vote(t, e, Vote::No) == Err(VoteRefusal::AlreadyVoted(e)),
        Step::Hears(is) => hears(t, e) == is,
        _ => false,
    }
}

/// Whether a step of a clone is done.
fn is_cloned(clones: &mut Clones, c: CloneNo, step: Step) -> bool {
    match step {
        Step::Clone(block) => clones.clone_of(c, block, false) == Ok(()),
        Step::Complete => clones.complete(c) == Ok(()),
        _ => false,
    }
}

/// Whether what is asked is answered as the step says.
fn is_answered(t: &EnlistTable, clones: &Clones, e: Option<EnlNo>, step: Step) -> bool {
    match step {
        Step::Next(zero) => next_ask(t, zero) == e,
        Step::IsOver(under_way, is) => Waves::new().is_over(t, clones, under_way) == is,
        Step::Owner => owner_of(t) == e,
        Step::Cause(single, cause) => cause_of(t, single) == cause,
        Step::MayOwn(promoted, is) => try_own(t, promoted) == is,
        _ => false,
    }
}

/// Whether a step is answered as it says.
fn goes(t: &mut EnlistTable, clones: &mut Clones, n: u32, step: Step) -> bool {
    let e = EnlNo::new(n);
    if is_answered(t, clones, e, step) {
        return true;
    }
    match (e, CloneNo::new(n)) {
        (Some(e), Some(c)) => is_done(t, e, step) || is_cloned(clones, c, step),
        _ => false,
    }
}

/// Does the steps.
fn all_go(rt: &impl Abort, t: &mut EnlistTable, clones: &mut Clones, steps: &[(u32, Step)]) {
    for (at, (n, step)) in steps.iter().enumerate() {
        assert!(rt; goes(t, clones, *n, *step), "at step {at}");
    }
}

#[test]
fn the_tables_answer(rt: HostRuntime) -> Result<(), Fail> {
    let mut clones = Clones::new(rt.alloc())?;
    for steps in [&WAVES[..], &BESIDE[..], &TWO[..], &MANY[..], &LAST[..]] {
        let mut t = EnlistTable::new(rt.alloc())?;
        all_go(&rt, &mut t, &mut clones, steps);
    }
    Ok(())
}

#[test]
fn a_context_is_made(rt: HostRuntime) -> Result<(), Fail> {
    let c = Context::new(rt.alloc())?;
    assert!(rt; c.scopes().is_empty());
    Ok(())
}
