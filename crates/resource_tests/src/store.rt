//! Stores through their calls, notes and crashes.
use crate::steps::{ACK, COMMITTED, DONE, NO, PROMOTED, Refused, Step, YES, run};
use dtx_values::Note;
use outside::Image;
use std::test::Fail;

// Nobody in doubt, and this one.
const NONE: Step = Step::Doubt([None, None]);

const ONE: Step = Step::Doubt([Some((1, 1)), None]);

const PUT: Step = Step::Put(1, 1, 7, 70, None);

const PREPARED: Step = Step::On(1, 1, Note::Prepare, YES);

const LOSE: Step = Step::Reopen(Image::Lose);

const KEEP: Step = Step::Reopen(Image::Keep);

#[test]
fn commits_what_was_prepared_before_a_crash(rt: HostRuntime) -> Result<(), Fail> {
    run(
        &rt,
        rt.alloc(),
        &[],
        &[
            PUT,
            Step::Put(2, 2, 7, 1, Some(Refused::Busy(1, 1))),
            PREPARED,
            ONE,
            Step::Put(1, 1, 8, 80, Some(Refused::Prepared(1, 1))),
            LOSE,
            ONE,
            Step::Has(7, None),
            Step::Put(2, 2, 7, 1, Some(Refused::Busy(1, 1))),
            Step::On(1, 1, Note::Commit, ACK),
            NONE,
            Step::Has(7, Some(70)),
            Step::On(1, 1, Note::Commit, ACK),
            Step::Put(2, 2, 7, 1, None),
            Step::On(2, 2, Note::Hand, COMMITTED),
            Step::On(2, 2, Note::Hand, COMMITTED),
            Step::Has(7, Some(1)),
            Step::Put(1, 1, 9, 9, Some(Refused::Prepared(1, 1))),
        ],
    )
}

#[test]
fn answers_where_nothing_was_written(rt: HostRuntime) -> Result<(), Fail> {
    run(
        &rt,
        rt.alloc(),
        &[],
        &[
            Step::On(1, 1, Note::Prepare, DONE),
            Step::On(1, 1, Note::Hand, COMMITTED),
            Step::On(1, 1, Note::Commit, ACK),
            Step::On(1, 1, Note::Rollback, None),
            Step::On(1, 1, Note::Promote, PROMOTED),
            Step::On(1, 1, Note::Single, COMMITTED),
            Step::On(1, 1, Note::Init, None),
            Step::On(1, 1, Note::InDoubt, None),
            NONE,
        ],
    )
}

#[test]
fn uses_a_rolled_back_slot_again(rt: HostRuntime) -> Result<(), Fail> {
    run(
        &rt,
        rt.alloc(),
        &[],
        &[
            PUT,
            PREPARED,
            Step::On(1, 1, Note::Rollback, None),
            NONE,
            Step::Put(2, 2, 7, 71, None),
            Step::On(2, 2, Note::Prepare, YES),
            Step::Doubt([Some((2, 2)), None]),
            Step::On(2, 2, Note::Commit, ACK),
            Step::Has(7, Some(71)),
            Step::Put(1, 1, 7, 72, None),
            Step::On(1, 1, Note::Hand, COMMITTED),
            Step::On(1, 1, Note::Rollback, None),
            Step::Has(7, Some(72)),
        ],
    )
}

#[test]
fn goes_on_above_the_highest_slot(rt: HostRuntime) -> Result<(), Fail> {
    run(
        &rt,
        rt.alloc(),
        &[],
        &[
            Step::Put(1, 1, 1, 1, None),
            Step::Put(1, 2, 2, 2, None),
            Step::Put(1, 3, 3, 3, None),
            PREPARED,
            Step::On(1, 2, Note::Prepare, YES),
            Step::On(1, 1, Note::Rollback, None),
            Step::On(1, 3, Note::Prepare, YES),
            Step::Doubt([Some((1, 2)), Some((1, 3))]),
            Step::On(1, 3, Note::Rollback, None),
            Step::Put(1, 1, 1, 5, None),
            PREPARED,
            Step::Doubt([Some((1, 2)), Some((1, 1))]),
            LOSE,
            Step::Doubt([Some((1, 2)), Some((1, 1))]),
            Step::On(1, 2, Note::Rollback, None),
            Step::On(1, 1, Note::Commit, ACK),
            Step::Has(1, Some(5)),
        ],
    )
}

#[test]
fn keeps_the_later_of_two_commits(rt: HostRuntime) -> Result<(), Fail> {
    run(
        &rt,
        rt.alloc(),
        &[],
        &[
            PUT,
            Step::On(1, 1, Note::Hand, COMMITTED),
            Step::Put(2, 2, 7, 71, None),
            Step::On(2, 2, Note::Prepare, YES),
            Step::Put(3, 3, 8, 80, None),
            Step::On(3, 3, Note::Hand, COMMITTED),
            Step::Has(7, Some(70)),
            Step::On(2, 2, Note::Commit, ACK),
            Step::Has(7, Some(71)),
            LOSE,
            Step::Has(8, Some(80)),
            Step::Put(4, 4, 7, 72, None),
            Step::On(4, 4, Note::Rollback, None),
            Step::Put(5, 5, 7, 73, None),
            Step::On(5, 5, Note::Hand, COMMITTED),
            LOSE,
            Step::Has(7, Some(73)),
            Step::Has(8, Some(80)),
            Step::Has(9, None),
        ],
    )
}

// A store's calls come after the four of `format`; a prepare makes four, a commit two, and an opening 1,026.
const OPENED: u64 = 1026;

#[test]
fn finds_what_a_failed_sync_left(rt: HostRuntime) -> Result<(), Fail> {
    run(
        &rt,
        rt.alloc(),
        &[4 + 4, 8 + 2 * OPENED + 2, 10 + 4 * OPENED + 4 + 2],
        &[
            PUT,
            Step::On(1, 1, Note::Prepare, NO),
            KEEP,
            ONE,
            LOSE,
            ONE,
            Step::On(1, 1, Note::Commit, None),
            ONE,
            KEEP,
            Step::Has(7, Some(70)),
            LOSE,
            Step::Has(7, Some(70)),
            Step::Put(1, 2, 8, 80, None),
            Step::On(1, 2, Note::Prepare, YES),
            Step::On(1, 2, Note::Rollback, None),
            Step::Doubt([Some((1, 2)), None]),
            Step::Reopen(Image::Torn),
            NONE,
            LOSE,
            NONE,
            Step::Has(7, Some(70)),
        ],
    )
}

#[test]
fn refuses_the_41st_key(rt: HostRuntime) -> Result<(), Fail> {
    let mut steps = Vec::new(rt.alloc());
    for key in 1..41u32 {
        steps.push(Step::Put(1, 1, key, u64::from(key), None))?;
    }
    let rest = [
        Step::Put(1, 1, 41, 1, Some(Refused::TooMany)),
        Step::Put(1, 1, 40, 7, None),
        Step::Put(2, 2, 40, 1, Some(Refused::Busy(1, 1))),
        Step::Put(2, 2, 41, 1, None),
        Step::Put(1, 1, 41, 1, Some(Refused::Busy(2, 2))),
        Step::On(1, 1, Note::Hand, COMMITTED),
        Step::Has(39, Some(39)),
        Step::Has(40, Some(7)),
        Step::Put(2, 2, 40, 1, None),
        Step::On(2, 2, Note::Prepare, YES),
        Step::Put(1, 2, 40, 1, Some(Refused::Busy(2, 2))),
        Step::Put(2, 2, 50, 1, Some(Refused::Prepared(2, 2))),
        LOSE,
        Step::Put(1, 2, 40, 1, Some(Refused::Busy(2, 2))),
        Step::On(2, 2, Note::Commit, ACK),
        Step::Has(40, Some(1)),
        Step::Has(41, Some(1)),
        Step::Put(2, 2, 50, 1, Some(Refused::Prepared(2, 2))),
        Step::Put(1, 2, 40, 2, None),
        Step::On(1, 2, Note::Hand, COMMITTED),
        Step::Has(40, Some(2)),
    ];
    steps.extend_from_slice(&rest)?;
    run(&rt, rt.alloc(), &[], &steps)
}
