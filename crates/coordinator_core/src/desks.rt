//! What the coordinator knows of the enlistments.
ghost use Rattle.std.specs.Prelude.{◌≡◌, ◌<◌, length, map, Some, true, if◌then◌else◌};
ghost use Rattle.dtx_values.specs.Table.{insert_by};
ghost use Rattle.dtx_model.specs.Coordinated.{desk_number, kept_desks, unacked, with_ack, with_ballot};

use crate::ballots::is_prepared;
use crate::lists::put_in_order;
use arrayvec::ArrayVec;
use dtx_model::{Ballot, Desk};
use dtx_values::{DURABLES, EnlNo};

/// Puts an enlistment at its place, where it is accepted. The list has room for it then.
pub(crate) fn seat_if(desks: &mut ArrayVec<Desk, DURABLES>, accepted: bool, d: Desk)
    requires { accepted ≡ true → length desks.old.items < DURABLES }
    ensures { desks.new.items ≡ (if accepted then insert_by desk_number d desks.old.items else desks.old.items) }
{
    if accepted {
        put_in_order(desks, d);
    }
}

/// Keeps a vote, where it is that enlistment's.
fn vote_at(d: &mut Desk, e: EnlNo, b: Ballot)
    ensures { d.new ≡ with_ballot e.value (Some b) d.old }
{
    if d.enlistment == e {
        d.ballot = Some(b);
    }
}

/// Keeps the vote of an enlistment.
fn vote(desks: &mut [Desk], e: EnlNo, b: Ballot)
    ensures { desks.new ≡ map (with_ballot e.value (Some b)) desks.old }
{
    for d in desks.iter_mut() {
        vote_at(d, e, b);
    }
}

/// Keeps the vote of an enlistment, where it still counts.
pub(crate) fn vote_if(desks: &mut ArrayVec<Desk, DURABLES>, counts: bool, e: EnlNo, b: Ballot)
    ensures { desks.new.items ≡ (if counts then map (with_ballot e.value (Some b)) desks.old.items else desks.old.items) }
{
    if counts {
        vote(desks.as_mut_slice(), e, b);
    }
}

/// Marks that the acknowledgement came, where it is that enlistment's.
fn acknowledge_at(d: &mut Desk, e: EnlNo)
    ensures { d.new ≡ with_ack e.value d.old }
{
    if d.enlistment == e {
        d.acked = true;
    }
}

/// Marks that the acknowledgement of an enlistment came.
fn acknowledge_in(desks: &mut [Desk], e: EnlNo)
    ensures { desks.new ≡ map (with_ack e.value) desks.old }
{
    for d in desks.iter_mut() {
        acknowledge_at(d, e);
    }
}

/// Marks that the acknowledgement of an enlistment came.
pub(crate) fn acknowledge(desks: &mut ArrayVec<Desk, DURABLES>, e: EnlNo)
    ensures { desks.new.items ≡ map (with_ack e.value) desks.old.items }
{
    acknowledge_in(desks.as_mut_slice(), e);
}

/// Forgets that an acknowledgement came.
fn forget_at(d: &mut Desk)
    ensures { d.new ≡ unacked d.old }
{
    d.acked = false;
}

/// Forgets which acknowledgements came.
fn forget_in(desks: &mut [Desk])
    ensures { desks.new ≡ map unacked desks.old }
{
    for d in desks.iter_mut() {
        forget_at(d);
    }
}

/// Keeps what a restart leaves: the enlistments of the record, where that was found. None of them acknowledged in the new life.
pub(crate) fn keep(desks: &mut ArrayVec<Desk, DURABLES>, found: bool)
    ensures { desks.new.items ≡ kept_desks found desks.old.items }
{
    if found {
        desks.retain(|d| is_prepared(d.ballot));
        forget_in(desks.as_mut_slice());
    } else {
        desks.clear();
    }
}
