//! Votes.
ghost use Rattle.std.specs.Prelude.{◌≡◌, true, IfErr, OnErr, OnOk, None, Some};
ghost use Rattle.dtx_values.specs.Table.{was_asked, with_vote};
ghost use Rattle.volatile_enlist.specs.Refusals.{vote_refusal};

use crate::refusal::VoteRefusal;
use dtx_values::{EnlNo, Vote};
use enlist_table::EnlistTable;

/// Takes the vote of an enlistment that was asked to prepare.
///
/// # Errors
///
/// - [`VoteRefusal::NotAsked`] exactly where it has no row or wasn't asked.
/// - [`VoteRefusal::AlreadyVoted`] exactly where it voted.
pub fn take_vote(t: &mut EnlistTable, e: EnlNo, v: Vote) -> Result<(), VoteRefusal>
    ensures refused { IfErr result (λ r. vote_refusal e t.old ≡ Some r) }
    ensures unchanged { OnErr result (t.new ≡ t.old) }
    ensures allowed { OnOk result (vote_refusal e t.old ≡ None) }
    ensures taken { was_asked e.value t.old ≡ true → t.new ≡ with_vote e.value v t.old }
{
    if !t.was_asked(e) {
        return Err(VoteRefusal::NotAsked(e));
    }
    match t.set_vote(e, v) {
        Ok(()) => Ok(()),
        Err(_) => Err(VoteRefusal::AlreadyVoted(e)),
    }
}
