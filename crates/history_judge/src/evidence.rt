//! Evidence: whether a history may be told committed. (Presumed abort: a commit is told on evidence alone.)
//!
//! What the entries give, as the clones or the durables, is asked entry by entry: no list is made of it.
ghost use Rattle.std.specs.Prelude.{◌≡◌, ◌==◌, ◌&&◌, [], ◌∷◌, slice_get};
ghost use Rattle.dtx_values.specs.declared.words.Outcome.TheVariants.{Committed};
ghost use Rattle.dtx_model.specs.Words.{has, each, past_of, all_of, or_else};
ghost use Rattle.dtx_model.specs.Entries.{clone_of, is_good_vote, is_hand, is_owner};
ghost use Rattle.dtx_model.specs.Outcome.{is_complete, volatiles, durables, all_vote, voters, ready, can_own, by_seal, may_decide, by_owner, by_log, evidence};

use crate::entries::is_volatile;
use crate::scans::{
    has_any_single_sent, has_commit, has_completed, has_good_vote, has_hand, has_owner,
    has_promotion, has_record, has_seal, has_single_sent,
};
use dtx_values::{Class, EnlNo, Entry, Outcome};

/// Whether the clone that the entry gives, where it gives one, is complete in h.
#[tactic(auto, using(dtx_model::proofs::Reading::reading))]
fn is_clone_complete(h: &[Entry], x: &Entry) -> bool
    ensures { result ≡ each (λ c. is_complete (past_of h.now) c) (all_of clone_of (x.now ∷ [])) }
{
    match *x {
        Entry::Cloned(c, _) => has_completed(h, c),
        _ => true,
    }
}

/// Whether each clone is complete.
fn are_clones_complete(h: &[Entry]) -> bool
    ensures { result ≡ each (λ x. each (λ c. is_complete (past_of h.now) c) (all_of clone_of (x ∷ []))) h.now }
{
    h.iter().all(|x| is_clone_complete(h, x))
}

/// Whether the volatile that the entry enlists, where it enlists one, voted yes or done in h.
#[tactic(auto, using(dtx_model::proofs::Reading::reading))]
fn is_volatile_for(h: &[Entry], x: &Entry) -> bool
    ensures { result ≡ each (λ y. has (is_good_vote y.0.value) (past_of h.now)) (volatiles (x.now ∷ [])) }
{
    match *x {
        Entry::Enlisted(e, c) => !is_volatile(c) || has_good_vote(h, e),
        _ => true,
    }
}

/// Whether each volatile voted yes or done.
fn are_volatiles_for(h: &[Entry]) -> bool
    ensures { result ≡ each (λ x. each (λ y. has (is_good_vote y.0.value) (past_of h.now)) (volatiles (x ∷ []))) h.now }
{
    h.iter().all(|x| is_volatile_for(h, x))
}

/// Whether the durable or promotable that the entry enlists, where it enlists one, voted yes or done in h.
#[tactic(auto, using(dtx_model::proofs::Reading::reading))]
fn is_durable_for(h: &[Entry], x: &Entry) -> bool
    ensures { result ≡ each (λ y. has (is_good_vote y.0.value) (past_of h.now)) (durables (x.now ∷ [])) }
{
    match *x {
        Entry::Enlisted(e, c) => is_volatile(c) || has_good_vote(h, e),
        _ => true,
    }
}

/// Whether each durable and promotable voted yes or done.
fn are_durables_for(h: &[Entry]) -> bool
    ensures { result ≡ each (λ x. each (λ y. has (is_good_vote y.0.value) (past_of h.now)) (durables (x ∷ []))) h.now }
{
    h.iter().all(|x| is_durable_for(h, x))
}

/// Whether the durables and promotables vote too.
#[tactic(auto, using(dtx_model::proofs::Reading::reading))]
pub fn all_vote(h: &[Entry]) -> bool
    ensures { result ≡ all_vote (past_of h.now) }
{
    has_promotion(h) && !has_any_single_sent(h)
}

/// Whether each voter voted yes or done.
#[tactic(auto, using(dtx_model::proofs::Reading::reading))]
fn are_voters_for(h: &[Entry]) -> bool
    ensures { result ≡ each (λ y. has (is_good_vote y.0.value) (past_of h.now)) (voters (past_of h.now)) }
{
    if all_vote(h) {
        are_volatiles_for(h) && are_durables_for(h)
    } else {
        are_volatiles_for(h)
    }
}

/// Whether commit was asked, each clone is complete, and each voter voted yes or done.
#[tactic(auto, using(dtx_model::proofs::Reading::reading), unfolding(dtx_model::specs::Outcome::ready))]
fn is_ready(h: &[Entry]) -> bool
    ensures { result ≡ ready (past_of h.now) }
{
    has_commit(h) && are_clones_complete(h) && are_voters_for(h)
}

/// The durable or promotable that the entry enlists, else the older one.
fn newer_durable(x: &Entry, older: Option<(EnlNo, Class)>) -> Option<(EnlNo, Class)>
    ensures { result ≡ or_else (slice_get (durables (x.now ∷ [])) 0) older }
{
    match *x {
        Entry::Enlisted(e, c) => { if is_volatile(c) { older } else { Some((e, c)) } }
        _ => older,
    }
}

/// The durable or promotable that was enlisted last.
pub fn newest_durable(h: &[Entry]) -> Option<(EnlNo, Class)>
    ensures { result ≡ slice_get (durables (past_of h.now)) 0 }
{
    let mut newest = None;
    for x in h {
        newest = newer_durable(x, newest);
    }
    newest
}

/// Whether the durable or promotable that the entry enlists, where it enlists one, is e.
fn is_no_other_durable(e: EnlNo, x: &Entry) -> bool
    ensures { result ≡ each (λ y. e.value == y.0.value) (durables (x.now ∷ [])) }
{
    match *x {
        Entry::Enlisted(f, c) => is_volatile(c) || e == f,
        _ => true,
    }
}

/// Whether e is the only durable or promotable.
fn is_only_durable(h: &[Entry], e: EnlNo) -> bool
    ensures { result ≡ each (λ x. each (λ y. e.value == y.0.value) (durables (x ∷ []))) h.now }
{
    h.iter().all(|x| is_no_other_durable(e, x))
}

/// Whether the entry enlists in a class that can own the commit.
#[tactic(auto, using(dtx_model::proofs::Reading::reading))]
fn is_owner_class_given(x: &Entry) -> bool
    ensures { result ≡ has (λ y. can_own y.1) (durables (x.now ∷ [])) }
{
    matches!(
        *x,
        Entry::Enlisted(_, Class::DurableSingle | Class::Promotable)
    )
}

/// Whether somebody was enlisted in a class that can own the commit.
fn has_owner_class(h: &[Entry]) -> bool
    ensures { result ≡ has (λ x. has (λ y. can_own y.1) (durables (x ∷ []))) h.now }
{
    h.iter().any(is_owner_class_given)
}

/// Whether e may decide: nothing was promoted, or the coordinator let it decide in a single phase.
#[tactic(auto, using(dtx_model::proofs::Reading::reading))]
fn may_decide(h: &[Entry], e: EnlNo) -> bool
    ensures { result ≡ may_decide (past_of h.now) e.value }
{
    !has_promotion(h) || has_single_sent(h, e)
}

/// Whether e is the only durable or promotable, can own the commit by one of its classes, may decide, was handed the commit and answered committed.
#[tactic(auto, using(dtx_model::proofs::Reading::reading))]
fn is_owner_committed(h: &[Entry], e: EnlNo) -> bool
    ensures { result ≡ (each (λ y. e.value == y.0.value) (durables (past_of h.now)) && has (λ y. can_own y.1) (durables (past_of h.now)) && may_decide (past_of h.now) e.value && has (is_hand e.value) (past_of h.now) && has (is_owner e.value Committed) (past_of h.now)) }
{
    is_only_durable(h, e)
        && has_owner_class(h)
        && may_decide(h, e)
        && has_hand(h, e)
        && has_owner(h, e, Outcome::Committed)
}

/// Whether the seal is evidence: sealed, not promoted, and nobody could own the commit.
#[tactic(auto, using(dtx_model::proofs::Reading::reading), unfolding(dtx_model::specs::Outcome::by_seal))]
fn is_by_seal(h: &[Entry]) -> bool
    ensures { result ≡ by_seal (past_of h.now) }
{
    has_seal(h) && !has_promotion(h) && newest_durable(h).is_none()
}

/// Whether the owner's answer is evidence: the one durable or promotable decided, and answered committed.
#[tactic(auto, using(dtx_model::proofs::Reading::no_owner), unfolding(dtx_model::specs::Outcome::by_owner))]
fn is_by_owner(h: &[Entry]) -> bool
    ensures { result ≡ by_owner (past_of h.now) }
{
    match newest_durable(h) {
        None => false,
        Some((e, _)) => is_owner_committed(h, e),
    }
}

/// Whether the log is evidence, where it was promoted.
#[tactic(auto, using(dtx_model::proofs::Reading::reading), unfolding(dtx_model::specs::Outcome::by_log))]
fn is_by_log(h: &[Entry]) -> bool
    ensures { result ≡ by_log (past_of h.now) }
{
    has_promotion(h) && has_record(h)
}

/// Whether it is ready, and the seal, the owner or the log says so.
#[tactic(auto, unfolding(dtx_model::specs::Outcome::evidence))]
pub fn has_evidence(h: &[Entry]) -> bool
    ensures { result ≡ evidence (past_of h.now) }
{
    is_ready(h) && (is_by_seal(h) || is_by_owner(h) || is_by_log(h))
}
