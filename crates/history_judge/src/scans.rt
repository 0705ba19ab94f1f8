//! Whether a history has an entry that passes a test. A slice stands oldest entry first, and such a question doesn't ask for the order.
ghost use Rattle.std.specs.Prelude.{◌≡◌};
ghost use Rattle.dtx_values.specs.Table.{how_many};
ghost use Rattle.dtx_model.specs.Words.{has};
ghost use Rattle.dtx_model.specs.Entries.{is_commit, is_sealed, is_promoted, is_record, is_yes, is_hand, is_any_hand, is_owner, is_any_owner, is_completed, is_vote, is_good_vote, is_decision, is_final, is_commit_got, is_yes_got, is_vote_got, is_enlist_got, is_single_sent, is_any_single_sent, is_one_got};
ghost use Rattle.dtx_model.specs.Outcome.{is_begin_end, is_voter_end, is_outcome_got};

use crate::entries::{
    is_any_hand, is_any_owner, is_commit, is_completed, is_decision, is_final, is_good_vote,
    is_hand, is_owner, is_promoted, is_record, is_sealed, is_vote, is_yes,
};
use crate::messages::{
    is_any_single_sent, is_begin_end, is_commit_got, is_enlist_got, is_one_got, is_outcome_got,
    is_single_sent, is_vote_got, is_voter_end, is_yes_got,
};
use dtx_values::{CloneNo, EnlNo, Entry, Outcome};

/// Whether commit was asked.
pub fn has_commit(h: &[Entry]) -> bool
    ensures { result ≡ has is_commit h.now }
{
    h.iter().any(|x| is_commit(x))
}

/// Whether it was sealed.
pub fn has_seal(h: &[Entry]) -> bool
    ensures { result ≡ has is_sealed h.now }
{
    h.iter().any(|x| is_sealed(x))
}

/// Whether it was promoted.
pub fn has_promotion(h: &[Entry]) -> bool
    ensures { result ≡ has is_promoted h.now }
{
    h.iter().any(|x| is_promoted(x))
}

/// Whether the record was logged, or found again.
pub fn has_record(h: &[Entry]) -> bool
    ensures { result ≡ has is_record h.now }
{
    h.iter().any(|x| is_record(x))
}

/// Whether the local side said yes.
pub fn has_yes(h: &[Entry]) -> bool
    ensures { result ≡ has is_yes h.now }
{
    h.iter().any(|x| is_yes(x))
}

/// Whether the commit was handed to this enlistment.
pub fn has_hand(h: &[Entry], e: EnlNo) -> bool
    ensures { result ≡ has (λ x. is_hand e.value x) h.now }
{
    h.iter().any(|x| is_hand(e, x))
}

/// Whether the commit was handed to some enlistment.
pub fn has_any_hand(h: &[Entry]) -> bool
    ensures { result ≡ has is_any_hand h.now }
{
    h.iter().any(|x| is_any_hand(x))
}

/// Whether this owner answered so.
pub fn has_owner(h: &[Entry], e: EnlNo, o: Outcome) -> bool
    ensures { result ≡ has (λ x. is_owner e.value o x) h.now }
{
    h.iter().any(|x| is_owner(e, o, x))
}

/// Whether this owner answered.
pub fn has_any_owner(h: &[Entry], e: EnlNo) -> bool
    ensures { result ≡ has (λ x. is_any_owner e.value x) h.now }
{
    h.iter().any(|x| is_any_owner(e, x))
}

/// Whether this clone was completed.
pub fn has_completed(h: &[Entry], c: CloneNo) -> bool
    ensures { result ≡ has (λ x. is_completed c.value x) h.now }
{
    h.iter().any(|x| is_completed(c, x))
}

/// Whether this enlistment voted.
pub fn has_vote(h: &[Entry], e: EnlNo) -> bool
    ensures { result ≡ has (λ x. is_vote e.value x) h.now }
{
    h.iter().any(|x| is_vote(e, x))
}

/// Whether this enlistment voted yes or done.
pub fn has_good_vote(h: &[Entry], e: EnlNo) -> bool
    ensures { result ≡ has (λ x. is_good_vote e.value x) h.now }
{
    h.iter().any(|x| is_good_vote(e, x))
}

/// Whether it was decided.
pub fn has_decision(h: &[Entry]) -> bool
    ensures { result ≡ has is_decision h.now }
{
    h.iter().any(|x| is_decision(x))
}

/// Whether this outcome was told, decided or answered by an owner.
pub fn has_final(h: &[Entry], o: Outcome) -> bool
    ensures { result ≡ has (λ x. is_final o x) h.now }
{
    h.iter().any(|x| is_final(o, x))
}

/// Whether the coordinator got COMMIT.
pub fn has_commit_got(h: &[Entry]) -> bool
    ensures { result ≡ has is_commit_got h.now }
{
    h.iter().any(|x| is_commit_got(x))
}

/// How many ENLISTs the coordinator got.
pub(crate) fn enlists_got(h: &[Entry]) -> usize
    ensures { result ≡ how_many is_enlist_got h.now }
{
    h.iter().filter(|x| is_enlist_got(x)).count()
}

/// Whether SINGLE was sent to this enlistment.
pub(crate) fn has_single_sent(h: &[Entry], e: EnlNo) -> bool
    ensures { result ≡ has (λ x. is_single_sent e.value x) h.now }
{
    h.iter().any(|x| is_single_sent(e, x))
}

/// Whether SINGLE was sent to some enlistment.
pub(crate) fn has_any_single_sent(h: &[Entry]) -> bool
    ensures { result ≡ has is_any_single_sent h.now }
{
    h.iter().any(|x| is_any_single_sent(x))
}

/// Whether the coordinator got this enlistment's answer to SINGLE.
pub(crate) fn has_one_got(h: &[Entry], e: EnlNo) -> bool
    ensures { result ≡ has (λ x. is_one_got e.value x) h.now }
{
    h.iter().any(|x| is_one_got(e, x))
}

/// Whether the coordinator got the voter's YES.
pub fn has_yes_got(h: &[Entry]) -> bool
    ensures { result ≡ has is_yes_got h.now }
{
    h.iter().any(|x| is_yes_got(x))
}

/// Whether the coordinator got this enlistment's PREPARED, NO or READONLY.
pub fn has_vote_got(h: &[Entry], e: EnlNo) -> bool
    ensures { result ≡ has (λ x. is_vote_got e.value x) h.now }
{
    h.iter().any(|x| is_vote_got(e, x))
}

/// Whether the local side saw the end of b.
pub fn has_begin_end(h: &[Entry]) -> bool
    ensures { result ≡ has is_begin_end h.now }
{
    h.iter().any(|x| is_begin_end(x))
}

/// Whether the local side saw the end of v.
pub fn has_voter_end(h: &[Entry]) -> bool
    ensures { result ≡ has is_voter_end h.now }
{
    h.iter().any(|x| is_voter_end(x))
}

/// Whether the local side got the outcome on b or on v.
pub fn has_outcome_got(h: &[Entry]) -> bool
    ensures { result ≡ has is_outcome_got h.now }
{
    h.iter().any(|x| is_outcome_got(x))
}
