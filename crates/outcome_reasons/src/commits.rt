//! What the evidence of a commit is.
ghost use Rattle.std.specs.Prelude.{◌≡◌, ◌≤◌, false, length, slice_get, take};
ghost use Rattle.dtx_model.specs.Words.{has, past_of};
ghost use Rattle.outcome_reasons.specs.Commits.{commit_reason, evident, is_mark};
ghost use Rattle.outcome_reasons.specs.First.{first_of};

use crate::said::CommitReason;
use dtx_values::Entry;
use history_judge::{all_vote, has_evidence, newest_durable};

/// Whether evidence may come of the entry, or of what comes after it: without such an entry there is none.
fn is_mark(x: &Entry) -> bool
    ensures { result ≡ is_mark x.now }
{
    matches!(
        x,
        Entry::Sealed | Entry::OwnerAnswered(_, _) | Entry::Logged | Entry::Restarted(_)
    )
}

/// What the evidence in h is.
#[tactic(auto, using(dtx_model::proofs::Reading::reading))]
fn commit_reason(h: &[Entry]) -> CommitReason
    ensures { result ≡ commit_reason (past_of h.now) }
{
    if all_vote(h) {
        return CommitReason::Logged;
    }
    match newest_durable(h) {
        Some((e, _)) => CommitReason::Owner(e),
        None => CommitReason::Sealed,
    }
}

/// The place of the first mark, or the end.
fn first_mark(h: &[Entry]) -> usize
    ensures within { result ≤ length h.now }
    ensures unmarked { has is_mark (past_of (take result h.now)) ≡ false }
{
    for (i, x) in h.iter().enumerate() {
        if is_mark(x) {
            return i;
        }
    }
    h.len()
}

/// The first place after which evidence stands, and what it is.
pub(crate) fn first_evidence(h: &[Entry]) -> Option<(usize, CommitReason)>
    ensures { result ≡ first_of evident (past_of h.now) }
{
    // Where no mark stands, no evidence does, which would be looked for in vain after each entry.
    for i in first_mark(h)..h.len() {
        if has_evidence(&h[..i + 1]) {
            return Some((i, commit_reason(&h[..i + 1])));
        }
    }
    None
}
