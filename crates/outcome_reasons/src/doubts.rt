//! Why an outcome is in doubt, and what the coordinator decided.
ghost use Rattle.std.specs.Prelude.{◌≡◌, ◌∷◌, List};
ghost use Rattle.dtx_values.specs.declared.entry.Entry.{Entry};
ghost use Rattle.dtx_model.specs.Learned.{is_abort, is_first_abort};
ghost use Rattle.dtx_model.specs.Words.{past_of};
ghost use Rattle.outcome_reasons.specs.Doubts.{at_coordinator, doubt_reason, doubtful, committed_at, is_commit_there};
ghost use Rattle.outcome_reasons.specs.First.{first_of, first_where};

use crate::callers::number_at;
use crate::ends::{begin_root, enlistment_root, voter_root};
use crate::said::{DoubtReason, Why};
use dtx_values::{Conn, Dir, Entry, Message, has_line};
use history_judge::{has_doubt, has_record, is_lone, is_record, is_veto_end};

/// What makes the doubt that stands after h, which ends with x.
fn doubt_reason(numbers: &[u64], h: &[Entry], x: &Entry) -> DoubtReason
    ensures { (past : List Entry) → past_of h.now ≡ x.now ∷ past → result ≡ doubt_reason (past_of numbers.now) past x.now }
{
    match *x {
        Entry::Handed(e) | Entry::OwnerAnswered(e, _) => DoubtReason::Answered(e),
        Entry::Lost(e) => DoubtReason::Lost(e),
        Entry::Down(Conn::Enl(e), Dir::Up) | Entry::Got(Conn::Enl(e), Dir::Up, _) => {
            DoubtReason::Unheard(enlistment_root(numbers, e, h), e)
        }
        _ => DoubtReason::Ended(begin_root(numbers, h), voter_root(numbers, h)),
    }
}

/// The first place after which doubt stands, and what makes it.
pub(crate) fn first_doubt(numbers: &[u64], h: &[Entry]) -> Option<(usize, DoubtReason)>
    ensures { result ≡ first_of (doubtful (past_of numbers.now)) (past_of h.now) }
{
    for (i, x) in h.iter().enumerate() {
        if has_doubt(&h[..i + 1]) {
            return Some((i, doubt_reason(numbers, &h[..i + 1], x)));
        }
    }
    None
}

/// Whether the coordinator commits at the entry.
fn is_commit_there(x: &Entry) -> bool
    ensures { result ≡ is_commit_there x.now }
{
    matches!(
        x,
        Entry::Got(Conn::Enl(_), Dir::Up, Message::EnlistOneCommitted)
    ) || is_record(x)
}

/// The place at which the coordinator committed.
#[tactic(auto, using(crate::proofs::Firsts::firsts))]
fn first_commit(h: &[Entry]) -> Option<usize>
    ensures { result ≡ first_where committed_at (past_of h.now) }
{
    for (i, x) in h.iter().enumerate() {
        if is_commit_there(x) {
            return Some(i);
        }
    }
    None
}

/// Whether the coordinator aborts at the entry that comes after h.
fn is_abort(h: &[Entry], x: &Entry) -> bool
    ensures { result ≡ is_abort (past_of h.now) x.now }
{
    match *x {
        Entry::Got(Conn::Begin, Dir::Up, Message::BeginAbort)
        | Entry::Got(Conn::Voter, Dir::Up, Message::VoterNo)
        | Entry::Got(Conn::Enl(_), Dir::Up, Message::EnlistNo)
        | Entry::Got(Conn::Enl(_), Dir::Up, Message::EnlistOneAborted)
        | Entry::LogFull => true,
        Entry::Got(Conn::Begin, Dir::Up, Message::BeginCommitOne) => {
            !is_lone(h) && is_veto_end(h, Conn::Begin, Dir::Up)
        }
        Entry::Got(c, Dir::Up, m) => !has_line(c, Dir::Up, m) && is_veto_end(h, c, Dir::Up),
        Entry::Down(c, Dir::Up) => is_veto_end(h, c, Dir::Up),
        Entry::Restarted(found) => !found,
        _ => false,
    }
}

/// Whether it aborts there, and no record stands in h.
#[tactic(auto, using(dtx_model::proofs::Reading::reading))]
fn is_first_abort(h: &[Entry], x: &Entry) -> bool
    ensures { result ≡ is_first_abort (past_of h.now) x.now }
{
    is_abort(h, x) && !has_record(h)
}

/// The place at which the coordinator aborted.
#[tactic(auto, using(crate::proofs::Firsts::firsts))]
fn first_abort(h: &[Entry]) -> Option<usize>
    ensures { result ≡ first_where is_first_abort (past_of h.now) }
{
    for (i, x) in h.iter().enumerate() {
        if is_first_abort(&h[..i], x) {
            return Some(i);
        }
    }
    None
}

/// What the coordinator decided.
pub(crate) fn at_coordinator(numbers: &[u64], h: &[Entry]) -> Why
    ensures { result ≡ at_coordinator (past_of numbers.now) (past_of h.now) }
{
    if let Some(i) = first_commit(h) {
        return Why::CoordinatorCommitted(number_at(numbers, i));
    }
    match first_abort(h) {
        Some(i) => Why::CoordinatorAborted(number_at(numbers, i)),
        None => Why::CoordinatorUndecided,
    }
}
