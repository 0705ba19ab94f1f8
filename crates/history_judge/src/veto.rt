//! Vetoes: what justifies an abort.
ghost use Rattle.std.specs.Prelude.{◌≡◌, [], ◌∷◌, ◌&&◌, not};
ghost use Rattle.dtx_model.specs.Words.{has, past_of, all_of};
ghost use Rattle.dtx_model.specs.Entries.{clone_of};
ghost use Rattle.dtx_model.specs.Outcome.{is_rollback, is_complete, is_lone, is_veto_end, is_veto, is_first_veto, vetoed};

use crate::evidence::has_evidence;
use crate::scans::{
    enlists_got, has_any_hand, has_commit_got, has_completed, has_hand, has_single_sent, has_vote,
    has_vote_got, has_yes, has_yes_got,
};
use dtx_values::{CloneKind, Conn, Dir, Entry, Message, Outcome, Request, Vote, has_line};

/// Whether the coordinator got the ENLIST of exactly one.
#[tactic(auto, using(dtx_model::proofs::Reading::reading))]
pub fn is_lone(h: &[Entry]) -> bool
    ensures { result ≡ is_lone (past_of h.now) }
{
    enlists_got(h) == 1
}

/// Whether the end of this connection, seen on this side, is a veto after h.
#[tactic(auto, using(dtx_model::proofs::Reading::reading))]
pub fn is_veto_end(h: &[Entry], c: Conn, d: Dir) -> bool
    ensures { result ≡ is_veto_end (past_of h.now) c d }
{
    match (c, d) {
        (Conn::Begin, Dir::Down) => !has_yes(h),
        (Conn::Voter, Dir::Down) => !has_yes(h),
        (Conn::Enl(e), Dir::Down) => !has_yes(h) && !has_vote(h, e),
        (Conn::Begin, Dir::Up) => !has_commit_got(h),
        (Conn::Voter, Dir::Up) => !has_yes_got(h),
        (Conn::Enl(e), Dir::Up) => !has_vote_got(h, e) && !has_single_sent(h, e),
        (Conn::Again(_), _) => false,
    }
}

/// Whether the entry gives a rollback clone that isn't complete in h.
#[tactic(auto, using(dtx_model::proofs::Reading::reading))]
fn is_open_rollback(h: &[Entry], x: &Entry) -> bool
    ensures { result ≡ has (λ c. is_rollback c.1 && not (is_complete (past_of h.now) c)) (all_of clone_of (x.now ∷ [])) }
{
    match *x {
        Entry::Cloned(c, CloneKind::Rollback) => !has_completed(h, c),
        _ => false,
    }
}

/// Whether a call of commit is a veto after h: a rollback clone isn't complete.
fn has_open_rollback(h: &[Entry]) -> bool
    ensures { result ≡ has (λ x. has (λ c. is_rollback c.1 && not (is_complete (past_of h.now) c)) (all_of clone_of (x ∷ []))) h.now }
{
    h.iter().any(|x| is_open_rollback(h, x))
}

/// Whether the entry is a veto after h.
#[tactic(auto, using(dtx_model::proofs::Reading::reading))]
fn is_veto(h: &[Entry], x: &Entry) -> bool
    ensures { result ≡ is_veto (past_of h.now) x.now }
{
    match *x {
        // The local side hasn't given its right to abort away.
        Entry::RollbackAsked | Entry::TimedOut => !has_yes(h) && !has_any_hand(h),
        Entry::Voted(_, Vote::No) => true,
        Entry::OwnerAnswered(_, Outcome::Aborted) => true,
        Entry::PromoteReply(_, fine) => !fine,
        Entry::Requested(_, Request::Abort) => true,
        Entry::LogFull => true,
        Entry::Restarted(found) => !found,
        Entry::CommitAsked => has_open_rollback(h),
        // It neither voted nor was handed the commit.
        Entry::Lost(e) => !has_vote(h, e) && !has_hand(h, e),
        Entry::Down(c, d) => is_veto_end(h, c, d),
        // COMMIT for a single phase where not exactly one enlistment came counts as the end of b.
        Entry::Got(Conn::Begin, Dir::Up, Message::BeginCommitOne) => {
            !is_lone(h) && is_veto_end(h, Conn::Begin, Dir::Up)
        }
        // A message that has no line counts as the end of its connection.
        Entry::Got(c, d, m) => !has_line(c, d, m) && is_veto_end(h, c, d),
        _ => false,
    }
}

/// Whether the entry is a veto after h where no evidence stands in h yet.
pub fn is_first_veto(h: &[Entry], x: &Entry) -> bool
    ensures { result ≡ is_first_veto (past_of h.now) x.now }
{
    is_veto(h, x) && !has_evidence(h)
}

/// Whether a veto stands in h that had no evidence before it.
#[tactic(auto, using(dtx_model::proofs::Prefixes::prefixes), unfolding(dtx_model::specs::Outcome::vetoed))]
pub fn is_vetoed(h: &[Entry]) -> bool
    ensures { result ≡ vetoed (past_of h.now) }
{
    for (i, x) in h.iter().enumerate() {
        if is_first_veto(&h[..i], x) {
            return true;
        }
    }
    false
}
