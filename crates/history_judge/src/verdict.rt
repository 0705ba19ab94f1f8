//! The judge of histories: the first place at which one breaks the rules of one outcome. What it asks of a history is what the definitions
//! in `specs/Outcome.antt` ask. It takes no memory, and reads what stands before an entry again for each entry.
ghost use Rattle.std.specs.Prelude.{◌≡◌, ◌↔◌, true};
ghost use Rattle.dtx_model.specs.Words.{ever, past_of};
ghost use Rattle.dtx_model.specs.Outcome.{may_tell, is_just, justified, is_decided_again, agree};
ghost use Rattle.history_judge.specs.Judge.{IsVerdict};

use crate::doubt::{has_doubt, hears_doubt};
use crate::entries::is_decision;
use crate::evidence::has_evidence;
use crate::scans::{has_decision, has_final};
use crate::veto::is_vetoed;
use dtx_values::{Entry, Outcome, Party};

/// The verdict on a history, oldest entry first. A place is an index from 0.
#[derive(Clone, Copy, PartialEq, Eq, Debug)]
pub enum Verdict {
    /// What is told is just, and nobody is told the opposite of what another is told.
    Fine,
    /// The entry at this place is the first at fault: it tells what may not be told there.
    NotJustified(usize),
    /// The entry at this place is the first at fault: it may be told, but the history has the opposite outcome or a decision already.
    Disagree(usize),
}

/// Whether this party may be told this outcome after h.
#[tactic(auto, unfolding(dtx_model::specs::Outcome::may_tell))]
fn may_tell(h: &[Entry], p: Party, o: Outcome) -> bool
    ensures { result ≡ may_tell (past_of h.now) p o }
{
    match o {
        Outcome::Committed => has_evidence(h),
        Outcome::Aborted => is_vetoed(h) && !has_evidence(h),
        Outcome::InDoubt => hears_doubt(h, p) && has_doubt(h),
    }
}

/// Whether what the entry tells or decides may be told after h. A decision counts as told to the client.
fn is_just(h: &[Entry], x: &Entry) -> bool
    ensures { result ≡ is_just (past_of h.now) x.now }
{
    match *x {
        Entry::Told(p, o) => may_tell(h, p, o),
        Entry::Decided(o) => may_tell(h, Party::Client, o),
        _ => true,
    }
}

/// Whether the entry decides what h has decided.
#[tactic(auto, using(dtx_model::proofs::Reading::reading))]
fn is_decided_again(h: &[Entry], x: &Entry) -> bool
    ensures { result ≡ is_decided_again (past_of h.now) x.now }
{
    is_decision(x) && has_decision(h)
}

/// Whether h has more than one decision.
#[tactic(auto, using(dtx_model::proofs::Prefixes::prefixes))]
fn has_two_decisions(h: &[Entry]) -> bool
    ensures { result ≡ ever is_decided_again (past_of h.now) }
{
    for (i, x) in h.iter().enumerate() {
        if is_decided_again(&h[..i], x) {
            return true;
        }
    }
    false
}

/// Whether h hasn't both outcomes, and not more than one decision.
#[tactic(auto, using(dtx_model::proofs::Reading::reading), unfolding(dtx_model::specs::Outcome::agree))]
fn agrees(h: &[Entry]) -> bool
    ensures { result ≡ agree (past_of h.now) }
{
    !(has_final(h, Outcome::Committed) && has_final(h, Outcome::Aborted)) && !has_two_decisions(h)
}

/// The verdict on a history, oldest entry first: the first place at which something is told that may not be told there, or at which two
/// parts of the history disagree on the outcome.
///
/// The rules are the atomicity of a transaction (all hear one outcome, decided once) and presumed abort (a commit is told on evidence
/// alone). The judge reads the entries alone, and knows nothing of how they came about.
pub fn judge(h: &[Entry]) -> Verdict
    ensures fine { (result ≡ Verdict.Fine) ↔ ((justified (past_of h.now) ≡ true) × (agree (past_of h.now) ≡ true)) }
    ensures first { IsVerdict h.now result }
{
    for (i, x) in h.iter().enumerate() {
        if !is_just(&h[..i], x) {
            return Verdict::NotJustified(i);
        }
        if !agrees(&h[..i + 1]) {
            return Verdict::Disagree(i);
        }
    }
    Verdict::Fine
}
