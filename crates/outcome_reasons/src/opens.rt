//! Why a transaction is open.
ghost use Rattle.std.specs.Prelude.{◌≡◌, Some, is_none};
ghost use Rattle.dtx_model.specs.Caused.{plans_of};
ghost use Rattle.dtx_model.specs.History.{is_still_lost, loss_of};
ghost use Rattle.dtx_model.specs.Plans.{planned};
ghost use Rattle.dtx_model.specs.Words.{has, holds, or_else, past_of};
ghost use Rattle.dtx_values.specs.Clones.{blocks};
ghost use Rattle.outcome_reasons.specs.First.{first_of};
ghost use Rattle.outcome_reasons.specs.Opens.{blocking, given_note, is_answer, is_silent_to, note_of, open_reason, unanswered};
ghost use Rattle.outcome_reasons.specs.Planned.{or_plan, plan_in};

use crate::callers::number_at;
use crate::said::OpenReason;
use crate::vetoes::is_open;
use dtx_values::{Ask, Body, CloneKind, CloneNo, EnlNo, Entry, Line, Note, Plan, Support};
use history_judge::has_commit;

/// Whether a clone of this kind blocks a commit while it isn't complete.
fn blocks(kind: CloneKind) -> bool
    ensures { result ≡ blocks kind }
{
    matches!(kind, CloneKind::Block)
}

/// The blocking clone that the entry gives, where it isn't complete in h.
fn blocking(h: &[Entry], x: &Entry) -> Option<CloneNo>
    ensures { result ≡ blocking (past_of h.now) x.now }
{
    match *x {
        Entry::Cloned(c, kind) => {
            if blocks(kind) && is_open(h, c) {
                Some(c)
            } else {
                None
            }
        }
        _ => None,
    }
}

/// The first blocking clone that isn't complete.
fn first_blocking(h: &[Entry]) -> Option<(usize, CloneNo)>
    ensures { result ≡ first_of (λ past x. blocking (past_of h.now) x) (past_of h.now) }
{
    for (i, x) in h.iter().enumerate() {
        if let Some(c) = blocking(h, x) {
            return Some((i, c));
        }
    }
    None
}

/// What an entry says of whether e is lost, else what was so before.
fn lost_after(e: EnlNo, x: &Entry, before: bool) -> bool
    ensures { result ≡ holds (or_else (loss_of e.value x.now) (Some before)) }
{
    match *x {
        Entry::Lost(f) => e == f || before,
        Entry::Reenlisted(f) => e != f && before,
        _ => before,
    }
}

/// Whether e was lost, and didn't come back since.
fn is_still_lost(h: &[Entry], e: EnlNo) -> bool
    ensures { result ≡ is_still_lost e.value (past_of h.now) }
{
    let mut is_lost = false;
    for x in h {
        is_lost = lost_after(e, x, is_lost);
    }
    is_lost
}

/// Whether the entry is e's answer to the note.
fn is_answer(e: EnlNo, note: Note, x: &Entry) -> bool
    ensures { result ≡ is_answer e.value note x.now }
{
    match (note, *x) {
        (Note::Prepare, Entry::Voted(f, _)) => e == f,
        (Note::Promote, Entry::PromoteReply(f, _)) => e == f,
        (Note::Single, Entry::Requested(f, _)) => e == f,
        (Note::Hand, Entry::OwnerAnswered(f, _)) => e == f,
        _ => false,
    }
}

/// The plan that a command makes for e, else the one before.
fn newer_plan(e: EnlNo, body: Body, before: Plan) -> Plan
    ensures { result ≡ or_plan (plan_in e.value body) before }
{
    match body {
        Body::Volatile(_, f, _, vote) | Body::Durable(_, f, _, Support::TwoPhase(vote)) if e == f =>
            {
                Plan {
                    vote,
                    owner: None,
                    promote: None,
                }
            }
        Body::Durable(_, f, _, Support::SinglePhase(vote, owner)) if e == f => {
            Plan {
                vote,
                owner,
                promote: None,
            }
        }
        Body::Promotable(_, f, _, vote, owner, promote) if e == f => {
            Plan {
                vote,
                owner,
                promote,
            }
        }
        _ => before,
    }
}

/// The plan of e.
fn plan_of(lines: &[Line], e: EnlNo) -> Plan
    ensures { result ≡ plans_of lines.now e.value }
{
    let mut plan = Plan {
        vote: None,
        owner: None,
        promote: None,
    };
    for line in lines {
        plan = newer_plan(e, line.body, plan);
    }
    plan
}

/// Whether the plan has no reply to the note.
fn is_unplanned(plan: Plan, note: Note) -> bool
    ensures { result ≡ is_none (planned plan note) }
{
    match note {
        Note::Prepare => plan.vote.is_none(),
        Note::Promote => plan.promote.is_none(),
        Note::Hand | Note::Single => plan.owner.is_none(),
        Note::Commit => false,
        _ => true,
    }
}

/// Whether h has e's answer to the note.
fn has_answer(h: &[Entry], e: EnlNo, note: Note) -> bool
    ensures { result ≡ has (λ x. is_answer e.value note x) h.now }
{
    h.iter().any(|x| is_answer(e, note, x))
}

/// Whether the enlistment stays silent to the note.
#[tactic(auto, using(dtx_model::proofs::Reading::reading))]
fn is_silent_to(lines: &[Line], h: &[Entry], e: EnlNo, note: Note) -> bool
    ensures { result ≡ is_silent_to (plans_of lines.now) (past_of h.now) e note }
{
    !is_still_lost(h, e) && is_unplanned(plan_of(lines, e), note) && !has_answer(h, e, note)
}

/// The note that an ask is.
fn note_of(ask: Ask) -> Note
    ensures { result ≡ note_of ask }
{
    match ask {
        Ask::Prepare => Note::Prepare,
        Ask::Promote => Note::Promote,
        Ask::Single => Note::Single,
    }
}

/// The enlistment to which the entry gives a note, and the note.
fn given_note(x: &Entry) -> Option<(EnlNo, Note)>
    ensures { result ≡ given_note x.now }
{
    match *x {
        Entry::Asked(e, ask) => Some((e, note_of(ask))),
        Entry::Handed(e) => Some((e, Note::Hand)),
        _ => None,
    }
}

/// The enlistment and the note that the entry gives it, where it stays silent to it.
fn unanswered(lines: &[Line], h: &[Entry], x: &Entry) -> Option<(EnlNo, Note)>
    ensures { result ≡ unanswered (plans_of lines.now) (past_of h.now) x.now }
{
    match given_note(x) {
        Some((e, note)) => {
            if is_silent_to(lines, h, e, note) {
                Some((e, note))
            } else {
                None
            }
        }
        None => None,
    }
}

/// The first note to which an enlistment stays silent.
fn first_unanswered(lines: &[Line], h: &[Entry]) -> Option<(usize, (EnlNo, Note))>
    ensures { result ≡ first_of (λ past x. unanswered (plans_of lines.now) (past_of h.now) x) (past_of h.now) }
{
    for (i, x) in h.iter().enumerate() {
        if let Some(found) = unanswered(lines, h, x) {
            return Some((i, found));
        }
    }
    None
}

/// Why the transaction is open.
#[tactic(auto, using(dtx_model::proofs::Reading::reading))]
pub(crate) fn open_reason(lines: &[Line], numbers: &[u64], h: &[Entry]) -> OpenReason
    ensures { result ≡ open_reason lines.now (past_of numbers.now) (past_of h.now) }
{
    if !has_commit(h) {
        return OpenReason::NotAsked;
    }
    if let Some((_, c)) = first_blocking(h) {
        return OpenReason::OpenClone(c);
    }
    match first_unanswered(lines, h) {
        Some((i, (e, note))) => OpenReason::Silent(e, note, number_at(numbers, i)),
        None => OpenReason::Unsettled,
    }
}
