//! What justified an abort.
ghost use Rattle.std.specs.Prelude.{◌≡◌, not};
ghost use Rattle.dtx_model.specs.Entries.{began_of, is_completed};
ghost use Rattle.dtx_model.specs.Outcome.{is_rollback};
ghost use Rattle.dtx_model.specs.Observed.{clock};
ghost use Rattle.dtx_model.specs.Words.{has, kth, latest, past_of};
ghost use Rattle.outcome_reasons.specs.First.{first_of};
ghost use Rattle.outcome_reasons.specs.Vetoes.{abort_reason, closed_by, closes, limit_in, lower, lowest_open, nested_at, open_in, rolled_by, vetoing};

use crate::callers::{moment, newest_call};
use crate::ends::root;
use crate::said::{AbortReason, Caller, Moment};
use dtx_values::{Body, CloneKind, CloneNo, Entry, Line, ScopeNo};
use history_judge::{has_completed, is_first_veto};

/// The scope that a line closes.
fn closes(lines: &[Line], n: u32) -> Option<ScopeNo>
    ensures { result ≡ closes (kth lines.now n) }
{
    if n == 0 {
        return None;
    }
    match lines.get(n as usize - 1) {
        Some(
            Line {
                body: Body::Close(q),
                ..
            },
        ) => Some(*q),
        _ => None,
    }
}

/// The scope beneath which line n was answered that it is nested.
fn nested_at(nested: &[(u32, ScopeNo)], n: u32) -> Option<ScopeNo>
    ensures { result ≡ nested_at n (past_of nested.now) }
{
    let mut found = None;
    for x in nested {
        if x.0 == n {
            found = Some(x.1);
        }
    }
    found
}

/// How a call rolled the transaction back.
fn rolled_by(lines: &[Line], nested: &[(u32, ScopeNo)], caller: Option<Caller>) -> AbortReason
    ensures { result ≡ rolled_by lines.now (past_of nested.now) caller }
{
    let Some(caller) = caller else {
        return AbortReason::RolledBack;
    };
    match (closes(lines, caller.line), nested_at(nested, caller.line)) {
        (None, _) => AbortReason::RolledBack,
        (Some(q), Some(above)) => AbortReason::Nested(q, above),
        (Some(q), None) => AbortReason::Unfinished(q),
    }
}

/// Whether the clone isn't complete.
#[tactic(auto, using(dtx_model::proofs::Reading::reading))]
pub(crate) fn is_open(h: &[Entry], c: CloneNo) -> bool
    ensures { result ≡ not (has (is_completed c.value) (past_of h.now)) }
{
    !has_completed(h, c)
}

/// Whether a clone of this kind makes a commit a veto while it isn't complete.
fn is_rollback(kind: CloneKind) -> bool
    ensures { result ≡ is_rollback kind }
{
    matches!(kind, CloneKind::Rollback)
}

/// The rollback clone that the entry gives, where it isn't complete in h.
fn open_in(h: &[Entry], x: &Entry) -> Option<CloneNo>
    ensures { result ≡ open_in (past_of h.now) x.now }
{
    match *x {
        Entry::Cloned(c, kind) => {
            if is_rollback(kind) && is_open(h, c) {
                Some(c)
            } else {
                None
            }
        }
        _ => None,
    }
}

/// The lower of two clones.
fn lower(newer: Option<CloneNo>, older: Option<CloneNo>) -> Option<CloneNo>
    ensures { result ≡ lower newer older }
{
    match (newer, older) {
        (Some(c), Some(d)) => { if c.get() <= d.get() { Some(c) } else { Some(d) } }
        (Some(c), None) => Some(c),
        (None, _) => older,
    }
}

/// The lowest rollback clone that isn't complete.
fn lowest_open(h: &[Entry]) -> Option<CloneNo>
    ensures { result ≡ lowest_open (past_of h.now) (past_of h.now) }
{
    let mut lowest = None;
    for x in h {
        lowest = lower(open_in(h, x), lowest);
    }
    lowest
}

/// The clock in milliseconds: that of the last tick.
fn clock(h: &[Entry]) -> u64
    ensures { result ≡ clock (past_of h.now) }
{
    let mut clock = 0;
    for x in h {
        if let Entry::Clock(n) = *x {
            clock = n;
        }
    }
    clock
}

/// The timeout in milliseconds.
fn limit(h: &[Entry]) -> u32
    ensures { result ≡ limit_in (latest began_of (past_of h.now)) }
{
    let mut limit = 0;
    for x in h {
        if let Entry::Began(d) = *x {
            limit = d;
        }
    }
    limit
}

/// What the veto is that comes after h.
fn abort_reason(
    lines: &[Line],
    nested: &[(u32, ScopeNo)],
    numbers: &[u64],
    h: &[Entry],
    x: &Entry,
) -> AbortReason
    ensures { result ≡ abort_reason lines.now (past_of nested.now) (past_of numbers.now) (past_of h.now) x.now }
{
    match *x {
        Entry::RollbackAsked => rolled_by(lines, nested, newest_call(h)),
        Entry::TimedOut => AbortReason::TimedOut(clock(h), limit(h)),
        Entry::CommitAsked => AbortReason::OpenClone(lowest_open(h)),
        Entry::Voted(e, _) => AbortReason::VotedNo(e),
        Entry::OwnerAnswered(e, _) => AbortReason::OwnerAborted(e),
        Entry::PromoteReply(e, _) => AbortReason::NotPromoted(e),
        Entry::Requested(e, _) => AbortReason::Requested(e),
        Entry::Lost(e) => AbortReason::Lost(e),
        Entry::Down(c, d) | Entry::Got(c, d, _) => AbortReason::Ended(root(numbers, c, h), c, d),
        Entry::LogFull => AbortReason::LogFull,
        _ => AbortReason::NoRecord,
    }
}

/// The first veto before which no evidence stood, with its place in the history.
pub(crate) fn first_veto(
    lines: &[Line],
    nested: &[(u32, ScopeNo)],
    numbers: &[u64],
    h: &[Entry],
) -> Option<(usize, (AbortReason, Moment))>
    ensures { result ≡ first_of (vetoing lines.now (past_of nested.now) (past_of numbers.now)) (past_of h.now) }
{
    for (i, x) in h.iter().enumerate() {
        if is_first_veto(&h[..i], x) {
            let reason = abort_reason(lines, nested, numbers, &h[..i], x);
            return Some((i, (reason, moment(numbers, &h[..i], x))));
        }
    }
    None
}
