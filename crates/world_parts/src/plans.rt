//! What the calls of a transaction plan for its enlistments.
ghost use Rattle.std.specs.Prelude.{◌≡◌};
ghost use Rattle.dtx_model.specs.Plans.{plan_by, plan_if, plan_of, planned, support_plan};
ghost use Rattle.dtx_model.specs.Words.{past_of};

use dtx_model::EnteredCall;
use dtx_values::{Call, EnlNo, Note, Outcome, Plan, Reply, Support, Vote};

/// A plan.
fn plan(vote: Option<Vote>, owner: Option<Outcome>, promote: Option<bool>) -> Plan
    ensures { result ≡ record { vote = vote; owner = owner; promote = promote } }
{
    Plan {
        vote,
        owner,
        promote,
    }
}

/// The plan of a durable enlistment.
fn support_plan(s: Support) -> Plan
    ensures { result ≡ support_plan s }
{
    match s {
        Support::SinglePhase(vote, owner) => plan(vote, owner, None),
        Support::TwoPhase(vote) => plan(vote, None, None),
    }
}

/// The plan, where it is said of this enlistment.
fn plan_if(is_it: bool, p: Plan) -> Option<Plan>
    ensures { result ≡ plan_if is_it p }
{
    if is_it { Some(p) } else { None }
}

/// The plan that a call makes for an enlistment; `None` where it doesn't make the enlistment.
fn plan_by(e: EnlNo, c: &Call) -> Option<Plan>
    ensures { result ≡ plan_by e.value c.now }
{
    match *c {
        Call::Volatile(_, f, _, vote) => plan_if(e == f, plan(vote, None, None)),
        Call::Durable(_, f, _, support) => plan_if(e == f, support_plan(support)),
        Call::Promotable(_, f, _, vote, owner, promote) => {
            plan_if(e == f, plan(vote, owner, promote))
        }
        _ => None,
    }
}

/// The plan of an enlistment, by the last call that makes it.
fn plan_of(calls: &[EnteredCall], e: EnlNo) -> Plan
    ensures { result ≡ plan_of (past_of calls.now) e.value }
{
    let mut i = calls.len();
    while i > 0 {
        i -= 1;
        if let Some(found) = plan_by(e, &calls[i].call) {
            return found;
        }
    }
    plan(None, None, None)
}

/// The reply that an enlistment plans to a note; `None` where it is silent.
pub(crate) fn planned_reply(calls: &[EnteredCall], e: EnlNo, note: Note) -> Option<Reply>
    ensures { result ≡ planned (plan_of (past_of calls.now) e.value) note }
{
    let p = plan_of(calls, e);
    match note {
        Note::Prepare => p.vote.map(Reply::Vote),
        Note::Promote => p.promote.map(Reply::Promote),
        Note::Hand | Note::Single => p.owner.map(Reply::Owner),
        Note::Commit => Some(Reply::Ack),
        _ => None,
    }
}
