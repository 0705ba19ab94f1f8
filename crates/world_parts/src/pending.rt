//! The pending steps of a transaction, in their order.
ghost use Rattle.std.specs.Prelude.{◌≡◌, ◌==◌, ◌≤◌, ◌<◌, ◌+◌, ◌++◌, ◌||◌, [], IfSome, length, true, false};
ghost use Rattle.std.specs.List.{flat_map};
ghost use Rattle.arrayvec.specs.ArrayVec.{array_vec_len};
ghost use Rattle.dtx_values.specs.Table.{enl_number, insert_by};
ghost use Rattle.dtx_model.specs.Words.{has, past_of};
ghost use Rattle.dtx_model.specs.Acts.{act_entries};
ghost use Rattle.dtx_model.specs.Plans.{plan_of};
ghost use Rattle.dtx_model.specs.Observed.{Observed};
ghost use Rattle.dtx_model.specs.Replies.{due_of, names, with_name};
ghost use Rattle.dtx_model.specs.Steps.{core_act, deliveries_on, delivery_if, local_if, replies_due};
ghost use Rattle.dtx_model.specs.World.{has_left};
ghost use Rattle.dtx_model.specs.Outcome.{is_empty};
ghost use Rattle.dtx_model.specs.Coordinated.{may_free, may_log};
ghost use Rattle.dtx_values.specs.declared.message.Conn.{Conn};
ghost use Rattle.dtx_values.specs.declared.message.Dir.{Dir};
ghost use Rattle.dtx_values.specs.declared.message.Dir.TheVariants.{Up, Down};
ghost use Rattle.world_parts.specs.Pending.{IsAt, IsPlannedAt, IsReply, planned_to, reply_if, step_if};
ghost use Rattle.world_parts.specs.declared.pending.PendingStep.{PendingStep};

use crate::history::History;
use crate::plans::planned_reply;
use arrayvec::ArrayVec;
use coordinator_core::Core;
use dtx_model::EnteredCall;
use dtx_values::{Conn, Dir, End, EnlNo, Note, Reply, place_in_order};
use local_half::LocalHalf;

/// The most enlistments of which a reply may be due: 32 that stand, and 16 at the coordinator.
const NAMES: usize = 48;

/// A pending step.
#[derive(Clone, Copy)]
pub enum PendingStep {
    /// The reply of an enlistment to this note: the planned one.
    Reply(EnlNo, Note, Reply),
    /// The local act.
    Act,
    /// The coordinator's act.
    Coordinate,
    /// What comes on a connection in this direction.
    Deliver(Conn, Dir),
}

/// What is at a place of a list of pending steps.
#[derive(Clone, Copy)]
pub enum At {
    Step(PendingStep),
    /// Nothing: the list ends so many places before it.
    Beyond(usize),
}

/// The step, where it is pending, is at the first place; the others come after it.
fn first_if(pending: bool, s: PendingStep, more: usize) -> At
    ensures at { IsAt (step_if pending s) more result }
    ensures only { (t : PendingStep) → result ≡ At.Step t → (t ≡ s) × (pending ≡ true) }
{
    if !pending {
        return At::Beyond(more);
    }
    if more == 0 {
        return At::Step(s);
    }
    At::Beyond(more - 1)
}

/// Puts an enlistment at its place. The list has room for it.
fn put_in_order(items: &mut ArrayVec<EnlNo, NAMES>, e: EnlNo)
    requires { array_vec_len items.old < NAMES }
    ensures { items.new.items ≡ insert_by enl_number e items.old.items }
{
    let at = place_in_order(items.as_slice(), e.get());
    items.insert(at, e);
}

/// Whether an enlistment is among these.
fn is_named(items: &[EnlNo], e: EnlNo) -> bool
    ensures { result ≡ has (λ f. e.value == f.value) items.now }
{
    items.iter().any(|f| e == *f)
}

/// Puts an enlistment at its place, once. The list has room for it.
fn put_name(items: &mut ArrayVec<EnlNo, NAMES>, e: EnlNo)
    requires { array_vec_len items.old < NAMES }
    ensures { items.new.items ≡ with_name e items.old.items }
{
    if !is_named(items.as_slice(), e) {
        put_in_order(items, e);
    }
}

/// The enlistments of which a reply may be due, by number.
fn names(half: &LocalHalf) -> ArrayVec<EnlNo, NAMES>
    ensures { result.items ≡ names half.now.half.seen }
{
    half.is_few();
    let rows = half.rows();
    let mut found = ArrayVec::new();
    for x in rows {
        found.push(x.number);
    }
    let branches = half.branches();
    let mut i = branches.len();
    while i > 0 {
        i -= 1;
        let e = branches[i].enlistment;
        put_name(&mut found, e);
    }
    found
}

/// The step of an enlistment, where a reply of it is due, to this note, and planned.
fn reply_at(calls: &[EnteredCall], e: EnlNo, due: Option<Note>, more: usize) -> At
    ensures at { IsAt (reply_if e (planned_to (plan_of (past_of calls.now) e.value) due)) more result }
    ensures planned { (o : Observed) → due ≡ due_of o e.value → IsPlannedAt (plan_of (past_of calls.now)) o result }
    ensures only { (t : PendingStep) → result ≡ At.Step t → IsReply t }
{
    let Some(note) = due else {
        return At::Beyond(more);
    };
    let Some(reply) = planned_reply(calls, e, note) else {
        return At::Beyond(more);
    };
    first_if(true, PendingStep::Reply(e, note, reply), more)
}

/// The replies that are due and planned, row by row, where no enlistment stands at the coordinator.
fn row_replies_at(half: &LocalHalf, calls: &[EnteredCall], k: usize) -> At
    requires { half.now.half.seen.branches ≡ [] }
    ensures at { IsAt (replies_due (plan_of (past_of calls.now)) half.now.half) k result }
    ensures planned { IsPlannedAt (plan_of (past_of calls.now)) half.now.half.seen result }
    ensures only { (t : PendingStep) → result ≡ At.Step t → IsReply t }
{
    // Where votes alone may be due, a row that isn't waited for needs no look.
    let all = half.may_owe_more();
    let mut more = k;
    for x in half.rows() {
        if !all && (!x.is_marked() || x.has_voted()) {
            continue;
        }
        match reply_at(calls, x.number, half.due_note(x), more) {
            At::Beyond(n) => more = n,
            At::Step(s) => return At::Step(s),
        }
    }
    At::Beyond(more)
}

/// The replies that are due and planned, name by name.
fn named_replies_at(half: &LocalHalf, calls: &[EnteredCall], k: usize) -> At
    ensures at { IsAt (replies_due (plan_of (past_of calls.now)) half.now.half) k result }
    ensures planned { IsPlannedAt (plan_of (past_of calls.now)) half.now.half.seen result }
    ensures only { (t : PendingStep) → result ≡ At.Step t → IsReply t }
{
    let es = names(half);
    let mut more = k;
    for e in es.as_slice() {
        match reply_at(calls, *e, half.due_of(*e), more) {
            At::Beyond(n) => more = n,
            At::Step(s) => return At::Step(s),
        }
    }
    At::Beyond(more)
}

/// The replies that are due and planned.
pub fn replies_at(half: &LocalHalf, calls: &[EnteredCall], k: usize) -> At
    ensures at { IsAt (replies_due (plan_of (past_of calls.now)) half.now.half) k result }
    ensures planned { IsPlannedAt (plan_of (past_of calls.now)) half.now.half.seen result }
    ensures only { (t : PendingStep) → result ≡ At.Step t → IsReply t }
{
    // Most local acts come while nothing is due: then the enlistments aren't looked through.
    if !half.may_be_due() {
        return At::Beyond(k);
    }
    if half.branches().is_empty() {
        row_replies_at(half, calls, k)
    } else {
        named_replies_at(half, calls, k)
    }
}

/// The local act.
pub fn act_at(half: &LocalHalf, k: usize) -> At
    ensures at { IsAt (local_if (act_entries half.now.half)) k result }
    ensures only { (t : PendingStep) → result ≡ At.Step t → (t ≡ PendingStep.Act) × (is_empty (act_entries half.now.half) ≡ false) }
{
    first_if(half.has_act(), PendingStep::Act, k)
}

/// The coordinator's act.
pub fn core_at(core: &Core, k: usize) -> At
    ensures at { IsAt (core_act core.now.state) k result }
    ensures only { (t : PendingStep) → result ≡ At.Step t → (t ≡ PendingStep.Coordinate) × ((may_log core.now.state || may_free core.now.state) ≡ true) }
{
    first_if(
        core.may_log() || core.may_free(),
        PendingStep::Coordinate,
        k,
    )
}

/// What comes on a connection: upward first.
fn delivery_at(history: &History, c: Conn, k: usize) -> At
    ensures at { IsAt (delivery_if (has_left c Up history.now.past) c Up ++ delivery_if (has_left c Down history.now.past) c Down) k result }
    ensures only { (t : PendingStep) → result ≡ At.Step t → (e : Conn) × (d : Dir) × (t ≡ PendingStep.Deliver e d) × (has_left e d history.now.past ≡ true) }
{
    match first_if(
        history.has_left(c, Dir::Up),
        PendingStep::Deliver(c, Dir::Up),
        k,
    ) {
        At::Beyond(n) => first_if(
            history.has_left(c, Dir::Down),
            PendingStep::Deliver(c, Dir::Down),
            n,
        ),
        found => found,
    }
}

/// What comes on the connections, in their order.
pub fn deliveries_at(history: &History, ends: &[End], k: usize) -> At
    ensures at { IsAt (flat_map (deliveries_on history.now.past) ends.now) k result }
    ensures only { (t : PendingStep) → result ≡ At.Step t → (e : Conn) × (d : Dir) × (t ≡ PendingStep.Deliver e d) × (has_left e d history.now.past ≡ true) }
{
    let mut more = k;
    for n in ends {
        match delivery_at(history, n.connection, more) {
            At::Beyond(m) => more = m,
            At::Step(s) => return At::Step(s),
        }
    }
    At::Beyond(more)
}
