//! What is known of the enlistments of managers at the coordinator.
ghost use Rattle.std.specs.Prelude.{◌≡◌, ◌&&◌, ◌||◌, not, find, IfSome, if◌then◌else◌};
ghost use Rattle.dtx_values.specs.Row.{is_of};
ghost use Rattle.dtx_values.specs.Vote.{still_hears};
ghost use Rattle.dtx_values.specs.declared.entry.Answer.TheVariants.{Fine, Stopped};
ghost use Rattle.dtx_model.specs.Observed.{is_branch};
ghost use Rattle.dtx_model.specs.Words.{has};
ghost use Rattle.dtx_model.specs.World.{is_connected, is_finished_there};
ghost use Rattle.world_parts.specs.Managers.{first_link, has_accepted, is_by, is_open_link, recovery_answer, returned};

use crate::history::History;
use coordinator_core::Core;
use dtx_model::Branch;
use dtx_values::{Answer, Conn, EnlNo, Info, RmNo, Row, Vote};
use local_half::LocalHalf;
use reenlist_recovery::ReenlistRefusal;

/// Whether an enlistment with this vote still hears.
fn still_hears(v: Option<Vote>) -> bool
    ensures { result ≡ still_hears v }
{
    matches!(v, None | Some(Vote::Yes))
}

/// Whether the row is that of the enlistment, which voted no or done.
fn is_out(x: &Row, e: EnlNo) -> bool
    ensures { result ≡ (is_of e.value x.now && not (still_hears x.now.vote)) }
{
    e == x.number && !still_hears(x.vote)
}

/// Whether the branch is that of the enlistment, which acknowledged the commit or was told the abort.
fn is_told(b: &Branch, e: EnlNo) -> bool
    ensures { result ≡ (is_branch e.value b.now && (b.now.acked || b.now.aborted)) }
{
    e == b.enlistment && (b.acked || b.aborted)
}

/// Whether one of these holds.
fn is_either(a: bool, b: bool) -> bool
    ensures { result ≡ (a || b) }
{
    a || b
}

/// Whether one of the branches is that of the enlistment, which acknowledged the commit or was told the abort.
fn is_any_told(branches: &[Branch], e: EnlNo) -> bool
    ensures { result ≡ has (λ b. is_branch e.value b && (b.acked || b.aborted)) branches.now }
{
    branches.iter().any(|b| is_told(b, e))
}

/// Whether one of the rows is that of the enlistment, which voted no or done.
fn is_any_out(rows: &[Row], e: EnlNo) -> bool
    ensures { result ≡ has (λ x. is_of e.value x && not (still_hears x.vote)) rows.now }
{
    rows.iter().any(|x| is_out(x, e))
}

/// Whether the enlistment acknowledged, was told the abort, voted no or done, or was handed the commit.
fn is_finished_there(half: &LocalHalf, e: EnlNo) -> bool
    ensures { result ≡ is_finished_there half.now.half.seen e.value }
{
    is_either(
        is_either(is_any_told(half.branches(), e), is_any_out(half.rows(), e)),
        half.is_handed(e),
    )
}

/// Whether one of the enlistment's own connections is linked.
fn is_connected(history: &History, e: EnlNo) -> bool
    ensures { result ≡ is_connected e history.now.past }
{
    history.is_linked(Conn::Enl(e)) || history.is_linked(Conn::Again(e))
}

/// Whether the branch isn't finished and is connected.
fn is_open_link(half: &LocalHalf, history: &History, b: &Branch) -> bool
    ensures { result ≡ is_open_link half.now.half.seen history.now.past b.now }
{
    !is_finished_there(half, b.enlistment) && is_connected(history, b.enlistment)
}

/// Whether the branch is of this manager.
fn is_by(b: &Branch, r: RmNo) -> bool
    ensures { result ≡ is_by r b.now }
{
    r == b.manager
}

/// Whether the branch is of this manager, and was accepted.
fn is_accepted(b: &Branch, r: RmNo) -> bool
    ensures { result ≡ (is_by r b.now && b.now.enlisted) }
{
    is_by(b, r) && b.enlisted
}

/// Whether one of these branches is of the manager and was accepted.
fn is_any_accepted(branches: &[Branch], r: RmNo) -> bool
    ensures { result ≡ has (λ b. is_by r b && b.enlisted) branches.now }
{
    branches.iter().any(|b| is_accepted(b, r))
}

/// Whether some branch of the manager was accepted.
fn has_accepted(half: &LocalHalf, r: RmNo) -> bool
    ensures { result ≡ has_accepted half.now.half.seen r }
{
    is_any_accepted(half.branches(), r)
}

/// Whether the branch is of the manager, isn't finished and is connected.
fn is_link_of(half: &LocalHalf, history: &History, b: &Branch, r: RmNo) -> bool
    ensures { result ≡ (is_by r b.now && is_open_link half.now.half.seen history.now.past b.now) }
{
    is_by(b, r) && is_open_link(half, history, b)
}

/// The first of these branches that is of the manager, isn't finished and is connected.
fn first_of(branches: &[Branch], half: &LocalHalf, history: &History, r: RmNo) -> Option<Branch>
    ensures { result ≡ find (λ b. is_by r b && is_open_link half.now.half.seen history.now.past b) branches.now }
{
    branches
        .iter()
        .copied()
        .find(|b| is_link_of(half, history, b, r))
}

/// The first branch of the manager that isn't finished and is connected.
fn first_link(half: &LocalHalf, history: &History, r: RmNo) -> Option<Branch>
    ensures { result ≡ first_link half.now.half.seen history.now.past r }
{
    first_of(half.branches(), half, history, r)
}

/// The answer where the coordinator stands stopped, and where it doesn't.
fn unless_stopped(stopped: bool) -> Answer
    ensures { result ≡ (if stopped then Stopped else Fine) }
{
    if stopped {
        Answer::Stopped
    } else {
        Answer::Fine
    }
}

/// The branch of an enlistment at the coordinator.
fn branch_of(branches: &[Branch], e: EnlNo) -> Option<Branch>
    ensures { result ≡ find (is_branch e.value) branches.now }
{
    branches.iter().copied().find(|b| b.enlistment == e)
}

/// The manager of an enlistment at the coordinator, and the first of all where it isn't there.
pub fn manager_of(branches: &[Branch], e: EnlNo) -> RmNo
    ensures { IfSome (find (is_branch e.value) branches.now) (λ b. result ≡ b.manager) }
{
    match branch_of(branches, e) {
        Some(b) => b.manager,
        None => RmNo::new(1).unwrap(),
    }
}

/// The answer of a `reenlist` that was checked so, once the transaction is begun. The information is that of the transaction's own enlistment.
pub fn returned(checked: Result<Info, ReenlistRefusal>) -> Answer
    ensures { result ≡ returned checked }
{
    match checked {
        Ok(_) => Answer::Fine,
        Err(
            ReenlistRefusal::BadInfo(_)
            | ReenlistRefusal::WrongTransaction(_, _)
            | ReenlistRefusal::NoSuch,
        ) => Answer::NoSuch,
        Err(ReenlistRefusal::Finished(_)) => Answer::Finished,
        Err(ReenlistRefusal::RecoveryOver(r)) => Answer::Over(r),
        Err(ReenlistRefusal::Connected(e)) => Answer::Connected(e),
        Err(ReenlistRefusal::Stopped) => Answer::Stopped,
    }
}

/// What it is answered that a manager has recovered, once the transaction is begun.
pub fn recovery_answer(half: &LocalHalf, core: &Core, history: &History, r: RmNo) -> Answer
    ensures { result ≡ recovery_answer half.now.half.seen core.now.state history.now.past r }
{
    if !has_accepted(half, r) {
        return Answer::NoSuch;
    }
    if core.has_recovered(r) {
        return Answer::Over(r);
    }
    match first_link(half, history, r) {
        Some(b) => Answer::Connected(b.enlistment),
        None => unless_stopped(core.is_stopped()),
    }
}
