//! What a resource holds of earlier processes, which its recovery finishes by the log.
ghost use Rattle.std.specs.Prelude.{◌≡◌, ◌⊎◌, ◌≤◌, [], List, None, Some, false, OnErr, OnOk, length, map, vec_capacity};
ghost use Rattle.std.specs.Option.{option_map};
ghost use Rattle.dtx_model.specs.Log.{record_of};
ghost use Rattle.dtx_model.specs.Words.{has};
ghost use Rattle.coordinator_log.specs.Slots.{open_records};
ghost use Rattle.log_epochs.specs.Epochs.{epoch_of};
ghost use Rattle.recovery_laws.specs.Finding.{finding_of, names, settled};
ghost use Rattle.resource_managers.specs.Holding.{Holding, holding_of};
ghost use Rattle.resource_managers.specs.Pairs.{pair_of};
ghost use Rattle.transactions.specs.Keeping.{AreNumbered};
ghost use Rattle.transactions.specs.Recovery.{IsFoundPartly, IsPartly, commits, finding_told, finish_told, finishes, first_obstacle, is_unnamed, obstacle_in, obstacle_to, outcome_by_commit};

use crate::live::Live;
use crate::recovered::{Finished, RecoverRefusal};
use crate::recovering::has_place;
use coordinator_log::Log;
use dtx_values::{EnlNo, LogRecord, Outcome, RmNo};
use log_epochs::epoch;
use outside::{Disk, Failed};
use recovery_laws::recovery_is_stepwise;
use resource_managers::{Enlistment, Held, Recoverable};

/// Whether a record names this enlistment of this manager.
fn names(r: &LogRecord, rm: RmNo, e: EnlNo) -> bool
    ensures { result ≡ names rm.value e.value (record_of r.now) }
{
    r.pairs()
        .iter()
        .any(|p| rm.get() == p.0.get() && e.get() == p.1.get())
}

/// What the log says of an enlistment in doubt.
#[derive(Clone, Copy, PartialEq, Eq, Debug)]
pub(crate) enum Found {
    /// The record of its transaction names it.
    Committed,
    /// Its transaction has no record, which means abort.
    Aborted,
    /// The record of its transaction doesn't name it.
    NotNamed,
}

/// What the log says of this manager's enlistment.
#[tactic(auto, unfolding(recovery_laws::specs::Finding::finding_of))]
fn find_in<D: Disk>(log: &Log<D>, rm: RmNo, e: Enlistment) -> Found
    ensures { finding_told result ≡ finding_of (open_records log.now.slots) rm.value (pair_of e) }
{
    match log.lookup(e.transaction().identifier()) {
        None => Found::Aborted,
        Some(r) if names(r, rm, e.number()) => Found::Committed,
        Some(_) => Found::NotNamed,
    }
}

/// Why a resource isn't recovered that holds this; none where that doesn't keep it from being recovered.
fn refusal<D: Disk>(
    log: &Log<D>,
    lives: &[Live],
    epoch: u32,
    rm: RmNo,
    h: Held,
) -> Option<RecoverRefusal>
    requires numbered { AreNumbered lives.now }
    requires epoch { epoch ≡ epoch_of (open_records log.now.slots) }
    ensures told { option_map obstacle_in result ≡ option_map (λ o. Some (o, pair_of h.enlistment)) (obstacle_to (open_records log.now.slots) lives.now rm.value (holding_of h)) }
{
    let e = h.enlistment;
    if e.transaction().number() / 65_536 > u64::from(epoch) {
        return Some(RecoverRefusal::Later(e));
    }
    if h.marked || h.prepared_here {
        return None;
    }
    if has_place(lives, e.transaction().identifier()) {
        return Some(RecoverRefusal::GoesOn(e));
    }
    match find_in(log, rm, e) {
        Found::NotNamed => Some(RecoverRefusal::NotNamed(e)),
        Found::Committed | Found::Aborted => None,
    }
}

/// Why a resource isn't recovered, by the first that it holds which keeps it from that.
pub(crate) fn first_refusal<D: Disk, R: Recoverable>(
    log: &Log<D>,
    lives: &[Live],
    rm: RmNo,
    r: &R,
) -> Option<RecoverRefusal>
    requires numbered { AreNumbered lives.now }
    ensures told { option_map obstacle_in result ≡ option_map Some (first_obstacle (open_records log.now.slots) lives.now rm.value (R.holds r.now)) }
    ensures named { result ≡ None → has (is_unnamed (open_records log.now.slots) rm.value) (R.holds r.now) ≡ false }
{
    let epoch = epoch(log);
    for place in 0..r.count() {
        if let Some(h) = r.held(place) {
            if let Some(refusal) = refusal(log, lives, epoch, rm, h) {
                return Some(refusal);
            }
        }
    }
    None
}

/// Whether this manager's enlistment committed, by the log.
fn is_committed<D: Disk>(log: &Log<D>, rm: RmNo, e: Enlistment) -> bool
    ensures { result ≡ commits (finding_of (open_records log.now.slots) rm.value (pair_of e)) }
{
    match find_in(log, rm, e) {
        Found::Committed => true,
        Found::Aborted | Found::NotNamed => false,
    }
}

/// The outcome of what committed, or didn't.
fn outcome(committed: bool) -> Outcome
    ensures { result ≡ outcome_by_commit committed }
{
    if committed {
        Outcome::Committed
    } else {
        Outcome::Aborted
    }
}

/// Finishes what a resource holds in doubt, by the log, and puts that to the others.
///
/// # Errors
///
/// [`Failed`] where its disk failed, now or before.
pub(crate) fn finish_all<D: Disk, R: Recoverable>(
    log: &Log<D>,
    rm: RmNo,
    r: &mut R,
    finished: &mut Vec<Finished>,
) -> Result<(), Failed>
    requires named { has (is_unnamed (open_records log.now.slots) rm.value) (R.holds r.old) ≡ false }
    requires empty { finished.old.items ≡ [] }
    requires room { length (R.holds r.old) ≤ vec_capacity finished.old }
    ensures settled { OnOk result (R.holds r.new ≡ settled (open_records log.now.slots) rm.value (R.holds r.old)) }
    ensures told { OnOk result (map finish_told finished.new.items ≡ finishes (open_records log.now.slots) rm.value (R.holds r.old)) }
    ensures partly { IsPartly (open_records log.now.slots) rm.value (R.holds r.old) (R.holds r.new) }
    ensures images { (hs : List Holding) → R.leaves r.new hs → R.leaves r.old hs ⊎ IsFoundPartly (open_records log.now.slots) rm.value (R.holds r.old) hs }
    ensures cause { OnErr result (R.fails r.old r.new) }
    ensures since { OnOk result ((x : R) → R.fails r.new x → R.fails r.old x) }
{
    recovery_is_stepwise();
    while let Some(e) = r.in_doubt() {
        let committed = is_committed(log, rm, e);
        r.finish(e, committed)?;
        finished.push_reserved(Finished {
            enlistment: e,
            outcome: outcome(committed),
        });
    }
    Ok(())
}
