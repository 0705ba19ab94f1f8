//! Settling the transactions, as a replay does.
ghost use Rattle.std.specs.Prelude.{◌≡◌, ◌<◌, [], IfErr, IfSome, IsTrue, Ok, OnOk, Some, false, length, true};
ghost use Rattle.dtx_model.specs.Outcome.{is_empty};
ghost use Rattle.dtx_model.specs.Steps.{pending};
ghost use Rattle.dtx_model.specs.Words.{each};
ghost use Rattle.run_endings.specs.Finishing.{HaveSameCalls, HaveSameNumbers, MayAsk};
ghost use Rattle.run_endings.specs.Stops.{IsReason, StopsFor};
ghost use Rattle.tx_cells.specs.Cell.{MayReply};
ghost use Rattle.world_laws.specs.Left.{steps_left};

use super::following::follow_stop;
use crate::stop::RunStop;
use dtx_values::{EnlNo, Note, Reply, Resource, RmNo, TxNo};
use outside::Disk;
use script_calls::fits;
use tx_cells::{CellState, LogState, Run, TurnError};

/// What the object of the enlistment's manager replies to the note. `None` is the planned reply: there is no object, or it says nothing that fits the note.
fn ask<N: Run>(
    managers: &[Option<RmNo>],
    resources: &mut [Box<dyn Resource + Send>],
    t: TxNo,
    e: EnlNo,
    n: Note,
) -> Option<Reply>
    requires { MayAsk N.script N.objects managers.now (length resources.old) }
    ensures right { IfSome result (λ r. MayReply N.script N.objects e n r) }
    ensures given { IfSome result (λ r. (object : _) × (after : _) × gives object t e n (Some r) after) }
{
    let rm = (*managers.get(e.index())?)?;
    let object = resources.get_mut(rm.index())?;
    let r = object.on(t, e, n)?;
    if fits(r, n) { Some(r) } else { None }
}

/// Does the first pending step of the transaction; false where none is pending. Where it is a reply, the object of the enlistment's manager is asked for it first.
fn step<D: Disk, N: Run>(
    managers: &[Option<RmNo>],
    resources: &mut [Box<dyn Resource + Send>],
    state: &mut CellState<N>,
    log: &mut LogState<D, N>,
) -> Result<bool, TurnError>
    requires { MayAsk N.script N.objects managers.now (length resources.old) }
    ensures none { result ≡ Ok false → (pending state.old.tx.world ≡ []) × (state.new ≡ state.old) }
    ensures nearer { result ≡ Ok true → steps_left state.new.tx.world < steps_left state.old.tx.world }
    ensures rows { OnOk result (state.new.rows ≡ state.old.rows) }
    ensures log_rows { OnOk result (log.new.rows ≡ log.old.rows) }
    ensures still { OnOk result (IsTrue log.new.log.is_up → IsTrue log.old.log.is_up) }
    ensures cause { IfErr result (λ e. IsReason state.old.tx log.old.log e × (state.new.tx ≡ state.old.tx) × (log.new ≡ log.old)) }
    ensures transaction { state.new.tx.transaction ≡ state.old.tx.transaction }
{
    let Some((e, n)) = state.due_at(1) else {
        return state.do_step_with(log, 1);
    };
    let t = state.t();
    match ask::<N>(managers, resources, t, e, n) {
        Some(r) => state.take_back_with(log, e, n, r),
        None => state.do_step_with(log, 1),
    }
}

/// Does the pending steps of the transaction, each time the first, until none is left.
pub(super) fn settle<D: Disk, N: Run>(
    managers: &[Option<RmNo>],
    resources: &mut [Box<dyn Resource + Send>],
    state: &mut CellState<N>,
    log: &mut LogState<D, N>,
) -> Result<(), TurnError>
    requires { MayAsk N.script N.objects managers.now (length resources.old) }
    ensures settled { OnOk result (pending state.new.tx.world ≡ []) }
    ensures rows { OnOk result (state.new.rows ≡ state.old.rows) }
    ensures log_rows { OnOk result (log.new.rows ≡ log.old.rows) }
    ensures still { OnOk result (IsTrue log.new.log.is_up → IsTrue log.old.log.is_up) }
    ensures cause { IfErr result (IsReason state.new.tx log.new.log) }
    ensures transaction { state.new.tx.transaction ≡ state.old.tx.transaction }
{
    loop {
        if !step(managers, resources, state, log)? {
            return Ok(());
        }
    }
}

/// Settles the transactions in turn. Where a step of one stopped the log, each of them hears of that. As long as the log isn't stopped, no step of one makes another's pending: so then one round leaves nothing.
fn settle_round<D: Disk, N: Run>(
    managers: &[Option<RmNo>],
    resources: &mut [Box<dyn Resource + Send>],
    states: &mut [CellState<N>],
    log: &mut LogState<D, N>,
) -> Result<(), RunStop>
    requires { MayAsk N.script N.objects managers.now (length resources.old) }
    ensures settled { OnOk result (log.new.log.is_up ≡ log.old.log.is_up → each (λ c. is_empty (pending c.tx.world)) states.new ≡ true) }
    ensures calls { OnOk result (HaveSameCalls states.old states.new) }
    ensures numbers { HaveSameNumbers states.old states.new }
    ensures log_rows { OnOk result (log.new.rows ≡ log.old.rows) }
    ensures still { OnOk result (IsTrue log.new.log.is_up → IsTrue log.old.log.is_up) }
    ensures cause { IfErr result (StopsFor states.new log.new) }
{
    for i in 0..states.len() {
        let was_up = log.is_up();
        settle(managers, resources, &mut states[i], log)?;
        follow_stop(states, log, was_up)?;
    }
    Ok(())
}

/// Settles all transactions, round after round. A stop of the log in a round may leave something to do in those before; once it is stopped, it stops no more.
pub(super) fn settle_all<D: Disk, N: Run>(
    managers: &[Option<RmNo>],
    resources: &mut [Box<dyn Resource + Send>],
    states: &mut [CellState<N>],
    log: &mut LogState<D, N>,
) -> Result<(), RunStop>
    requires { MayAsk N.script N.objects managers.now (length resources.old) }
    ensures settled { OnOk result (each (λ c. is_empty (pending c.tx.world)) states.new ≡ true) }
    ensures calls { OnOk result (HaveSameCalls states.old states.new) }
    ensures numbers { HaveSameNumbers states.old states.new }
    ensures log_rows { OnOk result (log.new.rows ≡ log.old.rows) }
    ensures cause { IfErr result (StopsFor states.new log.new) }
{
    let was_up = log.is_up();
    settle_round(managers, resources, states, log)?;
    if log.is_up() == was_up {
        return Ok(());
    }
    settle_round(managers, resources, states, log)
}
