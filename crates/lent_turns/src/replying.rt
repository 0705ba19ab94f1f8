//! A reply that is asked for while no lock is held, and brought back.
ghost use Rattle.std.specs.Prelude.{◌≡◌, ◌≢◌, ◌⊎◌, ℕ, IfErr, IfOk, IfSome, None, Ok, Some, false, length, true};
ghost use Rattle.dtx_model.specs.Steps.{Replies, pending};
ghost use Rattle.dtx_model.specs.Words.{kth};
ghost use Rattle.tx_cells.specs.Cell.{MayReply};
ghost use Rattle.tx_cells.specs.Entering.{IsDone, IsKthDone};
ghost use Rattle.tx_cells.specs.TakingBack.{TakesBack};
ghost use Rattle.tx_cells.specs.Ties.{HasCause};
ghost use Rattle.tx_cells.specs.Turns.{is_due, is_that, unmarked, with_tx};
ghost use Rattle.lent_turns.specs.Turning.{MayFail};
ghost use Rattle.tx_world.specs.Stepping.{reply_in};

use crate::hearing::go_round;
use crate::holds::{Came, do_turn, is_of, tell};
use crate::shared::{SharedRun, unlent};
use dtx_values::{EnlNo, Note, Reply, TxNo};
use outside::{Disk, Gate};
use script_calls::fits;
use std::alloc::Global;
use std::sync::Wait;
use tx_cells::{CellState, Run, SharedLog, TurnError, TxCell};

/// What the object of the enlistment's manager replies to the note, while no other lock is held. `None` is the planned reply: there is no object, or it says nothing that fits the note.
fn ask<D: Disk, G: Gate, N: Run, R: Wait>(
    rt: &R,
    run: &SharedRun<D, G, N>,
    t: TxNo,
    e: EnlNo,
    n: Note,
) -> Option<Reply>
    requires { length run.now.resources.now ≡ N.objects }
    ensures right { IfSome result (λ r. MayReply N.script N.objects e n r) }
    ensures given { IfSome result (λ r. (object : _) × (after : _) × gives object t e n (Some r) after) }
{
    let rm = run.cells.manager(e)?;
    let object = run.resources.get(rm.index())?;
    let mut held = object.lock(rt);
    let r = held.on(t, e, n)?;
    if fits(r, n) { Some(r) } else { None }
}

/// Takes back this reply of the enlistment to the note, inside the lock of its transaction. False where it isn't pending any more, and then only the mark goes. A reply to Promote takes the lock of the log for as long.
fn take_given<D: Disk, N: Run, R: Wait>(
    rt: &R,
    state: &mut CellState<N>,
    log: &SharedLog<D, N>,
    e: EnlNo,
    n: Note,
    r: Reply,
) -> Result<bool, TurnError>
    requires { MayReply N.script N.objects e n r }
    ensures taken { TakesBack IsDone e n r result state.old state.new }
    ensures cause { IfErr result (λ x. MayFail D state.old.tx x × (state.new.tx ≡ state.old.tx)) }
{
    if n != Note::Promote {
        return state.take_back(unlent(log), e, n, r);
    }
    let held = log.state().lock(rt);
    state.take_back(Some(&held), e, n, r)
}

/// Takes back the reply of the enlistment to this note, inside the lock of its transaction: this one, or else the planned one. Nothing is done where it isn't pending any more, and then only the mark goes. A reply to
/// Promote takes the lock of the log for as long.
fn take_reply<D: Disk, N: Run, R: Wait>(
    rt: &R,
    state: &mut CellState<N>,
    log: &SharedLog<D, N>,
    e: EnlNo,
    n: Note,
    reply: Option<Reply>,
) -> Result<Came, TurnError>
    requires { IfSome reply (λ r. MayReply N.script N.objects e n r) }
    ensures due { is_due state.old.tx.world (e, n) ≡ true → result ≢ Ok Came.Nothing }
    ensures late { is_due state.old.tx.world (e, n) ≡ false → IfOk result (λ c. (c ≡ Came.Nothing) × (state.new.tx ≡ state.old.tx)) }
    ensures given { (r : Reply) → reply ≡ Some r → result ≡ Ok Came.Done → IsDone (Replies e r) state.old.tx state.new.tx }
    ensures planned { reply ≡ None → IfOk result (λ c. (c ≡ Came.Nothing) ⊎ (k : ℕ) × (is_that (e, n) (reply_in state.old.tx.world (kth (pending state.old.tx.world) k)) ≡ true) × IsKthDone k state.old.tx state.new.tx) }
    ensures never { (f : EnlNo) (m : Note) → result ≢ Ok (Came.Out f m) }
    ensures unmarked { state.new ≡ with_tx state.new.tx (unmarked (e, n) state.old) }
    ensures cause { IfErr result (λ x. MayFail D state.old.tx x × (state.new.tx ≡ state.old.tx)) }
{
    let Some(r) = reply else {
        let Some(k) = state.unmark(e, n) else {
            return Ok(Came::Nothing);
        };
        return do_turn(rt, state, log, k);
    };
    let is_done = take_given(rt, state, log, e, n, r)?;
    Ok(if is_done { Came::Done } else { Came::Nothing })
}

/// Asks for the reply of the enlistment to this note, which is out, and brings it back. No lock is held before. The object of the manager is called, where it has one, and then the gate.
pub(crate) fn bring_back<D: Disk, G: Gate, N: Run, R: Wait>(
    rt: &R,
    alloc: Global,
    run: &SharedRun<D, G, N>,
    cell: &TxCell<N>,
    e: EnlNo,
    n: Note,
) -> Result<(), TurnError>
    requires { length run.now.resources.now ≡ N.objects }
    ensures { IfErr result HasCause }
{
    let t = cell.t();
    let reply = ask(rt, run, t, e, n);
    run.gate.at(t.get() as u16, e.get() as u16);
    let mut state = cell.state().lock(rt);
    is_of(&state, t)?;
    let came = take_reply(rt, &mut state, run.log, e, n, reply)?;
    tell(alloc, cell, &state, &mut cell.note())?;
    drop(state);
    if came == Came::Stopped {
        go_round(rt, alloc, run.cells, run.log)?;
    }
    Ok(())
}
