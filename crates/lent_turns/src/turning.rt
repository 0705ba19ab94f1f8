//! One turn of a thread: what is to be done next in a transaction.
ghost use Rattle.std.specs.Prelude.{◌≡◌, IfErr, IfOk, IsSome, Ok, OnOk, Some, length};
ghost use Rattle.dtx_model.specs.Entries.{client_told_of};
ghost use Rattle.dtx_model.specs.Words.{latest};
ghost use Rattle.tx_cells.specs.Board.{Post};
ghost use Rattle.tx_cells.specs.Ties.{HasCause};
ghost use Rattle.tx_cells.specs.Turns.{turn_of};
ghost use Rattle.tx_cells.specs.declared.turns.Turn.{Turn};
ghost use Rattle.lent_turns.specs.Turning.{HasStepped, MayFail, is_turned, marked};

use crate::hearing::go_round;
use crate::holds::{Came, do_turn, tell};
use crate::replying::bring_back;
use crate::shared::SharedRun;
use dtx_values::{EnlNo, Note};
use outside::{Disk, Gate};
use std::alloc::Global;
use std::sync::Wait;
use tx_cells::{BoardNote, CellState, Run, SharedLog, Turn, TurnError, TxCell};

/// Does what is to be done next in the transaction, inside its lock: the step, or marks the reply as out that is to be asked for.
fn do_next<D: Disk, N: Run, R: Wait>(
    rt: &R,
    log: &SharedLog<D, N>,
    state: &mut CellState<N>,
) -> Result<Came, TurnError>
    ensures nothing { result ≡ Ok Came.Nothing → (turn_of state.old ≡ Turn.Nothing) × (state.new ≡ state.old) }
    ensures exactly { turn_of state.old ≡ Turn.Nothing → result ≡ Ok Came.Nothing }
    ensures done { result ≡ Ok Came.Done → HasStepped state.old state.new }
    ensures stopped { result ≡ Ok Came.Stopped → HasStepped state.old state.new }
    ensures out { (e : EnlNo) (n : Note) → result ≡ Ok (Came.Out e n) → (turn_of state.old ≡ Turn.Ask e n) × (state.new ≡ marked (e, n) state.old) }
    ensures cause { IfErr result (λ e. MayFail D state.old.tx e × (state.new ≡ state.old)) }
{
    match state.next_turn() {
        Turn::Nothing => Ok(Came::Nothing),
        Turn::Step(k) => do_turn(rt, state, log, k),
        Turn::Ask(e, n) => {
            state.mark_out(e, n)?;
            Ok(Came::Out(e, n))
        }
    }
}

/// Begins a turn inside the lock of the transaction: does what is to be done next there, and puts on the board what its client was told, unless a value is there.
pub fn begin_turn<D: Disk, N: Run, R: Wait>(
    rt: &R,
    alloc: Global,
    cell: &TxCell<N>,
    log: &SharedLog<D, N>,
    note: &mut BoardNote<N>,
    state: &mut CellState<N>,
) -> Result<Came, TurnError>
    requires { note.old.cell ≡ cell.now.board }
    ensures nothing { result ≡ Ok Came.Nothing → (turn_of state.old ≡ Turn.Nothing) × (state.new ≡ state.old) }
    ensures exactly { turn_of state.old ≡ Turn.Nothing → IfOk result (λ c. c ≡ Came.Nothing) }
    ensures done { result ≡ Ok Came.Done → HasStepped state.old state.new }
    ensures stopped { result ≡ Ok Came.Stopped → HasStepped state.old state.new }
    ensures out { (e : EnlNo) (n : Note) → result ≡ Ok (Came.Out e n) → (turn_of state.old ≡ Turn.Ask e n) × (state.new ≡ marked (e, n) state.old) }
    ensures cell { note.new.cell ≡ note.old.cell }
    ensures known { OnOk result (IsSome (latest client_told_of state.new.tx.world.past) → (x : Post) × (note.new.known ≡ Some x)) }
    ensures kept { (x : Post) → note.old.known ≡ Some x → note.new.known ≡ Some x }
    ensures cause { IfErr result (MayFail D state.old.tx) }
{
    let came = do_next(rt, log, state)?;
    tell(alloc, cell, state, note)?;
    Ok(came)
}

/// Goes on behind the lock in which a turn was begun, while none is held: where the turn stopped the log each transaction hears that, and a reply that is out is asked for and brought back. False where the turn did nothing.
pub fn end_turn<D: Disk, G: Gate, N: Run, R: Wait>(
    rt: &R,
    alloc: Global,
    run: &SharedRun<D, G, N>,
    cell: &TxCell<N>,
    came: Came,
) -> Result<bool, TurnError>
    requires { length run.now.resources.now ≡ N.objects }
    ensures turned { IfOk result (λ b. b ≡ is_turned came) }
    ensures cause { IfErr result HasCause }
{
    match came {
        Came::Nothing => return Ok(false),
        Came::Done => {}
        Came::Stopped => go_round(rt, alloc, run.cells, run.log)?,
        Came::Out(e, n) => bring_back(rt, alloc, run, cell, e, n)?,
    }
    Ok(true)
}
