//! What a thread does with the state of a transaction that it is lent, inside its lock.
ghost use Rattle.std.specs.Prelude.{◌≡◌, ◌≢◌, ◌⊎◌, IfErr, IsSome, IsTrue, None, Ok, OnOk, Some, false, true};
ghost use Rattle.dtx_model.specs.Entries.{client_told_of};
ghost use Rattle.dtx_values.specs.TxIds.{first_id};
ghost use Rattle.dtx_model.specs.Steps.{pending};
ghost use Rattle.dtx_model.specs.Words.{kth, latest};
ghost use Rattle.tx_cells.specs.Board.{Post};
ghost use Rattle.tx_cells.specs.Entering.{IsKthDone};
ghost use Rattle.tx_cells.specs.Ties.{IsCause};
ghost use Rattle.tx_cells.specs.Turns.{with_tx};
ghost use Rattle.lent_turns.specs.Turning.{MayFail};

use crate::shared::unlent_mut;
use dtx_values::{Differs, EnlNo, Note, TxNo};
use outside::Disk;
use std::alloc::Global;
use std::sync::Wait;
use tx_cells::{BoardNote, CellState, LogState, Run, SharedLog, TurnError, TxCell};

/// What came of a turn inside the lock, and so what is to be done behind it.
#[derive(Clone, Copy, PartialEq, Eq, Debug)]
pub enum Came {
    /// Nothing was done.
    Nothing,
    /// A step was done, and the log is up or stopped as before.
    Done,
    /// A step was done, and it stopped the log.
    Stopped,
    /// The reply of this enlistment to this note is out, and is to be asked for.
    Out(EnlNo, Note),
}

/// That the state is that of this transaction.
pub fn is_of<N: Run>(state: &CellState<N>, t: TxNo) -> Result<(), TurnError>
    ensures of { OnOk result (first_id t ≡ state.now.tx.transaction) }
    ensures other { IfErr result (λ e. (e ≡ TurnError.Differs (Differs.Cell t state.now.tx.transaction.t)) × (state.now.tx.transaction.t ≢ t)) }
{
    let found = state.t();
    if found != t {
        return Err(TurnError::Differs(Differs::Cell(t, found)));
    }
    Ok(())
}

/// Puts what the client was told on the board, inside the lock of the transaction, unless a value is there. Nothing is put where the client wasn't told.
pub fn tell<N: Run>(
    alloc: Global,
    cell: &TxCell<N>,
    state: &CellState<N>,
    note: &mut BoardNote<N>,
) -> Result<(), TurnError>
    requires { note.old.cell ≡ cell.now.board }
    ensures cell { note.new.cell ≡ note.old.cell }
    ensures memory { IfErr result (λ e. e ≡ TurnError.Memory) }
    ensures known { OnOk result (IsSome (latest client_told_of state.now.tx.world.past) → (x : Post) × (note.new.known ≡ Some x)) }
    ensures kept { (x : Post) → note.old.known ≡ Some x → note.new.known ≡ Some x }
{
    if let Some(_) = cell.peek(note) {
        return Ok(());
    }
    if let Some(posted) = state.post(alloc)? {
        cell.post(posted, note);
    }
    Ok(())
}

/// Does the k-th pending step, from 1, inside the locks of its transaction and of the log.
#[tactic(auto, using(tx_cells::proofs::EitherWay::kth_over))]
fn do_over<D: Disk, N: Run>(
    state: &mut CellState<N>,
    log: &mut LogState<D, N>,
    k: u32,
) -> Result<Came, TurnError>
    ensures none { result ≡ Ok Came.Nothing → (kth (pending state.old.tx.world) k ≡ None) × (state.new ≡ state.old) × (log.new ≡ log.old) }
    ensures done { result ≡ Ok Came.Done → IsKthDone k state.old.tx state.new.tx × (log.new.log.is_up ≡ log.old.log.is_up) }
    ensures stopped { result ≡ Ok Came.Stopped → IsKthDone k state.old.tx state.new.tx × IsTrue log.old.log.is_up × (log.new.log.is_up ≡ false) }
    ensures never { (e : EnlNo) (n : Note) → result ≢ Ok (Came.Out e n) }
    ensures same { state.new ≡ with_tx state.new.tx state.old }
    ensures life { log.new.log.life ≡ log.old.log.life }
    ensures cause { IfErr result (λ e. ((e ≡ TurnError.Memory) ⊎ IsCause state.old.tx log.old.log e) × (state.new ≡ state.old) × (log.new ≡ log.old)) }
{
    let was_up = log.is_up();
    if !state.do_step_with(log, k)? {
        return Ok(Came::Nothing);
    }
    if was_up && !log.is_up() {
        Ok(Came::Stopped)
    } else {
        Ok(Came::Done)
    }
}

/// Does the k-th pending step, from 1, inside the lock of its transaction. A step that needs the log takes the lock of the log for as long.
pub(crate) fn do_turn<D: Disk, N: Run, R: Wait>(
    rt: &R,
    state: &mut CellState<N>,
    log: &SharedLog<D, N>,
    k: u32,
) -> Result<Came, TurnError>
    ensures none { result ≡ Ok Came.Nothing → (kth (pending state.old.tx.world) k ≡ None) × (state.new ≡ state.old) }
    ensures done { result ≡ Ok Came.Done → IsKthDone k state.old.tx state.new.tx }
    ensures stopped { result ≡ Ok Came.Stopped → IsKthDone k state.old.tx state.new.tx }
    ensures never { (e : EnlNo) (n : Note) → result ≢ Ok (Came.Out e n) }
    ensures same { state.new ≡ with_tx state.new.tx state.old }
    ensures cause { IfErr result (λ e. MayFail D state.old.tx e × (state.new ≡ state.old)) }
{
    if !state.needs_log(k) {
        let is_done = state.do_step(unlent_mut(log), k)?;
        return Ok(if is_done { Came::Done } else { Came::Nothing });
    }
    let mut held = log.state().lock(rt);
    do_over(state, &mut held, k)
}
