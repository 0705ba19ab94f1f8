//! A step of a transaction, or a reply that is asked for and brought back, where a thread has nothing of its own to do.
ghost use Rattle.std.specs.Prelude.{◌≡◌, IfErr, IsSome, length};
ghost use Rattle.tx_cells.specs.Board.{board_of};
ghost use Rattle.tx_cells.specs.Ties.{HasCause};

use dtx_values::{Resource, TxNo};
use lent_turns::{SharedRun, begin_turn, end_turn, is_of};
use outside::{Disk, Gate};
use std::alloc::Global;
use std::sync::{Mutex, Wait};
use tx_cells::{Cells, Run, SharedLog, TurnError};

/// Does what is to be done next in the transaction; false where that is nothing. A reply is asked for and brought back between two holds of its lock: the object of the manager is called, where it has one, and then the
/// gate. Where a step stopped the log, each transaction hears that behind the lock. What the client was told is put on the board in the hold that tells it.
///
/// # Errors
///
/// [`TurnError::Differs`] where another transaction's state is found, or the log doesn't tie with a transaction, and [`TurnError::Memory`] where memory ran out.
pub fn help_one<D: Disk, G: Gate, N: Run, R: Wait>(
    rt: &R,
    alloc: Global,
    cells: &Cells<N>,
    log: &SharedLog<D, N>,
    gate: &G,
    resources: &[Mutex<Box<dyn Resource + Send>>],
    t: TxNo,
) -> Result<bool, TurnError>
    requires transaction { IsSome (board_of cells.now t.value) }
    requires resources { length resources.now ≡ N.objects }
    ensures { IfErr result HasCause }
{
    let cell = cells.cell(t);
    let mut state = cell.state().lock(rt);
    is_of(&state, t)?;
    let mut note = cell.note();
    let came = begin_turn(rt, alloc, cell, log, &mut note, &mut state)?;
    drop(state);
    let run = SharedRun::new(cells, log, gate, resources);
    end_turn(rt, alloc, &run, cell, came)
}
