//! The round after the log was stopped or opened.
ghost use Rattle.std.specs.Prelude.{IfErr};
ghost use Rattle.tx_cells.specs.Ties.{HasCause};

use crate::holds::{is_of, tell};
use outside::Disk;
use std::alloc::Global;
use std::sync::Wait;
use tx_cells::{Cells, Run, SharedLog, TurnError, TxCell};

/// The transaction hears what became of the log, in one hold of its lock with the log's inside it. What its client was told then is put on the board.
fn hear<D: Disk, N: Run, R: Wait>(
    rt: &R,
    alloc: Global,
    cell: &TxCell<N>,
    log: &SharedLog<D, N>,
) -> Result<(), TurnError>
    ensures { IfErr result HasCause }
{
    let mut state = cell.state().lock(rt);
    is_of(&state, cell.t())?;
    let held = log.state().lock(rt);
    state.follow_log(&held)?;
    drop(held);
    tell(alloc, cell, &state, &mut cell.note())
}

/// Each transaction of the run hears, by number, what became of the log. No lock is held before.
pub fn go_round<D: Disk, N: Run, R: Wait>(
    rt: &R,
    alloc: Global,
    cells: &Cells<N>,
    log: &SharedLog<D, N>,
) -> Result<(), TurnError>
    ensures { IfErr result HasCause }
{
    for cell in cells.all() {
        hear(rt, alloc, cell, log)?;
    }
    Ok(())
}
