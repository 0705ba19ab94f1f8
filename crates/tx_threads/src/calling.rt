//! A call of an actor at a transaction, and at the log.
ghost use Rattle.std.specs.Prelude.{◌≡◌, IfErr, IfOk, IsSome, None, Some, length};
ghost use Rattle.dtx_model.specs.Words.{has};
ghost use Rattle.dtx_values.specs.TxIds.{number_of};
ghost use Rattle.tx_cells.specs.Board.{board_of};
ghost use Rattle.tx_cells.specs.Entering.{Enters, IsDone, MayTurn, next_of, put_off};
ghost use Rattle.tx_cells.specs.LogAnswers.{put_off_at_log};
ghost use Rattle.tx_cells.specs.LogEntering.{EntersLog, MayTurnAtLog, next_at_log};
ghost use Rattle.tx_cells.specs.Ties.{HasCause};
ghost use Rattle.tx_cells.specs.declared.turns.Turned.{Turned};
ghost use Rattle.tx_threads.specs.Turning.{MayFail, is_answer_to, is_moved, is_other};

use dtx_values::{ActorNo, Answer, Entry, Resource, TxNo};
use entry_lists::Entries;
use lent_turns::{SharedRun, begin_turn, end_turn, go_round, is_of, tell, unlent};
use outside::{Disk, Gate};
use std::alloc::Global;
use std::sync::{Mutex, Wait};
use std::thread;
use tx_cells::{CellState, Cells, LogState, Run, SharedLog, TurnError, Turned, TxCell};

/// Enters the actor's next call inside the lock of its transaction, where it is of this line. Where it isn't, or waits, nothing is done. A line that may begin a promotion takes the lock of the log for as long.
fn enter<D: Disk, N: Run, R: Wait>(
    rt: &R,
    cells: &Cells<N>,
    log: &SharedLog<D, N>,
    state: &mut CellState<N>,
    a: ActorNo,
    line: u32,
) -> Result<Turned, TurnError>
    ensures entered { put_off state.old.tx.world line (next_of a state.old) ≡ None → IfOk result (λ r. Enters IsDone a line r state.old state.new) }
    ensures put_off { (x : Turned) → put_off state.old.tx.world line (next_of a state.old) ≡ Some x → IfOk result (λ r. (r ≡ x) × (state.new ≡ state.old)) }
    ensures called { IfOk result (MayTurn N.script (number_of state.old.tx.transaction) a line) }
    ensures cause { IfErr result (λ e. MayFail D state.old.tx e × (state.new ≡ state.old)) }
{
    if !cells.needs_log(line) {
        return state.enter(unlent(log), a, line);
    }
    let held = log.state().lock(rt);
    state.enter(Some(&held), a, line)
}

/// Enters the actor's next call, as `enter`, where the state is that of this transaction.
fn enter_of<D: Disk, N: Run, R: Wait>(
    rt: &R,
    cells: &Cells<N>,
    log: &SharedLog<D, N>,
    state: &mut CellState<N>,
    t: TxNo,
    a: ActorNo,
    line: u32,
) -> Result<Turned, TurnError>
    ensures called { IfOk result (MayTurn N.script t.value a line) }
    ensures cause { IfErr result HasCause }
{
    is_of(state, t)?;
    enter(rt, cells, log, state, a, line)
}

/// Whether the entry answers the call of this line.
fn is_answer_to(e: &Entry, line: u32) -> bool
    ensures { result ≡ is_answer_to line e.now }
{
    match e {
        Entry::Answered(n, _) => *n == line,
        _ => false,
    }
}

/// Whether the history answers the call of this line.
fn is_answered(history: &Entries, line: u32) -> bool
    ensures { result ≡ has (is_answer_to line) history.now.items }
{
    for i in 0..history.len() {
        if is_answer_to(&history.at(i), line) {
            return true;
        }
    }
    false
}

/// Does pending steps of the transaction, one a hold of its lock, until the call of this line is answered, or nothing is pending and no reply is out. It waits while a reply is out.
fn wait_for_answer<D: Disk, G: Gate, N: Run, R: Wait>(
    rt: &R,
    alloc: Global,
    run: &SharedRun<D, G, N>,
    cell: &TxCell<N>,
    line: u32,
) -> Result<(), TurnError>
    requires { length run.now.resources.now ≡ N.objects }
    ensures { IfErr result HasCause }
{
    for _ in rt.forever() {
        let mut state = cell.state().lock(rt);
        is_of(&state, cell.t())?;
        if is_answered(state.history(), line) || state.is_quiet() {
            return Ok(());
        }
        let mut note = cell.note();
        let came = begin_turn(rt, alloc, cell, run.log, &mut note, &mut state)?;
        drop(state);
        if !end_turn(rt, alloc, run, cell, came)? {
            thread::yield_now();
        }
    }
    unreachable!()
}

/// Enters the actor's next call at the transaction, where it is of this line and doesn't wait. Where its answer is to come later, it does pending steps of the transaction, one a hold of its lock, until that answer stands,
/// or nothing is pending and no reply is out.
///
/// # Errors
///
/// [`TurnError::Differs`] where another transaction's state is found, or the log doesn't tie with a transaction, and [`TurnError::Memory`] where memory ran out.
pub fn call_as<D: Disk, G: Gate, N: Run, R: Wait>(
    rt: &R,
    alloc: Global,
    cells: &Cells<N>,
    log: &SharedLog<D, N>,
    gate: &G,
    resources: &[Mutex<Box<dyn Resource + Send>>],
    a: ActorNo,
    line: u32,
    t: TxNo,
) -> Result<Turned, TurnError>
    requires transaction { IsSome (board_of cells.now t.value) }
    requires resources { length resources.now ≡ N.objects }
    ensures called { IfOk result (MayTurn N.script t.value a line) }
    ensures cause { IfErr result HasCause }
{
    let cell = cells.cell(t);
    let mut state = cell.state().lock(rt);
    let turned = enter_of(rt, cells, log, &mut state, t, a, line)?;
    tell(alloc, cell, &state, &mut cell.note())?;
    drop(state);
    if let Turned::Did(Answer::Wait) = turned {
        let run = SharedRun::new(cells, log, gate, resources);
        wait_for_answer(rt, alloc, &run, cell, line)?;
    }
    Ok(turned)
}

/// Enters the actor's next call at the log inside its lock, where it is of this line; and whether that stopped or opened the log.
fn enter_at_log<D: Disk, N: Run>(
    log: &mut LogState<D, N>,
    a: ActorNo,
    line: u32,
) -> Result<(Turned, bool), TurnError>
    ensures called { IfOk result (λ r. MayTurnAtLog N.script a line r.0) }
    ensures entered { put_off_at_log line (next_at_log a log.old) ≡ None → IfOk result (λ r. EntersLog D.faults D.honest D.seen a line r.0 log.old log.new) }
    ensures put_off { (x : Turned) → put_off_at_log line (next_at_log a log.old) ≡ Some x → IfOk result (λ r. (r.0 ≡ x) × (log.new ≡ log.old)) }
    ensures moved { IfOk result (λ r. r.1 ≡ is_moved log.old.log log.new.log) }
    ensures memory { IfErr result (λ e. (e ≡ TurnError.Memory) × (log.new ≡ log.old)) }
{
    let was_up = log.is_up();
    let life = log.log().life();
    let turned = log.enter(a, line)?;
    let is_moved = is_other(was_up, log.is_up()) || life != log.log().life();
    Ok((turned, is_moved))
}

/// Whether the two aren't the same.
fn is_other(a: bool, b: bool) -> bool
    ensures { result ≡ is_other a b }
{
    if a { !b } else { b }
}

/// Enters the actor's next call at the log, where it is of this line. Where that stopped or opened the log, each transaction hears of it behind the lock, before anything else is done.
///
/// # Errors
///
/// [`TurnError::Differs`] where another transaction's state is found, or the log doesn't tie with a transaction, and [`TurnError::Memory`] where memory ran out.
pub fn call_at_log<D: Disk, N: Run, R: Wait>(
    rt: &R,
    alloc: Global,
    cells: &Cells<N>,
    log: &SharedLog<D, N>,
    a: ActorNo,
    line: u32,
) -> Result<Turned, TurnError>
    ensures called { IfOk result (MayTurnAtLog N.script a line) }
    ensures cause { IfErr result HasCause }
{
    let mut held = log.state().lock(rt);
    let (turned, is_moved) = enter_at_log(&mut held, a, line)?;
    drop(held);
    if is_moved {
        go_round(rt, alloc, cells, log)?;
    }
    Ok(turned)
}
