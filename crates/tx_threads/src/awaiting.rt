//! A call that waits for the outcome.
ghost use Rattle.std.specs.Prelude.{◌≡◌, ◌&&◌, IfErr, IfOk, IsSome, None, Ok, Some, false, is_some, length, not, true};
ghost use Rattle.dtx_values.specs.declared.entry.Answer.{Answer};
ghost use Rattle.dtx_values.specs.TxIds.{number_of};
ghost use Rattle.dtx_values.specs.declared.words.Outcome.{Outcome};
ghost use Rattle.dtx_model.specs.Entries.{client_told_of};
ghost use Rattle.dtx_model.specs.Words.{latest};
ghost use Rattle.tx_cells.specs.Board.{Post, board_of};
ghost use Rattle.tx_cells.specs.Entering.{Enters, IsDone, MayTurn};
ghost use Rattle.tx_cells.specs.Ties.{HasCause};
ghost use Rattle.tx_cells.specs.declared.turns.Turned.{Turned};
ghost use Rattle.tx_threads.specs.Turning.{is_await_at, is_of_line, is_quiet};

use dtx_values::{ActorNo, Call, Resource, TxNo};
use lent_turns::{SharedRun, begin_turn, end_turn, is_of, tell, unlent};
use outside::{Disk, Gate};
use script_calls::Due;
use std::alloc::Global;
use std::sync::{Mutex, Wait};
use std::thread;
use tx_cells::{BoardNote, CellState, Cells, Run, SharedLog, TurnError, Turned, TxCell};

/// Whether the transaction goes on: the client wasn't told, and a step is pending or a reply is out.
#[tactic(auto, unfolding(dtx_model::specs::Observed::observe))]
fn goes_on<N: Run>(state: &CellState<N>) -> bool
    ensures { result ≡ (not (is_some (latest client_told_of state.now.tx.world.past)) && not (is_quiet state.now)) }
{
    state.told().is_none() && !state.is_quiet()
}

/// Whether the next call is that of this line.
fn is_of_line(next: &Option<Due<Call>>, line: u32) -> bool
    ensures { result ≡ is_of_line line next.now }
{
    match next {
        Some(due) => due.line == line,
        None => false,
    }
}

/// Enters the actor's await inside the lock of its transaction, unless that goes on: the client wasn't told, and a step is pending or a reply is out. Where the client was told, the board has that then, and the note knows it.
fn enter_await<D: Disk, N: Run>(
    alloc: Global,
    cell: &TxCell<N>,
    log: &SharedLog<D, N>,
    note: &mut BoardNote<N>,
    state: &mut CellState<N>,
    a: ActorNo,
    line: u32,
) -> Result<Turned, TurnError>
    requires board { note.old.cell ≡ cell.now.board }
    requires awaits { is_await_at N.script line ≡ true }
    ensures cell { note.new.cell ≡ note.old.cell }
    ensures known { (o : Outcome) → result ≡ Ok (Turned.Did (Answer.OutcomeIs o)) → (x : Post) × (note.new.known ≡ Some x) }
    ensures kept { (x : Post) → note.old.known ≡ Some x → note.new.known ≡ Some x }
    ensures entered { (x : Answer) → result ≡ Ok (Turned.Did x) → Enters IsDone a line (Turned.Did x) state.old state.new }
    ensures open { result ≡ Ok (Turned.Did Answer.StillOpen) → (latest client_told_of state.old.tx.world.past ≡ None) × (is_quiet state.old ≡ true) }
    ensures later { result ≡ Ok Turned.Later → (latest client_told_of state.old.tx.world.past ≡ None) × (is_quiet state.old ≡ false) × (state.new ≡ state.old) }
    ensures called { IfOk result (MayTurn N.script (number_of state.old.tx.transaction) a line) }
    ensures memory { IfErr result (λ e. (e ≡ TurnError.Memory) × (state.new ≡ state.old)) }
{
    tell(alloc, cell, state, note)?;
    let next = state.next(a);
    if goes_on(state) && is_of_line(&next, line) {
        return Ok(Turned::Later);
    }
    state.enter(unlent(log), a, line)
}

/// Waits for the outcome of the transaction, and then enters the actor's next call there, which is the await of this line. Until then it does pending steps, one a hold of the lock, and waits while a reply is out. The board
/// is seen first. The hold that enters the call first puts on the board what the client was told, unless a value is there: so where the answer is an outcome, the note knows it. The answer is that the transaction is still
/// open only where nothing was pending, no reply was out, and the client wasn't told.
///
/// # Errors
///
/// [`TurnError::Differs`] where another transaction's state is found, or the log doesn't tie with a transaction, and [`TurnError::Memory`] where memory ran out.
pub fn await_as<D: Disk, G: Gate, N: Run, R: Wait>(
    rt: &R,
    alloc: Global,
    cells: &Cells<N>,
    log: &SharedLog<D, N>,
    gate: &G,
    resources: &[Mutex<Box<dyn Resource + Send>>],
    note: &mut BoardNote<N>,
    a: ActorNo,
    line: u32,
    t: TxNo,
) -> Result<Turned, TurnError>
    requires transaction { board_of cells.now t.value ≡ Some note.old.cell }
    requires resources { length resources.now ≡ N.objects }
    requires awaits { is_await_at N.script line ≡ true }
    ensures cell { note.new.cell ≡ note.old.cell }
    ensures known { (o : Outcome) → result ≡ Ok (Turned.Did (Answer.OutcomeIs o)) → (x : Post) × (note.new.known ≡ Some x) }
    ensures kept { (x : Post) → note.old.known ≡ Some x → note.new.known ≡ Some x }
    ensures called { IfOk result (MayTurn N.script t.value a line) }
    ensures cause { IfErr result HasCause }
{
    let run = SharedRun::new(cells, log, gate, resources);
    let cell = cells.cell(t);
    let _ = cell.peek(note);
    for _ in rt.forever() {
        let mut state = cell.state().lock(rt);
        is_of(&state, t)?;
        let turned = enter_await(alloc, cell, log, note, &mut state, a, line)?;
        if turned != Turned::Later {
            return Ok(turned);
        }
        let came = begin_turn(rt, alloc, cell, log, note, &mut state)?;
        drop(state);
        if !end_turn(rt, alloc, &run, cell, came)? {
            thread::yield_now();
        }
    }
    unreachable!()
}
