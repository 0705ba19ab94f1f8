//! The trace of a run on threads: the contexts by actor, the transactions by number, then the log.
ghost use Rattle.std.specs.Prelude.{ℕ, ◌≡◌, ◌++◌, ◌<◌, [], IfOk, OnOk, map, true};
ghost use Rattle.std.specs.List.{All};
ghost use Rattle.dtx_model.specs.Traces.{noted, placed};
ghost use Rattle.dtx_model.specs.Words.{past_of};
ghost use Rattle.thread_runs.specs.Contexts.{AreContexts, entries_of};
ghost use Rattle.run_endings.specs.Finished.{AreFinished};
ghost use Rattle.thread_runs.specs.Gathering.{HasContexts, IsCellOf, are_in_order, with_histories, with_log};
ghost use Rattle.thread_runs.specs.Run.{RanOnThreads};

use call_order::{call_order, entered_calls};
use dtx_values::{ActorNo, Entry, Place};
use entry_lists::{Entries, PlacedEntries, Trace};
use outcome_law::crossings;
use outside::Disk;
use std::alloc::{AllocError, Global};
use tx_cells::{CellState, LogState, Run};

/// The trace of a run whose threads ended and whose caller did the rest: what the scope lines wrote at each actor's context, by actor; then the history of each transaction, by number; and then the entries at the log.
///
/// # Errors
///
/// Where memory ran out.
pub fn gathered<D: Disk, N: Run>(
    alloc: Global,
    contexts: &[Entries],
    states: &[CellState<N>],
    log: &LogState<D, N>,
) -> Result<Trace, AllocError>
    requires finished { AreFinished N.script states.now log.now }
    requires contexts { AreContexts N.script (map (λ e. e.items) contexts.now) }
    ensures run { IfOk result (RanOnThreads D.faults D.honest D.image N.script N.objects N.faults log.now.log) }
    ensures laid { IfOk result (λ T. are_in_order (past_of T) ≡ true) }
{
    // These calls do nothing when they run. Each brings its law into this proof, from which the clauses follow.
    entered_calls();
    call_order();
    crossings();
    are_kept(states);
    log.is_kept();
    let _ = log.log().is_up();
    let mut trace = PlacedEntries::new(alloc);
    write_contexts(&mut trace, contexts)?;
    write_histories(&mut trace, states)?;
    write_log(&mut trace, log.entries())?;
    Ok(Trace::new(trace))
}

/// What each of these locks gave, as its type knows it. It does nothing when it runs; a caller's proof asks for it.
fn are_kept<N: Run>(states: &[CellState<N>])
    ensures { All (IsCellOf N.script N.objects N.honest) states.now }
{
    for state in states {
        state.is_caused();
        state.is_kept();
    }
}

/// Puts into an empty trace what stands at the contexts, by actor.
fn write_contexts(trace: &mut PlacedEntries, contexts: &[Entries]) -> Result<(), AllocError>
    requires { trace.old.items ≡ [] }
    ensures { OnOk result (HasContexts (map (λ e. e.items) contexts.now) (past_of trace.new.items)) }
{
    for n in 1..ActorNo::MAX + 1 {
        let actor = ActorNo::new(n).unwrap();
        write_context(trace, contexts, actor)?;
    }
    Ok(())
}

/// Puts at the end of the trace what stands at this actor's context; nothing where there is no list for it.
fn write_context(
    trace: &mut PlacedEntries,
    contexts: &[Entries],
    actor: ActorNo,
) -> Result<(), AllocError>
    ensures { OnOk result (trace.new.items ≡ trace.old.items ++ noted actor (entries_of actor (map (λ e. e.items) contexts.now))) }
{
    if let Some(entries) = contexts.get(actor.index()) {
        trace.reserve(entries.len())?;
        trace.push_from(Place::Context(actor), entries, 0);
    }
    Ok(())
}

/// Puts at the end of the trace the history of each of these transactions, in order.
fn write_histories<N: Run>(
    trace: &mut PlacedEntries,
    states: &[CellState<N>],
) -> Result<(), AllocError>
    ensures { OnOk result (past_of trace.new.items ≡ with_histories states.now (past_of trace.old.items)) }
{
    for state in states {
        write_history(trace, state)?;
    }
    Ok(())
}

/// Puts at the end of the trace the history of this transaction.
fn write_history<N: Run>(trace: &mut PlacedEntries, state: &CellState<N>) -> Result<(), AllocError>
    ensures { OnOk result (past_of trace.new.items ≡ placed state.now.tx.transaction.t state.now.tx.world.past ++ past_of trace.old.items) }
{
    let history = state.history();
    trace.reserve(history.len())?;
    trace.push_from(Place::Transaction(state.t()), history, 0);
    Ok(())
}

/// Puts at the end of the trace the entries at the log.
fn write_log(trace: &mut PlacedEntries, entries: &[Entry]) -> Result<(), AllocError>
    ensures { OnOk result (past_of trace.new.items ≡ with_log (past_of entries.now) (past_of trace.old.items)) }
{
    trace.reserve(entries.len())?;
    for entry in entries {
        trace.push_reserved((Place::Log, *entry));
    }
    Ok(())
}
