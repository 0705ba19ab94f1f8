//! The run itself.
ghost use Rattle.std.specs.Prelude.{◌≡◌, ◌≤◌, IfErr, IfOk, IsTrue, map, vec_len};
ghost use Rattle.tx_cells.specs.Cell.{IsThreadable};
ghost use Rattle.tx_cells.specs.Fresh.{IsFresh, MayBegin};
ghost use Rattle.tx_cells.specs.LogCell.{AreOwn};
ghost use Rattle.thread_runs.specs.Contexts.{AreContexts};
ghost use Rattle.run_endings.specs.Stops.{IsNamed};
ghost use Rattle.thread_runs.specs.Run.{EachHolds, RanOnThreads};

use crate::contexts::outline_of;
use crate::gathering::gathered;
use coordinator_log::Log;
use dtx_values::{Resource, Script};
use entry_lists::{Entries, Trace};
use outside::{Disk, Gate};
use run_endings::{RunStop, finish};
use script_calls::{Plans, managers_of};
use std::alloc::{AllocError, Global};
use std::marker::Brand;
use std::sync::atomic::AtomicU64;
use std::sync::{Mutex, Wait};
use std::thread::Threads;
use tx_threads::{CellState, Cells, LogState, Run, SharedLog};

mod threads;
mod turns;

use threads::{call_all, highest_in, split_at_par};
use turns::Shared;

/// In what a script is run: what starts threads and lets them wait, where memory comes from, the gate before each reply on threads, and the objects of the first managers, in order.
#[derive(Drop)]
pub struct Setting<'a, G, R> {
    pub rt: &'a R,
    pub alloc: Global,
    pub gate: &'a G,
    pub resources: Vec<Box<dyn Resource + Send>>,
}

/// What the threads of a run leave, but the log: what stands at each actor's context, the transactions by number, and the objects.
#[derive(Drop)]
struct Left<N: Run> {
    contexts: Vec<Entries>,
    states: Vec<CellState<N>>,
    resources: Vec<Box<dyn Resource + Send>>,
}

/// Each object behind a lock.
fn locked(
    alloc: Global,
    resources: Vec<Box<dyn Resource + Send>>,
) -> Result<Vec<Mutex<Box<dyn Resource + Send>>>, AllocError>
    ensures { IfOk result (λ v. vec_len v ≡ vec_len resources) }
{
    let mut shared = Vec::new(alloc);
    for r in resources {
        shared.push(Mutex::new(r))?;
    }
    Ok(shared)
}

/// The objects again.
fn unlocked(
    alloc: Global,
    shared: Vec<Mutex<Box<dyn Resource + Send>>>,
) -> Result<Vec<Box<dyn Resource + Send>>, AllocError>
    ensures { IfOk result (λ v. vec_len v ≡ vec_len shared) }
{
    let mut resources = Vec::new(alloc);
    for lock in shared {
        resources.push(lock.into_inner())?;
    }
    Ok(resources)
}

/// The threads of a run over this log, and what goes before them.
fn threads_over<N: Run + Send + Sync, D: Disk + Send, G: Gate + Sync, R: Threads + Wait + Sync>(
    s: &Script,
    helpers: u8,
    log: &SharedLog<D, N>,
    setting: Setting<G, R>,
) -> Result<Left<N>, RunStop>
    requires named { s.now ≡ N.script }
    requires script { IsThreadable s.now }
    requires objects { vec_len setting.resources ≡ N.objects }
    ensures contexts { IfOk result (λ x. AreContexts N.script (map (λ h. h.items) x.contexts.items)) }
    ensures objects { IfOk result (λ x. vec_len x.resources ≡ N.objects) }
    ensures named { IfErr result IsNamed }
{
    let alloc = setting.alloc;
    let plans = Plans::new(alloc, s.lines())?;
    let outline = outline_of(alloc, &plans)?;
    let cells = Cells::new(alloc, s)?;
    let locks = locked(alloc, setting.resources)?;
    let (alone, apart) = split_at_par(s.lines(), &outline.to_do);
    let ended = AtomicU64::new(0);
    let shared = Shared {
        lines: s.lines(),
        cells: &cells,
        log,
        gate: setting.gate,
        resources: locks.as_slice(),
        actors: highest_in(apart),
        ended: &ended,
    };
    call_all(setting.rt, alloc, &shared, helpers, alone, apart)?;
    Ok(Left {
        contexts: outline.contexts,
        states: cells.into_states(alloc)?,
        resources: unlocked(alloc, locks)?,
    })
}

/// What the caller does after the threads, and the trace.
fn trace_of<N: Run, D: Disk>(
    alloc: Global,
    s: &Script,
    left: Left<N>,
    log: &mut LogState<D, N>,
) -> Result<Trace, RunStop>
    requires named { s.now ≡ N.script }
    requires contexts { AreContexts N.script (map (λ h. h.items) left.contexts.items) }
    requires objects { vec_len left.resources ≡ N.objects }
    ensures run { IfOk result (RanOnThreads D.faults D.honest D.image N.script N.objects N.faults log.new.log) }
    ensures named { IfErr result IsNamed }
{
    let Left {
        contexts,
        mut states,
        mut resources,
    } = left;
    let managers = managers_of(alloc, s.lines())?;
    finish(s, &managers, &mut resources, &mut states, log)?;
    let trace = gathered(alloc, &contexts, &states, log)?;
    Ok(trace)
}

/// The run under its name.
fn run_named<N: Run + Send + Sync, D: Disk + Send, G: Gate + Sync, R: Threads + Wait + Sync>(
    s: &Script,
    helpers: u8,
    log: Log<D>,
    setting: Setting<G, R>,
) -> (Result<Trace, RunStop>, Log<D>)
    requires begins { MayBegin N.script N.honest N.faults D.honest D.faults s.now log }
    requires objects { vec_len setting.resources ≡ N.objects }
    ensures run { IfOk result.0 (RanOnThreads D.faults D.honest D.image N.script N.objects N.faults result.1) }
    ensures named { IfErr result.0 IsNamed }
    ensures grows { N.faults ≤ D.faults result.1.disk }
    ensures images { IsTrue D.honest → EachHolds (D.image result.1.disk) (AreOwn N.script) }
{
    let alloc = setting.alloc;
    // A proof sees here what the images of the disk have.
    let _ = log.is_up();
    let shared = match SharedLog::<D, N>::over(alloc, log, s) {
        Ok(shared) => shared,
        Err((_, log)) => return (Err(RunStop::Memory), log),
    };
    let left = threads_over(s, helpers, &shared, setting);
    let mut state = shared.into_state();
    let trace = match left {
        Ok(left) => trace_of(alloc, s, left, &mut state),
        Err(stop) => Err(stop),
    };
    // And here what the log's type keeps.
    state.is_kept();
    let (log, _entries) = state.into_parts();
    (trace, log)
}

/// Runs a script on threads in this setting: the lines before its `par` by the caller, then each actor's further lines on a thread of its own, with so many helpers beside them, and the rest by the caller again. The
/// log is up, no stop is armed there, it has no record, and its life is at most 2^62. The first managers have an object each, as many as are given.
///
/// # Errors
///
/// [`RunStop::Memory`] where memory ran out, [`RunStop::Differs`] where what two keep of the same differs, as over a disk that isn't honest, and [`RunStop::Astray`] where a transaction doesn't follow the log at the end, or a call of a line before `par` doesn't come first. The log is handed back in each case.
pub fn run_on_threads<D: Disk + Send, G: Gate + Sync, R: Threads + Wait + Sync>(
    s: &Script,
    helpers: u8,
    log: Log<D>,
    setting: Setting<G, R>,
) -> (Result<Trace, RunStop>, Log<D>)
    requires script { IsThreadable s.now }
    requires fresh { IsFresh log }

    // The trace, which is a run of the script on threads, and the log after it.
    ensures run { IfOk result.0 (RanOnThreads D.faults D.honest D.image s.now (vec_len setting.entry.resources) (D.faults log.disk) result.1) }

    // After an error memory ran out, or two kept values differ, which are named, or what stands at the end isn't what is to stand there.
    ensures named { IfErr result.0 IsNamed }

    // Also after an error each image that a crash can leave is a log of the script's transactions alone.
    ensures grows { D.faults log.disk ≤ D.faults result.1.disk }
    ensures images { IsTrue D.honest → EachHolds (D.image result.1.disk) (AreOwn s.now) }
{
    run_named::<Brand, D, G, R>(s, helpers, log, setting)
}
