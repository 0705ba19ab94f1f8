//! A run on threads, and the replay that stands in its place where the run doesn't hold together.
ghost use Rattle.std.specs.Prelude.{◌≡◌, ◌⊎◌, ◌≤◌, false, length, vec_len, IfErr, IfOk, IsErrOf, IsTrue};
ghost use Rattle.outside.specs.Faults.{Rose};
ghost use Rattle.dtx_model.specs.AtLog.{has_log_line};
ghost use Rattle.dtx_model.specs.Grammar.{IsScript};
ghost use Rattle.coordinator_log.specs.declared.layout.TheConstants.{LOG_BYTES};
ghost use Rattle.script_calls.specs.Threadable.{IsThreadable};
ghost use Rattle.tx_cells.specs.Fresh.{IsFresh};
ghost use Rattle.replay_runs.specs.Ending.{AreOwnLogs, IsLog};
ghost use Rattle.replay_runs.specs.LogRun.{MetNoFault};
ghost use Rattle.script_runner.specs.Program.{IsReplayOf, IsThreadsOf};

use call_order::{call_order, entered_calls};
use coordinator_log::Log;
use dtx_values::{Resource, Script};
use entry_lists::Trace;
use outside::{Disk, Gate};
use program_io::{FormatStop, formatted};
use replay_runs::{lawful, run_replay};
use std::alloc::{AllocError, Global};
use std::sync::Wait;
use std::thread::Threads;
use thread_runs::{RunStop, Setting, run_on_threads};

/// Why a run on threads gives no trace.
#[derive(Clone, Copy, PartialEq, Eq, Debug)]
pub enum ThreadsError {
    /// Memory ran out.
    Memory,
    /// The disk met a fault while the log was formatted anew.
    Fault,
}

/// The replay of a script over a log without a record, and the disk after it.
pub fn replayed_over<D: Disk>(
    alloc: Global,
    script: &Script,
    mut log: Log<D>,
    resources: &mut [Box<dyn Resource + Send>],
) -> (Result<Trace, AllocError>, D)
    requires script { IsScript script.now }
    requires fresh { IsFresh log }
    ensures replay { IfOk result.0 (λ T. IsReplayOf (length resources.old) (D.faults log.disk) (D.faults result.1) D.honest (D.image result.1) script.now T) }
    ensures grows { D.faults log.disk ≤ D.faults result.1 }
    ensures logs { IsTrue D.honest → AreOwnLogs (D.image result.1) }
    ensures whole { IsTrue D.honest → MetNoFault D.faults log.disk result.1 → has_log_line script.now ≡ false → IsLog (D.image result.1) }
    ensures room { LOG_BYTES ≤ D.size result.1 }
{
    // A proof sees here that each image is an empty log.
    let _ = log.is_up();
    let trace = run_replay(alloc, script, &mut log, resources);
    (trace, log.into_disk())
}

/// The replay of a script, with no object, over a disk that is made an empty log first.
fn replayed_anew<D: Disk>(
    alloc: Global,
    script: &Script,
    disk: D,
) -> (Result<Trace, ThreadsError>, D)
    requires script { IsScript script.now }
    requires room { LOG_BYTES ≤ D.size disk }
    ensures replay { IfOk result.0 (λ T. IsReplayOf 0 (D.faults disk) (D.faults result.1) D.honest (D.image result.1) script.now T) }
    ensures fault { IfErr result.0 (λ e. e ≡ ThreadsError.Fault → Rose (D.faults disk) (D.faults result.1)) }
    ensures grows { (IsErrOf result.0 ThreadsError.Fault → ⊥) → D.faults disk ≤ D.faults result.1 }
    ensures logs { IsTrue D.honest → (IsErrOf result.0 ThreadsError.Fault → ⊥) → (result.1 ≡ disk) ⊎ AreOwnLogs (D.image result.1) }
    ensures room { LOG_BYTES ≤ D.size result.1 }
{
    let log = match formatted(alloc, disk) {
        Ok(log) => log,
        Err((FormatStop::Fault, disk)) => return (Err(ThreadsError::Fault), disk),
        Err((FormatStop::Memory, disk)) => return (Err(ThreadsError::Memory), disk),
    };
    let mut none: Vec<Box<dyn Resource + Send>> = Vec::new(alloc);
    let (replayed, disk) = replayed_over(alloc, script, log, none.as_mut_slice());
    match replayed {
        Ok(trace) => (Ok(trace), disk),
        Err(_) => (Err(ThreadsError::Memory), disk),
    }
}

/// Runs a script on threads, each actor on one of its own, with so many helpers beside them, over a log that is up, on which no stop is armed, that has no record, and whose life is at most 2^62; and hands the disk back.
///
/// The object at place k of `resources`, from 0, is that of manager r(k + 1). It hears, outside each lock, each note to which a reply of one of its manager's enlistments is due, and its answer is the reply. The planned
/// reply is taken where there is no object, as for volatiles, and where it gives no answer or one that doesn't fit the note. The gate is called before each reply.
///
/// Where a call of the run finds that what a transaction keeps and what the log keeps of it differ, as over a disk that isn't honest, the run is dropped, the log is formatted anew, and the script is replayed with no object.
///
/// # Errors
///
/// - [`ThreadsError::Memory`] where memory ran out.
/// - [`ThreadsError::Fault`], only where the disk's count of faults rose while the log was formatted anew, or is the last value of its `u64`.
pub fn run_threads<D: Disk + Send, G: Gate + Sync, R: Threads + Wait + Sync>(
    rt: &R,
    alloc: Global,
    s: &Script,
    helpers: u8,
    log: Log<D>,
    gate: &G,
    resources: Vec<Box<dyn Resource + Send>>,
) -> (Result<Trace, ThreadsError>, D)
    requires script { IsThreadable s.now }
    requires fresh { IsFresh log }

    // The trace: a run of the script on threads, which is a settled history. On an honest disk each restart in it found what may be found; and so is each trace without a restart. Where that is so, it has one outcome for each
    // transaction, and is complete. The log at the end is in it.
    ensures run { IfOk result.0 (IsThreadsOf (vec_len resources) (D.faults log.disk) (D.faults result.1) D.honest (D.image result.1) s.now) }

    // Unless the disk met a fault while it was formatted anew, each image that a crash can leave is a log of the script's transactions alone.
    ensures fault { IfErr result.0 (λ e. e ≡ ThreadsError.Fault → Rose (D.faults log.disk) (D.faults result.1)) }
    ensures grows { (IsErrOf result.0 ThreadsError.Fault → ⊥) → D.faults log.disk ≤ D.faults result.1 }
    ensures logs { IsTrue D.honest → (IsErrOf result.0 ThreadsError.Fault → ⊥) → AreOwnLogs (D.image result.1) }
    ensures room { LOG_BYTES ≤ D.size result.1 }
{
    // These calls do nothing when they run: their bodies are empty. Each brings its law into this proof, from which the clauses follow.
    lawful();
    call_order();
    entered_calls();
    let (run, log) = run_on_threads(
        s,
        helpers,
        log,
        Setting {
            rt,
            alloc,
            gate,
            resources,
        },
    );
    let disk = log.into_disk();
    match run {
        Ok(trace) => (Ok(trace), disk),
        Err(RunStop::Memory) => (Err(ThreadsError::Memory), disk),
        Err(RunStop::Differs(_) | RunStop::Astray) => replayed_anew(alloc, s, disk),
    }
}
