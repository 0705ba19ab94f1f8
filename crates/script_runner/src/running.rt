//! Runs a script over a disk that is made an empty log first.
ghost use Rattle.std.specs.Prelude.{◌≡◌, ◌⊎◌, ◌≤◌, ℕ, false, length, true, vec_len, IfErr, IfOk, IsErrOf, IsTrue};
ghost use Rattle.outside.specs.Faults.{Rose};
ghost use Rattle.coordinator_log.specs.declared.layout.TheConstants.{LOG_BYTES};
ghost use Rattle.dtx_model.specs.Grammar.{IsScript};
ghost use Rattle.dtx_model.specs.Words.{each};
ghost use Rattle.script_calls.specs.Threadable.{IsThreadable};
ghost use Rattle.tx_cells.specs.Fresh.{IsFresh};
ghost use Rattle.replay_runs.specs.Ending.{AreOwnLogs, IsLog};
ghost use Rattle.replay_runs.specs.LogRun.{MetNoFault};
ghost use Rattle.program_io.specs.Refusal.{IsRunnable};
ghost use Rattle.script_runner.specs.Program.{IsRunBy};
ghost use Rattle.dtx_model.specs.AtLog.{has_log_line};
ghost use Rattle.trace_text.specs.OneTrace.{is_carried_at, is_frame_typed_at, is_got_carried_at, is_typed_at};

use crate::threads::{ThreadsError, replayed_over, run_threads};
use coordinator_log::Log;
use outside::{Disk, Gate};
use program_io::{Exit, FormatStop, Way, formatted};
use script_text::Script;
use std::sync::Wait;
use std::thread::Threads;
use thread_runs::Setting;
use trace_text::{Trace, typed_trace};

/// The trace of a run of this way over a log without a record, and the disk after it.
fn traced<D: Disk + Send, G: Gate + Sync, R: Threads + Wait + Sync>(
    way: Way,
    script: &Script,
    log: Log<D>,
    setting: Setting<G, R>,
) -> (Result<Trace, ThreadsError>, D)
    requires script { IsRunnable way script.now }
    requires fresh { IsFresh log }
    ensures run { IfOk result.0 (λ T. IsRunBy way (vec_len setting.entry.resources) (D.faults log.disk) (D.faults result.1) D.honest (D.image result.1) script.now T) }
    ensures fault { IfErr result.0 (λ e. e ≡ ThreadsError.Fault → Rose (D.faults log.disk) (D.faults result.1)) }
    ensures grows { (IsErrOf result.0 ThreadsError.Fault → ⊥) → D.faults log.disk ≤ D.faults result.1 }
    ensures logs { IsTrue D.honest → (IsErrOf result.0 ThreadsError.Fault → ⊥) → AreOwnLogs (D.image result.1) }
    ensures whole { way ≡ Way.Replay → IsTrue D.honest → MetNoFault D.faults log.disk result.1 → has_log_line script.now ≡ false → IsLog (D.image result.1) }
    ensures room { LOG_BYTES ≤ D.size result.1 }
{
    let Setting {
        rt,
        alloc,
        gate,
        mut resources,
    } = setting;
    match way {
        Way::Replay => {
            let (replayed, disk) = replayed_over(alloc, script, log, resources.as_mut_slice());
            match replayed {
                Ok(trace) => (Ok(trace), disk),
                Err(_) => (Err(ThreadsError::Memory), disk),
            }
        }
        Way::Threads(helpers) => run_threads(rt, alloc, script, helpers, log, gate, resources),
    }
}

/// The trace of a run of this way over the disk, which is made an empty log first and handed back; or how the call ends.
pub fn traced_anew<D: Disk + Send, G: Gate + Sync, R: Threads + Wait + Sync>(
    way: Way,
    script: &Script,
    disk: D,
    setting: Setting<G, R>,
) -> (Result<Trace, Exit>, D)
    requires script { IsRunnable way script.now }
    requires room { LOG_BYTES ≤ D.size disk }
    ensures run { IfOk result.0 (λ T. IsRunBy way (vec_len setting.entry.resources) (D.faults disk) (D.faults result.1) D.honest (D.image result.1) script.now T) }
    ensures typed { IfOk result.0 (λ T. each is_typed_at T ≡ true) }
    ensures frame_typed { IfOk result.0 (λ T. each is_frame_typed_at T ≡ true) }
    ensures carried { IfOk result.0 (λ T. each is_carried_at T ≡ true) }
    ensures got_carried { IfOk result.0 (λ T. each is_got_carried_at T ≡ true) }
    ensures only { IfErr result.0 (λ x. (x ≡ Exit.LogFault) ⊎ (x ≡ Exit.Memory)) }
    ensures fault { IsErrOf result.0 Exit.LogFault → Rose (D.faults disk) (D.faults result.1) }
    ensures grows { (IsErrOf result.0 Exit.LogFault → ⊥) → D.faults disk ≤ D.faults result.1 }
    ensures logs { IsTrue D.honest → (IsErrOf result.0 Exit.LogFault → ⊥) → (result.1 ≡ disk) ⊎ AreOwnLogs (D.image result.1) }
    ensures whole { way ≡ Way.Replay → IsTrue D.honest → MetNoFault D.faults disk result.1 → has_log_line script.now ≡ false → (result.1 ≡ disk) ⊎ IsLog (D.image result.1) }
    ensures room { LOG_BYTES ≤ D.size result.1 }
{
    let log = match formatted(setting.alloc, disk) {
        Ok(log) => log,
        Err((FormatStop::Fault, disk)) => return (Err(Exit::LogFault), disk),
        Err((FormatStop::Memory, disk)) => return (Err(Exit::Memory), disk),
    };
    let (traced, disk) = traced(way, script, log, setting);
    match traced {
        Ok(trace) => {
            // It brings in that the numbers of this trace are those of their types.
            typed_trace(&trace);
            (Ok(trace), disk)
        }
        Err(ThreadsError::Fault) => (Err(Exit::LogFault), disk),
        Err(ThreadsError::Memory) => (Err(Exit::Memory), disk),
    }
}
