//! Runs a script over a table that has puts, and writes the rows that it leaves.
ghost use Rattle.std.specs.Prelude.{◌≡◌, ◌≢◌, ◌⊎◌, ◌≤◌, ◌++◌, ℕ, List, [], Some, false, true, IfOk, IfErr, IsErrOf, IsTrue};
ghost use Rattle.std.specs.Option.{ForSome};
ghost use Rattle.outside.specs.Faults.{Rose};
ghost use Rattle.coordinator_log.specs.declared.layout.TheConstants.{LOG_BYTES};
ghost use Rattle.dtx_model.specs.AtLog.{has_log_line};
ghost use Rattle.dtx_model.specs.Grammar.{IsScript};
ghost use Rattle.dtx_model.specs.Traces.{Placed};
ghost use Rattle.heard_notes.specs.Tables.{table_text};
ghost use Rattle.heard_notes.specs.Whose.{whose};
ghost use Rattle.put_lines.specs.Input.{are_good};
ghost use Rattle.put_lines.specs.Rows.{pairs_of};
ghost use Rattle.replay_runs.specs.Ending.{AreOwnLogs, IsLog};
ghost use Rattle.replay_runs.specs.LogRun.{MetNoFault};
ghost use Rattle.tx_cells.specs.Fresh.{IsFresh};
ghost use Rattle.program_io.specs.Transfer.{IsPartWritten};
ghost use Rattle.script_runner.specs.Devices.{devices, telling};
ghost use Rattle.script_runner.specs.Tables.{IsTableOf, RunsTable, most_keys};

use crate::table::{most_keys, rows_left};
use coordinator_log::Log;
use heard_notes::Of;
use outside::{Disk, Sink, Source};
use program_io::{Exit, FormatStop, formatted, input_from, written};
use put_lines::{PutScript, TableRow, reads_one_input, table_lines};
use std::alloc::{AllocError, Global};

/// The rows that a run over a table leaves, where the log has no record, and the disk after it.
fn rows_after<D: Disk>(
    alloc: Global,
    of: Of,
    input: &PutScript,
    mut log: Log<D>,
) -> (Result<Vec<TableRow>, AllocError>, D)
    requires script { IsScript input.now.script }
    requires good { are_good (most_keys (whose of)) input.now.script (whose of) [] input.now.puts.items ≡ true }
    requires fresh { IsFresh log }
    ensures table { IfOk result.0 (λ rows. (T : List Placed) × IsTableOf (whose of) input.now.script input.now.puts.items (D.faults log.disk) (D.faults result.1) D.honest (pairs_of rows.items) T) }
    ensures grows { D.faults log.disk ≤ D.faults result.1 }
    ensures logs { IsTrue D.honest → AreOwnLogs (D.image result.1) }
    ensures whole { IsTrue D.honest → MetNoFault D.faults log.disk result.1 → has_log_line input.now.script ≡ false → IsLog (D.image result.1) }
    ensures room { LOG_BYTES ≤ D.size result.1 }
{
    // A proof sees here that each image is an empty log.
    let _ = log.is_up();
    let rows = rows_left(alloc, of, input, &mut log);
    (rows, log.into_disk())
}

/// The rows that a run over a table leaves, over the disk, which is made an empty log first and handed back; or how the call ends.
fn rows_anew<D: Disk>(
    alloc: Global,
    of: Of,
    input: &PutScript,
    disk: D,
) -> (Result<Vec<TableRow>, Exit>, D)
    requires script { IsScript input.now.script }
    requires good { are_good (most_keys (whose of)) input.now.script (whose of) [] input.now.puts.items ≡ true }
    requires room { LOG_BYTES ≤ D.size disk }
    ensures table { IfOk result.0 (λ rows. (T : List Placed) × IsTableOf (whose of) input.now.script input.now.puts.items (D.faults disk) (D.faults result.1) D.honest (pairs_of rows.items) T) }
    ensures only { IfErr result.0 (λ x. (x ≡ Exit.LogFault) ⊎ (x ≡ Exit.Memory)) }
    ensures fault { IsErrOf result.0 Exit.LogFault → Rose (D.faults disk) (D.faults result.1) }
    ensures grows { (IsErrOf result.0 Exit.LogFault → ⊥) → D.faults disk ≤ D.faults result.1 }
    ensures logs { IsTrue D.honest → (IsErrOf result.0 Exit.LogFault → ⊥) → (result.1 ≡ disk) ⊎ AreOwnLogs (D.image result.1) }
    ensures whole { IsTrue D.honest → MetNoFault D.faults disk result.1 → has_log_line input.now.script ≡ false → (result.1 ≡ disk) ⊎ IsLog (D.image result.1) }
    ensures room { LOG_BYTES ≤ D.size result.1 }
{
    let log = match formatted(alloc, disk) {
        Ok(log) => log,
        Err((FormatStop::Fault, disk)) => return (Err(Exit::LogFault), disk),
        Err((FormatStop::Memory, disk)) => return (Err(Exit::Memory), disk),
    };
    let (rows, disk) = rows_after(alloc, of, input, log);
    match rows {
        Ok(rows) => (Ok(rows), disk),
        Err(_) => (Err(Exit::Memory), disk),
    }
}

/// Writes the text of the rows to the sink.
fn rows_written<K: Sink>(alloc: Global, sink: &mut K, rows: &[TableRow]) -> Exit
    ensures all { result ≡ Exit.Fine → ForSome (K.written sink.old) (λ w. K.written sink.new ≡ Some (w ++ table_text (pairs_of rows.now))) }
    ensures cut { result ≡ Exit.WriteFault → ForSome (K.written sink.old) (λ w. IsPartWritten w (table_text (pairs_of rows.now)) (K.written sink.new)) }
    ensures memory { result ≡ Exit.Memory → (sink.new ≡ sink.old) ⊎ ForSome (K.written sink.old) (λ w. IsPartWritten w (table_text (pairs_of rows.now)) (K.written sink.new)) }
    ensures fault { result ≡ Exit.WriteFault → Rose (K.faults sink.old) (K.faults sink.new) }
    ensures smooth { result ≢ Exit.WriteFault → K.faults sink.new ≡ K.faults sink.old }
    ensures answers { (result ≡ Exit.Fine) ⊎ ((result ≡ Exit.WriteFault) ⊎ (result ≡ Exit.Memory)) }
{
    match table_lines(alloc, rows) {
        Ok(text) => written(sink, &text),
        Err(_) => Exit::Memory,
    }
}

/// Reads puts and a script from the source, formats the log on the disk, replays the script over a new table that has the puts, and writes the rows that it leaves to the sink.
pub fn table_in<S: Source, K: Sink, D: Disk>(
    alloc: Global,
    of: Of,
    source: &mut S,
    sink: &mut K,
    disk: D,
) -> (Exit, D)
    requires { LOG_BYTES ≤ D.size disk }
    ensures runs { RunsTable
        (telling S.left S.faults K.written K.faults D.honest D.seen D.image D.size D.faults)
        (whose of)
        (devices source.old sink.old disk) result.0 (devices source.new sink.new result.1) }
    ensures room { LOG_BYTES ≤ D.size result.1 }
{
    // This does nothing when it runs. It brings in that bytes are one input or are refused at one line for one cause, and never both, so that the answer which is given is the only one that fits.
    reads_one_input();
    let input = match input_from(alloc, most_keys(of), of, source) {
        Ok(input) => input,
        Err(exit) => return (exit, disk),
    };
    let (rows, disk) = rows_anew(alloc, of, &input, disk);
    match rows {
        Ok(rows) => (rows_written(alloc, sink, &rows), disk),
        Err(exit) => (exit, disk),
    }
}
