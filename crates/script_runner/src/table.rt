//! The rows that a run leaves in what holds the values that were put before it.
ghost use Rattle.std.specs.Prelude.{◌≡◌, List, [], false, map, true, IfOk};
ghost use Rattle.dtx_model.specs.AtLog.{has_log_line};
ghost use Rattle.dtx_model.specs.Caused.{Manager, Volatiles};
ghost use Rattle.dtx_model.specs.Grammar.{IsScript};
ghost use Rattle.dtx_model.specs.Traces.{Placed};
ghost use Rattle.heard_notes.specs.Whose.{whose};
ghost use Rattle.map_run.specs.Rows.{row_of};
ghost use Rattle.put_lines.specs.Input.{are_good};
ghost use Rattle.put_lines.specs.Rows.{pairs_of};
ghost use Rattle.replay_runs.specs.LogRun.{LogGoes, LogStays};
ghost use Rattle.tx_cells.specs.Fresh.{IsFresh};
ghost use Rattle.script_runner.specs.Tables.{IsTableOf, most_keys};

use coordinator_log::Log;
use dtx_values::RmNo;
use heard_notes::Of;
use map_run::run_map;
use outside::Disk;
use put_lines::{PutScript, TableRow};
use std::alloc::{AllocError, Global};
use store_run::run_store;
use tx_map::MapEntry;

/// The most keys of an enlistment that a table hears: of a manager's, whose table is a key store on a disk in memory, or of a volatile, whose table is a map in memory.
pub fn most_keys(of: Of) -> usize
    ensures { result ≡ most_keys (whose of) }
{
    match of {
        Of::Manager(_) => 40,
        Of::Volatiles => 1_000,
    }
}

/// The entries of a map as rows.
fn map_rows(alloc: Global, entries: &[MapEntry]) -> Result<Vec<TableRow>, AllocError>
    ensures { IfOk result (λ rows. pairs_of rows.items ≡ map row_of entries.now) }
{
    let mut rows = Vec::new(alloc);
    for x in entries {
        rows.push(TableRow {
            key: x.key,
            value: x.value,
        })?;
    }
    Ok(rows)
}

/// The rows of a store, each with its names.
fn store_rows(alloc: Global, pairs: &[(u32, u64)]) -> Result<Vec<TableRow>, AllocError>
    ensures { IfOk result (λ rows. pairs_of rows.items ≡ pairs.now) }
{
    let mut rows = Vec::new(alloc);
    for x in pairs {
        rows.push(TableRow {
            key: x.0,
            value: x.1,
        })?;
    }
    Ok(rows)
}

/// The rows that a run over a map leaves, where the log has no record.
fn map_after<D: Disk>(
    alloc: Global,
    input: &PutScript,
    log: &mut Log<D>,
) -> Result<Vec<TableRow>, AllocError>
    requires script { IsScript input.now.script }
    requires good { are_good 1000 input.now.script Volatiles [] input.now.puts.items ≡ true }
    requires fresh { IsFresh log.old }
    ensures table { IfOk result (λ rows. (T : List Placed) × IsTableOf Volatiles input.now.script input.now.puts.items (D.faults log.old.disk) (D.faults log.new.disk) D.honest (pairs_of rows.items) T) }
    ensures log { LogGoes D.faults D.honest D.image log.old log.new }
    ensures stays { has_log_line input.now.script ≡ false → LogStays D.faults log.old log.new }
{
    let map = run_map(alloc, &input.puts, &input.script, log)?;
    map_rows(alloc, map.entries())
}

/// The rows that a run over a store leaves, where the log has no record.
fn store_after<D: Disk>(
    alloc: Global,
    manager: RmNo,
    input: &PutScript,
    log: &mut Log<D>,
) -> Result<Vec<TableRow>, AllocError>
    requires script { IsScript input.now.script }
    requires good { are_good 40 input.now.script (Manager manager) [] input.now.puts.items ≡ true }
    requires fresh { IsFresh log.old }
    ensures table { IfOk result (λ rows. (T : List Placed) × IsTableOf (Manager manager) input.now.script input.now.puts.items (D.faults log.old.disk) (D.faults log.new.disk) D.honest (pairs_of rows.items) T) }
    ensures log { LogGoes D.faults D.honest D.image log.old log.new }
    ensures stays { has_log_line input.now.script ≡ false → LogStays D.faults log.old log.new }
{
    let store = run_store(alloc, manager, &input.puts, &input.script, log)?;
    store_rows(alloc, store.table())
}

/// The rows that a run over a table leaves, where the log has no record.
pub fn rows_left<D: Disk>(
    alloc: Global,
    of: Of,
    input: &PutScript,
    log: &mut Log<D>,
) -> Result<Vec<TableRow>, AllocError>
    requires script { IsScript input.now.script }
    requires good { are_good (most_keys (whose of)) input.now.script (whose of) [] input.now.puts.items ≡ true }
    requires fresh { IsFresh log.old }
    ensures table { IfOk result (λ rows. (T : List Placed) × IsTableOf (whose of) input.now.script input.now.puts.items (D.faults log.old.disk) (D.faults log.new.disk) D.honest (pairs_of rows.items) T) }
    ensures log { LogGoes D.faults D.honest D.image log.old log.new }
    ensures stays { has_log_line input.now.script ≡ false → LogStays D.faults log.old log.new }
{
    match of {
        Of::Manager(manager) => store_after(alloc, manager, input, log),
        Of::Volatiles => map_after(alloc, input, log),
    }
}
