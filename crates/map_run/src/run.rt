//! The run.
ghost use Rattle.std.specs.Prelude.{ℕ, ◌≡◌, ◌≤◌, ◌^◌, [], IfOk, IsTrue, List, None, false, map, true};
ghost use Rattle.dtx_model.specs.AtLog.{has_log_line};
ghost use Rattle.dtx_model.specs.Caused.{Volatiles};
ghost use Rattle.dtx_model.specs.Grammar.{IsScript};
ghost use Rattle.dtx_model.specs.Outcome.{is_empty};
ghost use Rattle.dtx_model.specs.Traces.{Placed};
ghost use Rattle.coordinator_log.specs.Slots.{open_records};
ghost use Rattle.put_lines.specs.Input.{are_good};
ghost use Rattle.replay_runs.specs.Ending.{HasNone};
ghost use Rattle.replay_runs.specs.LogRun.{LogGoes, LogStays};
ghost use Rattle.map_run.specs.Rows.{row_of};
ghost use Rattle.map_run.specs.Runs.{IsTableRun};

use crate::load::load;
use coordinator_log::Log;
use dtx_values::Script;
use heard_notes::{Of, Put};
use outside::Disk;
use replay_runs::run_with;
use std::alloc::{AllocError, Global};
use tx_map::TxMap;

/// Runs a script, in the order of a replay, with one map as the object of all volatiles. The map has these puts before it starts: each is of a volatile of its transaction that the script makes, no key is put for
/// two of them, and none has more than 1,000 keys. A put is live until its enlistment hears the outcome: its Commit moves it into the map's base, its Rollback drops it.
///
/// The map that is left has as its base the puts of those that were told that their transaction committed, in order of key, the last put of each key. Asked to prepare, a volatile voted yes where it has puts, and done
/// where it has none.
///
/// # Errors
///
/// [`AllocError`] where memory ran out.
pub fn run_map<D: Disk>(
    alloc: Global,
    puts: &[Put],
    s: &Script,
    log: &mut Log<D>,
) -> Result<TxMap, AllocError>
    requires script { IsScript s.now }
    requires up { IsTrue log.old.is_up }
    requires unarmed { log.old.armed ≡ None }
    requires life { log.old.life ≤ 2 ^ 62 }
    requires none { IsTrue D.honest → HasNone (open_records log.old.slots) }
    requires good { are_good 1000 s.now Volatiles [] puts.now ≡ true }
    ensures table { IfOk result (λ m. (T : List Placed) × IsTableRun s.now puts.now (D.faults log.old.disk) (D.faults log.new.disk) D.honest (is_empty (open_records log.old.slots)) (map row_of m.base) T) }
    ensures log { LogGoes D.faults D.honest D.image log.old log.new }
    ensures stays { has_log_line s.now ≡ false → LogStays D.faults log.old log.new }
{
    let mut values = TxMap::new(alloc);
    load(&mut values, puts)?;
    run_with(alloc, s, log, Of::Volatiles, &mut values)?;
    Ok(values)
}
