//! The run.
ghost use Rattle.std.specs.Prelude.{ℕ, ◌≡◌, ◌≤◌, ◌^◌, [], IfOk, IsTrue, List, None, false, true};
ghost use Rattle.dtx_model.specs.AtLog.{has_log_line};
ghost use Rattle.dtx_model.specs.Caused.{Manager};
ghost use Rattle.dtx_model.specs.Grammar.{IsScript};
ghost use Rattle.dtx_model.specs.Outcome.{is_empty};
ghost use Rattle.dtx_model.specs.Traces.{Placed};
ghost use Rattle.coordinator_log.specs.Slots.{open_records};
ghost use Rattle.kv_resource.specs.Store.{open_records as kv_records, table_of};
ghost use Rattle.put_lines.specs.Input.{are_good};
ghost use Rattle.replay_runs.specs.Ending.{HasNone};
ghost use Rattle.replay_runs.specs.LogRun.{LogGoes, LogStays};
ghost use Rattle.store_run.specs.Runs.{IsTableRun};

use crate::load::{empty_store, load};
use coordinator_log::Log;
use dtx_values::{RmNo, Script};
use heard_notes::{Of, Put};
use kv_resource::Kv;
use outside::{Disk, SureDisk};
use replay_runs::run_with;
use std::alloc::{AllocError, Global};

/// Runs a script, in the order of a replay, with one store of keys as the object of all durables and promotables of manager r. The store is on a disk in memory that never fails, and is empty before
/// the puts. Each of these is of a durable or promotable of that manager, which the script makes of the put's transaction; no key is put for two of them, and none has more than 40 keys.
///
/// The table of the store that is left, a row for each key in order of key, has the puts of those that committed: that answered so as the owner, or acknowledged their commit. Where at most 1,024
/// enlistments have puts, each one of that manager was willing: asked to prepare it voted yes where it has puts, and done where it has none; as the owner it answered that it committed; and it could be
/// promoted, and requested to commit. With more of them the store runs out of slots. It then votes no, or as the owner answers that it aborted, and the table still has the puts of those that committed.
///
/// # Errors
///
/// [`AllocError`] where memory ran out.
pub fn run_store<D: Disk>(
    alloc: Global,
    r: RmNo,
    puts: &[Put],
    s: &Script,
    log: &mut Log<D>,
) -> Result<Kv<SureDisk>, AllocError>
    requires script { IsScript s.now }
    requires up { IsTrue log.old.is_up }
    requires unarmed { log.old.armed ≡ None }
    requires life { log.old.life ≤ 2 ^ 62 }
    requires none { IsTrue D.honest → HasNone (open_records log.old.slots) }
    requires good { are_good 40 s.now (Manager r) [] puts.now ≡ true }
    ensures table { IfOk result (λ k. (T : List Placed) × IsTableRun s.now r puts.now (D.faults log.old.disk) (D.faults log.new.disk) D.honest (is_empty (open_records log.old.slots)) (table_of (kv_records k.memory.slots)) T) }
    ensures log { LogGoes D.faults D.honest D.image log.old log.new }
    ensures stays { has_log_line s.now ≡ false → LogStays D.faults log.old log.new }
{
    let mut store = empty_store(alloc)?;
    load(&mut store, puts)?;
    run_with(alloc, s, log, Of::Manager(r), &mut store)?;
    Ok(store)
}

#[cfg(test)]
mod tests {
    use super::*;
    use coordinator_log::LOG_BYTES;
    use put_lines::{TableRow, read_input, table_lines};
    use std::test::Fail;

    /// A transaction commits, and another is rolled back.
    const ONE_OF_TWO: &str =
        "put t1 e1 7 70\nput t2 e2 8 80\nscript\na1 begin t1 default\na1 durable t1 e1 r1 single yes committed\na1 commit t1\na1 begin t2 default\na1 durable t2 e2 r1 single yes committed\na1 rollback t2\n";

    #[test]
    fn those_that_committed_stay(rt: HostRuntime) -> Result<(), Fail> {
        let r = RmNo::new(1).ok_or("no r1")?;
        let Ok(input) = read_input(rt.alloc(), ONE_OF_TWO.as_bytes(), 40, Of::Manager(r)) else {
            panic!(rt; "no input");
        };
        let Ok(mut log) = Log::format(rt.alloc(), SureDisk::new(rt.alloc(), LOG_BYTES)?) else {
            panic!(rt; "no log");
        };
        let store = run_store(rt.alloc(), r, &input.puts, &input.script, &mut log)?;
        let mut rows = Vec::new(rt.alloc());
        for row in store.table() {
            rows.push(TableRow {
                key: row.0,
                value: row.1,
            })?;
        }
        let text = table_lines(rt.alloc(), &rows)?;
        assert!(rt; text.as_slice() == b"7 70\n".as_slice(), "another table");
        Ok(())
    }
}
