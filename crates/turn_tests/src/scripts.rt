//! Scripts and logs for the tests, and what is known of them.
ghost use Rattle.std.specs.Prelude.{◌≡◌, ◌≤◌, IfOk};
ghost use Rattle.coordinator_log.specs.declared.layout.TheConstants.{LOG_BYTES};
ghost use Rattle.dtx_model.specs.Words.{has};
ghost use Rattle.tx_cells.specs.Fresh.{IsFresh};
ghost use Rattle.tx_cells.specs.Cell.{IsThreadable, is_do_line};

use coordinator_log::{LOG_BYTES, Log};
use dtx_values::{Body, Line, Script};
use outside::{Disk, SureDisk};
use script_text::read_script;
use std::alloc::Global;
use std::test::Fail;

/// Whether the lines have a `do`.
fn has_do(lines: &[Line]) -> bool
    ensures { result ≡ has (λ l. is_do_line l.body) lines.now }
{
    lines.iter().any(|l| matches!(l.body, Body::Do(_, _, _)))
}

/// The script of a text that can run on threads.
pub fn threadable(alloc: Global, text: &[u8]) -> Result<Script, Fail>
    ensures { IfOk result IsThreadable }
{
    let Ok(script) = read_script(alloc, text) else {
        return Err("no script".into());
    };
    if has_do(script.lines()) {
        return Err("a line is a do".into());
    }
    Ok(script)
}

/// An empty log on this disk.
pub fn empty_log<D: Disk + Drop>(alloc: Global, disk: D) -> Result<Log<D>, Fail>
    requires { LOG_BYTES ≤ D.size disk }
    ensures { IfOk result IsFresh }
{
    match Log::format(alloc, disk) {
        Ok(log) => Ok(log),
        Err(_) => Err("no log".into()),
    }
}

/// An empty log on a disk that never fails.
pub fn sure_log(alloc: Global) -> Result<Log<SureDisk>, Fail>
    ensures { IfOk result IsFresh }
{
    empty_log(alloc, SureDisk::new(alloc, LOG_BYTES)?)
}
