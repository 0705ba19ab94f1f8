//! Makes a disk an empty log.
ghost use Rattle.std.specs.Prelude.{◌≡◌, ◌≤◌, [], None, IfErr, IfOk, IsTrue};
ghost use Rattle.outside.specs.Faults.{Rose};
ghost use Rattle.coordinator_log.specs.Slots.{open_records};
ghost use Rattle.coordinator_log.specs.declared.layout.TheConstants.{LOG_BYTES};

use coordinator_log::{Log, LogRefusal};
use outside::Disk;
use std::alloc::Global;

/// Why the log wasn't formatted.
#[derive(Clone, Copy, PartialEq, Eq, Debug)]
pub enum FormatStop {
    /// A call of the disk met a fault.
    Fault,
    /// No memory was left.
    Memory,
}

/// Makes the disk an empty log, or hands it back.
pub fn formatted<D: Disk>(alloc: Global, disk: D) -> Result<Log<D>, (FormatStop, D)>
    requires { LOG_BYTES ≤ D.size disk }
    ensures up { IfOk result (λ log. IsTrue log.is_up) }
    ensures unarmed { IfOk result (λ log. log.armed ≡ None) }
    ensures life { IfOk result (λ log. log.life ≡ 0) }
    ensures empty { IfOk result (λ log. open_records log.slots ≡ []) }
    ensures smooth { IfOk result (λ log. D.faults log.disk ≡ D.faults disk) }
    ensures fault { IfErr result (λ e. e.0 ≡ FormatStop.Fault → Rose (D.faults disk) (D.faults e.1)) }
    ensures memory { IfErr result (λ e. e.0 ≡ FormatStop.Memory → e.1 ≡ disk) }
    ensures room { IfErr result (λ e. LOG_BYTES ≤ D.size e.1) }
{
    match Log::format(alloc, disk) {
        Ok(log) => Ok(log),
        Err((LogRefusal::Memory, disk)) => Err((FormatStop::Memory, disk)),
        Err((_, disk)) => Err((FormatStop::Fault, disk)),
    }
}
