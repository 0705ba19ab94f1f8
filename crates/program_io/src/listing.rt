//! Lists the log on a disk.
ghost use Rattle.std.specs.Prelude.{◌≡◌, ◌≢◌, ◌⊎◌, ◌≤◌, ◌++◌, ℕ, Err, IsTrue, Some};
ghost use Rattle.std.specs.Option.{ForSome};
ghost use Rattle.outside.specs.Faults.{Rose};
ghost use Rattle.dtx_model.specs.Log.{log_has};
ghost use Rattle.coordinator_log.specs.declared.layout.TheConstants.{LOG_BYTES};
ghost use Rattle.log_listing.specs.Listing.{listing_of};
ghost use Rattle.program_io.specs.Listed.{HoldsSame, IsListed, IsListedInPart};
ghost use Rattle.program_io.specs.Transfer.{IsPartWritten};

use crate::exit::Exit;
use crate::writing::written;
use coordinator_log::{Log, LogRefusal};
use log_listing::list_log;
use outside::{Disk, Sink};
use std::alloc::Global;

/// Writes the listing of a log to the sink.
fn write_listing<K: Sink, D: Disk>(alloc: Global, sink: &mut K, log: &Log<D>) -> Exit
    ensures all { result ≡ Exit.Fine → ForSome (K.written sink.old) (λ w. K.written sink.new ≡ Some (w ++ listing_of log.now.slots)) }
    ensures cut { result ≡ Exit.WriteFault → ForSome (K.written sink.old) (λ w. IsPartWritten w (listing_of log.now.slots) (K.written sink.new)) }
    ensures memory { result ≡ Exit.Memory → (sink.new ≡ sink.old) ⊎ ForSome (K.written sink.old) (λ w. IsPartWritten w (listing_of log.now.slots) (K.written sink.new)) }
    ensures fault { result ≡ Exit.WriteFault → Rose (K.faults sink.old) (K.faults sink.new) }
    ensures smooth { result ≢ Exit.WriteFault → K.faults sink.new ≡ K.faults sink.old }
    ensures answers { (result ≡ Exit.Fine) ⊎ ((result ≡ Exit.WriteFault) ⊎ (result ≡ Exit.Memory)) }
{
    match list_log(alloc, log.records()) {
        Ok(text) => written(sink, &text),
        Err(_) => Exit::Memory,
    }
}

/// Reads the log on the disk, changes nothing of it, and writes its listing to the sink.
pub fn list_in<K: Sink, D: Disk>(alloc: Global, sink: &mut K, disk: D) -> (Exit, D)
    requires { LOG_BYTES ≤ D.size disk }

    // What is written: the whole listing with Fine; else a part of it, or nothing.
    ensures listed { result.0 ≡ Exit.Fine → IsListed D.honest (D.seen disk) (K.written sink.old) (K.written sink.new) }
    ensures cut_short { result.0 ≡ Exit.WriteFault → IsListedInPart D.honest (D.seen disk) (K.written sink.old) (K.written sink.new) }
    ensures memory { result.0 ≡ Exit.Memory → (sink.new ≡ sink.old) ⊎ IsListedInPart D.honest (D.seen disk) (K.written sink.old) (K.written sink.new) }
    ensures unwritten { (result.0 ≡ Exit.LogFault) ⊎ ((p : ℕ) × (result.0 ≡ Exit.NotALog p)) → sink.new ≡ sink.old }

    // NotALog(p) comes exactly where what a read gives is no log, and p is the first place of another form; what else may come there is a fault of the disk or want of memory.
    ensures no_log { IsTrue D.honest → (p : ℕ) → result.0 ≡ Exit.NotALog p → log_has (D.seen disk) ≡ Err p }
    ensures refused { IsTrue D.honest → (p : ℕ) → log_has (D.seen disk) ≡ Err p → (result.0 ≡ Exit.NotALog p) ⊎ ((result.0 ≡ Exit.LogFault) ⊎ (result.0 ≡ Exit.Memory)) }
    ensures answers { (result.0 ≡ Exit.Fine) ⊎ ((result.0 ≡ Exit.LogFault) ⊎ ((result.0 ≡ Exit.WriteFault) ⊎ ((result.0 ≡ Exit.Memory) ⊎ ((p : ℕ) × (result.0 ≡ Exit.NotALog p))))) }

    // Whatever comes, the disk holds what it held.
    ensures kept { IsTrue D.honest → HoldsSame D.seen D.image disk result.1 }
    ensures size { D.size result.1 ≡ D.size disk }

    // Each fault is answered as that fault.
    ensures log_fault { result.0 ≡ Exit.LogFault → Rose (D.faults disk) (D.faults result.1) }
    ensures log_grows { result.0 ≢ Exit.LogFault → D.faults disk ≤ D.faults result.1 }
    ensures write_fault { result.0 ≡ Exit.WriteFault → Rose (K.faults sink.old) (K.faults sink.new) }
    ensures write_smooth { result.0 ≢ Exit.WriteFault → K.faults sink.new ≡ K.faults sink.old }
{
    let log = match Log::from_disk(alloc, disk) {
        Ok(log) => log,
        Err((LogRefusal::NotALog(p), disk)) => return (Exit::NotALog(p), disk),
        Err((LogRefusal::Memory, disk)) => return (Exit::Memory, disk),
        Err((_, disk)) => return (Exit::LogFault, disk),
    };
    let exit = write_listing(alloc, sink, &log);
    (exit, log.into_disk())
}
