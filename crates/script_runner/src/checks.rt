//! Checks a trace.
ghost use Rattle.script_runner.specs.Promises.{ChecksTrace, devices, telling};

use crate::found_fine::each_run_is_found_fine;
use outside::{Disk, Sink, Source};
use program_io::{Exit, checks_exactly, trace_from, verdict_written};
use std::alloc::Global;

/// Reads the trace from the source, checks it, and writes to the sink what was found. The disk is handed back as it was.
pub fn check_in<S: Source, K: Sink, D: Disk>(
    alloc: Global,
    source: &mut S,
    sink: &mut K,
    disk: D,
) -> (Exit, D)
    ensures checks { ChecksTrace
        (telling S.left S.faults K.written K.faults D.honest D.seen D.image D.size D.faults)
        (devices source.old sink.old disk) result.0 (devices source.new sink.new result.1) }
{
    // This does nothing when it runs. It brings in that bytes are one trace or have one first bad line, and never both, so that the answer which is given is the only one that fits.
    checks_exactly();
    // Nor does this. It brings in that no text of a run is found bad.
    each_run_is_found_fine();
    match trace_from(alloc, source) {
        Ok(trace) => (verdict_written(alloc, sink, &trace), disk),
        Err(exit) => (exit, disk),
    }
}
