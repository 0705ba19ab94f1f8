//! Reads a trace that is to be checked.
ghost use Rattle.std.specs.Prelude.{◌≡◌, ◌≢◌, ◌≤◌, ◌+◌, ℕ, List, [], Err, Some, drop, length, IfErr, IfOk, OnErr, OnOk};
ghost use Rattle.std.specs.Option.{ForSome};
ghost use Rattle.outside.specs.Faults.{Rose};
ghost use Rattle.dtx_model.specs.Traces.{Placed};
ghost use Rattle.program_io.specs.TraceRead.{IsBadTraceLine, IsTraceWithin, RefusesTrace, refused_within};

use crate::exit::Exit;
use crate::transfer::{ReadError, read_all};
use outside::Source;
use std::alloc::Global;
use trace_text::{Trace, TraceError, read_trace};

/// The most bytes that a trace has which is checked.
pub const TRACE_BYTES: usize = 16_777_216;

/// The trace whose text these bytes are; a text that is longer than the longest is refused at its last line.
fn trace_in(alloc: Global, bytes: &[u8]) -> Result<Trace, TraceError>
    requires { length bytes.now ≤ TRACE_BYTES + 1 }
    ensures trace { IfOk result (IsTraceWithin TRACE_BYTES bytes.now) }
    ensures refused { IfErr result (refused_within TRACE_BYTES bytes.now) }
{
    let trace = read_trace(alloc, bytes)?;
    if bytes.len() > TRACE_BYTES {
        return Err(TraceError::BadLine(trace.len() as u64));
    }
    Ok(trace)
}

/// Reads the trace that is to be checked, or says how the call ends.
pub fn trace_from<S: Source>(alloc: Global, source: &mut S) -> Result<Trace, Exit>
    ensures trace { IfOk result (λ T. ForSome (S.left source.old) (λ b. IsTraceWithin TRACE_BYTES b T)) }
    ensures left { OnOk result (ForSome (S.left source.old) (λ b. S.left source.new ≡ Some [])) }
    ensures refused { IfErr result (RefusesTrace TRACE_BYTES (S.left source.old)) }
    ensures judged { (n : ℕ) → result ≡ Err (Exit.BadTrace n)
        → ForSome (S.left source.old) (λ b. S.left source.new ≡ Some (drop (TRACE_BYTES + 1) b)) }
    ensures cause { IfErr result (λ x. x ≡ Exit.ReadFault → Rose (S.faults source.old) (S.faults source.new)) }
    ensures smooth { OnOk result (S.faults source.new ≡ S.faults source.old) }
    ensures unfaulted { IfErr result (λ x. x ≢ Exit.ReadFault → S.faults source.new ≡ S.faults source.old) }
{
    let bytes = match read_all(alloc, source, TRACE_BYTES + 1) {
        Ok(bytes) => bytes,
        Err(ReadError::Fault) => return Err(Exit::ReadFault),
        Err(ReadError::Memory) => return Err(Exit::Memory),
    };
    match trace_in(alloc, &bytes) {
        Ok(trace) => Ok(trace),
        Err(TraceError::BadLine(line)) => Err(Exit::BadTrace(line)),
        Err(TraceError::Memory) => Err(Exit::Memory),
    }
}

/// Bytes are a trace that is checked or have a first line that isn't one of such a trace, and never both. A law: the body is empty, and who calls this has the law in its proof.
pub fn checks_exactly()
    ensures either { (most : ℕ) (b : List ℕ) (T : List Placed) (n : ℕ)
        → IsTraceWithin most b T → IsBadTraceLine most b n → ⊥ }
    ensures first { (most : ℕ) (b : List ℕ) (n m : ℕ)
        → IsBadTraceLine most b n → IsBadTraceLine most b m → n ≡ m }
{}
