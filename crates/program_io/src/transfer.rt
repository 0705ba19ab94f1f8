//! Reads a source to its end, and writes bytes to a sink until all are written.
ghost use Rattle.std.specs.Prelude.{◌≡◌, ◌≤◌, ◌++◌, take, drop, vec_len, IfOk, IfErr, OnOk, OnErr};
ghost use Rattle.std.specs.Option.{ForSome};
ghost use Rattle.outside.specs.Faults.{Rose};
ghost use Rattle.program_io.specs.Transfer.{IsPartWritten};

use outside::{Sink, Source, WriteError};
use std::alloc::Global;

/// The most bytes that one call reads.
const PIECE: usize = 16_384;

/// Why not all was read.
#[derive(Clone, Copy, Debug, PartialEq, Eq)]
pub enum ReadError {
    /// A call of the source met a fault.
    Fault,
    /// No memory was left.
    Memory,
}

/// Why not all was written.
#[derive(Clone, Copy, Debug, PartialEq, Eq)]
pub enum WriteStop {
    /// A call of the sink met a fault, or wrote no byte.
    Fault,
    /// No memory was left.
    Memory,
}

/// Reads to the end of the source, or until there are so many bytes.
///
/// # Errors
///
/// - [`ReadError::Fault`], only where the source's count of faults rose, or is the last value of its `u64`.
/// - [`ReadError::Memory`] where no memory was left. The count is then as it was.
///
/// How much of the source was read is then open.
pub fn read_all<S: Source>(alloc: Global, source: &mut S, most: usize) -> Result<Vec<u8>, ReadError>
    ensures short { IfOk result (λ v. vec_len v ≤ most) }
    ensures read { IfOk result (λ v. ForSome (S.left source.old) (λ b. v.items ≡ take most b)) }
    ensures left { OnOk result (ForSome (S.left source.old) (λ b. S.left source.new ≡ Some (drop most b))) }
    ensures untold { S.left source.old ≡ None → S.left source.new ≡ None }
    ensures cause { IfErr result (λ e. e ≡ ReadError.Fault → Rose (S.faults source.old) (S.faults source.new)) }
    ensures smooth { OnOk result (S.faults source.new ≡ S.faults source.old) }
    ensures memory { IfErr result (λ e. e ≡ ReadError.Memory → S.faults source.new ≡ S.faults source.old) }
    ensures grows { S.faults source.old ≤ S.faults source.new }
{
    // Room for all at once: what is never written costs nothing, and what grows is copied.
    let mut bytes = Vec::with_capacity(alloc, most).map_err(|_| ReadError::Memory)?;
    let mut piece = [0u8; PIECE];
    while bytes.len() < most {
        let room = (most - bytes.len()).min(PIECE);
        match source.read(&mut piece[..room]) {
            Ok(0) => return Ok(bytes),
            Ok(n) => {
                if bytes.extend_from_slice(&piece[..n]).is_err() {
                    return Err(ReadError::Memory);
                }
            }
            Err(_) => return Err(ReadError::Fault),
        }
    }
    Ok(bytes)
}

/// Writes all the bytes.
///
/// # Errors
///
/// - [`WriteStop::Fault`], only where the sink's count of faults rose, or is the last value of its `u64`.
/// - [`WriteStop::Memory`] where no memory was left. The count is then as it was.
///
/// Only the first of the bytes are then written, and not all of them.
pub fn write_all<K: Sink>(sink: &mut K, bytes: &[u8]) -> Result<(), WriteStop>
    ensures all { OnOk result (ForSome (K.written sink.old) (λ w. K.written sink.new ≡ Some (w ++ bytes.now))) }
    ensures part { OnErr result (ForSome (K.written sink.old) (λ w. IsPartWritten w bytes.now (K.written sink.new))) }
    ensures untold { K.written sink.old ≡ None → K.written sink.new ≡ None }
    ensures cause { IfErr result (λ e. e ≡ WriteStop.Fault → Rose (K.faults sink.old) (K.faults sink.new)) }
    ensures smooth { OnOk result (K.faults sink.new ≡ K.faults sink.old) }
    ensures memory { IfErr result (λ e. e ≡ WriteStop.Memory → K.faults sink.new ≡ K.faults sink.old) }
    ensures grows { K.faults sink.old ≤ K.faults sink.new }
{
    let mut at = 0;
    while at < bytes.len() {
        match sink.write(&bytes[at..]) {
            Ok(0) => return Err(WriteStop::Fault),
            Ok(n) => at += n,
            Err(WriteError::Failed) => return Err(WriteStop::Fault),
            Err(WriteError::Memory) => return Err(WriteStop::Memory),
        }
    }
    Ok(())
}
