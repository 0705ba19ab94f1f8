//! How much is read of a source and written to a sink, and which of their faults a run can answer.
ghost use Rattle.std.specs.Prelude.{◌≢◌, ◌≤◌, ◌^◌, ◌-◌, None, IfOk, length};

use crate::runs::run_open;
use dtx_values::SCRIPT_BYTES;
use outside::{Sink, Source, SureDisk, SureSink, SureSource, WriteError};
use script_runner::{BadCause, Exit, LOG_BYTES};
use std::alloc::{AllocError, Global};
use std::sync::Wait;
use std::test::Fail;
use std::thread::Threads;

/// A sink that takes no byte, whose count of faults stands at its last value.
#[derive(Drop)]
struct Stalled;

impl Sink for Stalled {
    ghost written = { λ _. None };

    ghost faults = { λ _. 2 ^ 64 - 1 };

    fn write(&mut self, _from: &[u8]) -> Result<usize, WriteError> {
        Ok(0)
    }
}

/// Replays a script into the sink that takes no byte.
fn written_to_it<R: Threads + Wait + Sync>(
    rt: &R,
    alloc: Global,
    script: &str,
) -> Result<Exit, AllocError> {
    let mut source = SureSource::new(Vec::from_slice(alloc, script.as_bytes())?);
    let disk = SureDisk::new(alloc, LOG_BYTES)?;
    let (exit, _disk) = run_open(rt, alloc, &mut source, &mut Stalled, disk)?;
    Ok(exit)
}

#[test]
fn a_sink_that_takes_no_byte_is_a_fault(rt: HostRuntime) -> Result<(), Fail> {
    for (script, wanted) in [("a1 begin t1 0\n", Exit::WriteFault), ("", Exit::Fine)] {
        let exit = written_to_it(&rt, rt.alloc(), script)?;
        assert!(rt; exit == wanted, "at {script}");
    }
    Ok(())
}

/// Replays over what meets no fault: by the clauses of the bounds alone, it answers none.
fn run_surely<R: Threads + Wait + Sync>(
    rt: &R,
    alloc: Global,
    source: &mut SureSource,
    sink: &mut SureSink,
    disk: SureDisk,
) -> Result<Exit, AllocError>
    requires { LOG_BYTES ≤ length disk.kept }
    ensures read { IfOk result (λ r. r ≢ Exit.ReadFault) }
    ensures log { IfOk result (λ r. r ≢ Exit.LogFault) }
    ensures written { IfOk result (λ r. r ≢ Exit.WriteFault) }
{
    let (exit, _disk) = run_open(rt, alloc, source, sink, disk)?;
    Ok(exit)
}

/// Replays what this source gives: how it ended, and how many bytes were written.
fn ended<R: Threads + Wait + Sync>(
    rt: &R,
    alloc: Global,
    source: &mut SureSource,
) -> Result<(Exit, usize), AllocError> {
    let mut sink = SureSink::new(alloc);
    let disk = SureDisk::new(alloc, LOG_BYTES)?;
    let exit = run_surely(rt, alloc, source, &mut sink, disk)?;
    Ok((exit, sink.bytes().len()))
}

#[test]
fn one_byte_more_than_the_longest_script_is_read(rt: HostRuntime) -> Result<(), Fail> {
    let mut source = SureSource::new(vec![in rt.alloc(); b'a'; SCRIPT_BYTES + 4]?);
    let ended = ended(&rt, rt.alloc(), &mut source)?;
    assert!(rt; ended == (Exit::BadScript(1, BadCause::TooLong), 0));
    assert_eq!(rt; source.read(&mut [0u8; 9]), Ok(3));
    Ok(())
}
