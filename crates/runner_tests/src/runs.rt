//! Runs of the top calls over what meets no fault, and what a replay needs.
ghost use Rattle.std.specs.Prelude.{◌≡◌, ◌≤◌, IfOk};
ghost use Rattle.dtx_model.specs.Grammar.{IsScript};
ghost use Rattle.outside.specs.Faults.{Rose};

use coordinator_log::Log;
use dtx_values::Resource;
use outside::{Disk, OpenGate, Sink, Source, SureDisk};
use script_runner::{Exit, LOG_BYTES, run_program, run_replay};
use script_text::{Script, read_script};
use std::alloc::{AllocError, Global};
use std::sync::Wait;
use std::test::Fail;
use std::thread::Threads;

/// Replays with a gate that holds nothing, and no objects. It answers a fault of the source, the disk or the sink only where its count rose.
pub fn run_open<S: Source, K: Sink, D: Disk + Drop + Send, R: Threads + Wait + Sync>(
    rt: &R,
    alloc: Global,
    source: &mut S,
    sink: &mut K,
    disk: D,
) -> Result<(Exit, D), AllocError>
    requires { LOG_BYTES ≤ D.size disk }
    ensures room { IfOk result (λ r. LOG_BYTES ≤ D.size r.1) }
    ensures read { IfOk result (λ r. r.0 ≡ Exit.ReadFault → Rose (S.faults source.old) (S.faults source.new)) }
    ensures log { IfOk result (λ r. r.0 ≡ Exit.LogFault → Rose (D.faults disk) (D.faults r.1)) }
    ensures written { IfOk result (λ r. r.0 ≡ Exit.WriteFault → Rose (K.faults sink.old) (K.faults sink.new)) }
{
    let words = vec![in alloc; String::from_str(alloc, "replay")?]?;
    let none = Vec::new(alloc);
    Ok(run_program(rt, alloc, &words, source, sink, disk, &OpenGate, none))
}

/// A volatile commits.
const COMMITS: &str = "a1 begin t1 0\na1 volatile t1 e1 none yes\na1 commit t1\n";

/// A client asks for the identifier, and waits for it.
const MARSHALLED: &str = "a1 begin t1 0\na1 marshal t1\na1 await t1\n";

/// A replay by a caller that tests what one needs: how many entries it has.
fn tried(alloc: Global, script: &Script, disk: SureDisk) -> Result<Option<usize>, AllocError>
    requires { IsScript script.now }
{
    if disk.len() < LOG_BYTES {
        return Ok(None);
    }
    match Log::format(alloc, disk) {
        Ok(mut log) => {
            let mut none: Vec<Box<dyn Resource + Send>> = Vec::new(alloc);
            let trace = run_replay(alloc, script, &mut log, none.as_mut_slice())?;
            Ok(Some(trace.len()))
        }
        Err(_) => Err(AllocError),
    }
}

#[test]
fn what_a_replay_needs_can_be_tested(rt: HostRuntime) -> Result<(), Fail> {
    let cases = [
        (COMMITS, LOG_BYTES, Some(12)),
        (MARSHALLED, LOG_BYTES, Some(15)),
        (COMMITS, LOG_BYTES - 1, None),
    ];
    for (text, size, wanted) in cases {
        let Ok(script) = read_script(rt.alloc(), text.as_bytes()) else {
            panic!(rt; "no script: {text}");
        };
        let disk = SureDisk::new(rt.alloc(), size)?;
        let entries = tried(rt.alloc(), &script, disk)?;
        assert!(rt; entries == wanted, "at {size}: {text}");
    }
    Ok(())
}
