//! Reads a script, and judges whether it can be run.
ghost use Rattle.std.specs.Prelude.{◌≡◌, ◌≢◌, ◌⊎◌, ◌+◌, ◌≤◌, ◌<◌, ◌^◌, List, [], Some, drop, length, IfErr, IfOk, OnErr, OnOk};
ghost use Rattle.std.specs.Option.{ForSome};
ghost use Rattle.outside.specs.Faults.{Rose};
ghost use Rattle.dtx_values.specs.declared.limits.TheConstants.{SCRIPT_BYTES};
ghost use Rattle.dtx_values.specs.declared.script.BadCause.{BadCause};
ghost use Rattle.dtx_model.specs.Grammar.{IsScript, Reads};
ghost use Rattle.program_io.specs.Judged.{IsJudged, first_do};
ghost use Rattle.program_io.specs.Refusal.{HasNoRun, IsRunnable, Refuses};

use crate::exit::Exit;
use crate::transfer::{ReadError, read_all};
use crate::way::Way;
use dtx_values::{Body, SCRIPT_BYTES};
use outside::Source;
use script_text::{BadCause, Line, Script, ScriptError, read_script, reads_exactly};
use std::alloc::Global;

/// The most bytes of a script that are read: one more than the longest has.
const MOST: usize = SCRIPT_BYTES + 1;

/// Why bytes have no run.
#[derive(Clone, Copy, PartialEq, Eq, Debug)]
pub enum Refusal {
    /// They are no script.
    Bad(u32, BadCause),
    /// They are one with a `do` line, and were to run on threads.
    HasDo(u32),
    /// No memory was left.
    Memory,
}

/// The number of the first `do` line, from 1.
fn first_do(lines: &[Line]) -> Option<u32>
    requires { length lines.now < 2 ^ 32 }
    ensures { result ≡ first_do lines.now }
{
    let mut n = 0;
    for l in lines {
        n += 1;
        if let Body::Do(_, _, _) = l.body {
            return Some(n);
        }
    }
    None
}

/// The script that these bytes are, where it can be run this way.
fn script_to_run(alloc: Global, way: Way, bytes: &[u8]) -> Result<Script, Refusal>
    ensures script { IfOk result (λ s. Reads bytes.now s × IsRunnable way s) }
    ensures refused { IfErr result (λ e. HasNoRun way bytes.now e) }
{
    let script = match read_script(alloc, bytes) {
        Ok(script) => script,
        Err(ScriptError::BadScript(line, cause)) => return Err(Refusal::Bad(line, cause)),
        Err(ScriptError::Memory) => return Err(Refusal::Memory),
    };
    match way {
        Way::Replay => Ok(script),
        Way::Threads(_) => match first_do(script.lines()) {
            Some(line) => Err(Refusal::HasDo(line)),
            None => Ok(script),
        },
    }
}

/// Reads the script that is to be run this way, or says how the call ends.
pub fn script_from<S: Source>(alloc: Global, way: Way, source: &mut S) -> Result<Script, Exit>
    ensures script { IfOk result (λ s. ForSome (S.left source.old) (λ b. Reads b s) × IsRunnable way s) }
    ensures left { OnOk result (ForSome (S.left source.old) (λ b. S.left source.new ≡ Some [])) }
    ensures refused { IfErr result (λ x. Refuses way (S.left source.old) x) }
    ensures judged { IfErr result (λ x. IsJudged x → ForSome (S.left source.old) (λ b. S.left source.new ≡ Some (drop (SCRIPT_BYTES + 1) b))) }
    ensures cause { IfErr result (λ x. x ≡ Exit.ReadFault → Rose (S.faults source.old) (S.faults source.new)) }
    ensures smooth { OnOk result (S.faults source.new ≡ S.faults source.old) }
    ensures unfaulted { IfErr result (λ x. x ≢ Exit.ReadFault → S.faults source.new ≡ S.faults source.old) }
{
    // This does nothing when it runs. It brings in that what is bad in the bytes that were read is bad in all of them.
    reads_exactly();
    let bytes = match read_all(alloc, source, MOST) {
        Ok(bytes) => bytes,
        Err(ReadError::Fault) => return Err(Exit::ReadFault),
        Err(ReadError::Memory) => return Err(Exit::Memory),
    };
    match script_to_run(alloc, way, &bytes) {
        Ok(script) => Ok(script),
        Err(Refusal::Bad(line, cause)) => Err(Exit::BadScript(line, cause)),
        Err(Refusal::HasDo(line)) => Err(Exit::NotThreadable(line)),
        Err(Refusal::Memory) => Err(Exit::Memory),
    }
}
