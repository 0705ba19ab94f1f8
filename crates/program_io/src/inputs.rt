//! Reads puts, and the script after them.
ghost use Rattle.std.specs.Prelude.{◌≡◌, ◌≢◌, ◌+◌, ℕ, [], Err, Some, drop, true, IfErr, IfOk, OnOk};
ghost use Rattle.std.specs.Option.{ForSome};
ghost use Rattle.outside.specs.Faults.{Rose};
ghost use Rattle.dtx_values.specs.declared.limits.TheConstants.{SCRIPT_BYTES};
ghost use Rattle.dtx_values.specs.declared.script.BadCause.{BadCause};
ghost use Rattle.dtx_model.specs.Grammar.{IsScript};
ghost use Rattle.heard_notes.specs.Whose.{whose};
ghost use Rattle.put_lines.specs.Input.{ReadsInput, are_good};
ghost use Rattle.program_io.specs.InputRead.{RefusesInput};

use crate::exit::Exit;
use crate::transfer::{ReadError, read_all};
use dtx_values::SCRIPT_BYTES;
use heard_notes::Of;
use outside::Source;
use put_lines::{InputError, PutScript, read_input, reads_one_input};
use std::alloc::Global;

/// The most bytes of an input that are read: one more than the longest has.
const MOST: usize = SCRIPT_BYTES + 1;

/// Reads the puts, of at most `most` keys for each enlistment, and the script after them, in which these have an object; or says how the call ends.
pub fn input_from<S: Source>(
    alloc: Global,
    most: usize,
    of: Of,
    source: &mut S,
) -> Result<PutScript, Exit>
    ensures read { IfOk result (λ x. ForSome (S.left source.old) (λ b. ReadsInput most (whose of) b x.puts.items x.script)) }
    ensures script { IfOk result (λ x. IsScript x.script) }
    ensures good { IfOk result (λ x. are_good most x.script (whose of) [] x.puts.items ≡ true) }
    ensures left { OnOk result (ForSome (S.left source.old) (λ b. S.left source.new ≡ Some [])) }
    ensures refused { IfErr result (RefusesInput most (whose of) (S.left source.old)) }
    ensures judged { (n : ℕ) (c : BadCause) → result ≡ Err (Exit.BadScript n c)
        → ForSome (S.left source.old) (λ b. S.left source.new ≡ Some (drop (SCRIPT_BYTES + 1) b)) }
    ensures cause { IfErr result (λ x. x ≡ Exit.ReadFault → Rose (S.faults source.old) (S.faults source.new)) }
    ensures smooth { OnOk result (S.faults source.new ≡ S.faults source.old) }
    ensures unfaulted { IfErr result (λ x. x ≢ Exit.ReadFault → S.faults source.new ≡ S.faults source.old) }
{
    // This does nothing when it runs. It brings in that what is refused by the bytes that were read is refused by all of them.
    reads_one_input();
    let bytes = match read_all(alloc, source, MOST) {
        Ok(bytes) => bytes,
        Err(ReadError::Fault) => return Err(Exit::ReadFault),
        Err(ReadError::Memory) => return Err(Exit::Memory),
    };
    match read_input(alloc, &bytes, most, of) {
        Ok(input) => Ok(input),
        Err(InputError::Bad(line, cause)) => Err(Exit::BadScript(line, cause)),
        Err(InputError::Memory) => Err(Exit::Memory),
    }
}
