//! Reads inputs.
ghost use Rattle.std.specs.Prelude.{◌≡◌, IfOk, IfErr};
ghost use Rattle.heard_notes.specs.Whose.{whose};
ghost use Rattle.put_lines.specs.Input.{ReadsInput};
ghost use Rattle.put_lines.specs.Refusals.{IsWhy};

use crate::bodies::read_body;
use crate::error::InputError;
use crate::fronts::read_front;
use crate::puts::check_puts;
use dtx_values::Script;
use heard_notes::{Of, Put};
use std::alloc::Global;

/// Puts, and the script behind them.
#[derive(Drop)]
pub struct PutScript {
    pub puts: Vec<Put>,
    pub script: Script,
}

/// Reads the bytes of an input, whose enlistments have at most `most` keys each.
///
/// # Errors
///
/// - [`InputError::Bad`] exactly where the bytes are no input: the line that is refused, and its cause.
/// - [`InputError::Memory`] where memory ran out.
pub fn read_input(alloc: Global, bytes: &[u8], most: usize, of: Of) -> Result<PutScript, InputError>
    ensures read { IfOk result (λ x. ReadsInput most (whose of) bytes.now x.puts.items x.script) }
    ensures bad { IfErr result (λ e. IsWhy most (whose of) bytes.now e) }
{
    let (puts, rest) = read_front(alloc, bytes)?;
    let script = read_body(alloc, bytes.len() - rest.len(), puts.len() + 1, rest)?;
    check_puts(alloc, &puts, script.lines(), most, of)?;
    Ok(PutScript { puts, script })
}
