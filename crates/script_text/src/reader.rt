//! Reads scripts.
ghost use Rattle.std.specs.Prelude.{◌≡◌, ◌++◌, IfOk, IfErr};
ghost use Rattle.dtx_model.specs.Grammar.{script_text, IsScript, Reads};
ghost use Rattle.script_text.specs.Reading.{IsBadScript};

use dtx_values::{BadCause, Script};
use line_reader::{Draft, next_line};
use std::alloc::Global;

/// Why bytes are no script.
#[derive(Clone, Copy, PartialEq, Eq, Debug)]
pub enum ScriptError {
    /// The first bad line, from 1, and its first cause.
    BadScript(u32, BadCause),
    /// There is no memory for the lines.
    Memory,
}

/// Reads the bytes of a script.
///
/// # Errors
///
/// - [`ScriptError::BadScript`] exactly where the bytes are no script: the first bad line, and its first cause.
/// - [`ScriptError::Memory`] where memory ran out.
pub fn read_script(alloc: Global, bytes: &[u8]) -> Result<Script, ScriptError>
    ensures read { IfOk result (λ s. Reads bytes.now s) }
    ensures bad { IfErr result (λ e. IsBadScript bytes.now e) }
{
    let Ok(mut draft) = Draft::for_bytes(alloc, bytes.len()) else {
        return Err(ScriptError::Memory);
    };
    let mut rest = bytes;
    while !rest.is_empty() {
        match next_line(&draft, bytes.len() - rest.len(), rest) {
            Ok((line, after)) => {
                if draft.push(line).is_err() {
                    return Err(ScriptError::Memory);
                }
                rest = after;
            }
            Err(cause) => return Err(ScriptError::BadScript(draft.len() as u32 + 1, cause)),
        }
    }
    Ok(draft.into_script())
}
