//! The script behind other lines.
ghost use Rattle.std.specs.Prelude.{◌≡◌, ◌≤◌, ◌+◌, IfOk, IfErr, length};
ghost use Rattle.dtx_values.specs.declared.limits.TheConstants.{SCRIPT_BYTES};
ghost use Rattle.dtx_model.specs.Grammar.{IsScript, Reads, line_text, script_text};
ghost use Rattle.line_reader.specs.Reader.{Continues};
ghost use Rattle.put_lines.specs.Input.{IsBadLineAfter};
ghost use Rattle.put_lines.specs.Refusals.{IsBadBody};

use crate::error::InputError;
use crate::lines::front_line;
use dtx_values::{BadCause, Line, Script};
use line_reader::{Draft, next_line};
use std::alloc::Global;

/// Reads the line at the front where it may follow the draft, whose lines have `own` bytes and stand behind `taken` others, and gives what follows it.
fn next_body_line<'a>(
    draft: &Draft,
    taken: usize,
    own: usize,
    rest: &'a [u8],
) -> Result<(Line, &'a [u8]), BadCause>
    requires script { IsScript draft.now }
    requires own { own ≡ length (script_text draft.now) }
    requires within { taken + own ≤ SCRIPT_BYTES }
    ensures ok { IfOk result (λ p. Continues draft.now rest.now p.0 p.1.now) }
    ensures within { IfOk result (λ p. taken + own + length (line_text p.0) ≤ SCRIPT_BYTES) }
    ensures bad { IfErr result (λ c. IsBadLineAfter taken draft.now rest.now c) }
{
    let (_text, _after) = front_line(taken + own, rest)?;
    match next_line(draft, own, rest) {
        Ok((line, after)) => Ok((line, after)),
        Err(cause) => Err(cause),
    }
}

/// Reads the script that stands behind so many bytes, which are so many lines.
///
/// # Errors
///
/// - [`InputError::Bad`] where a line is bad, which is counted with the lines before the script.
/// - [`InputError::Memory`] where memory ran out.
pub fn read_body(
    alloc: Global,
    taken: usize,
    lines: usize,
    bytes: &[u8],
) -> Result<Script, InputError>
    requires taken { taken ≤ SCRIPT_BYTES }
    requires lines { lines ≤ SCRIPT_BYTES }
    ensures ok { IfOk result (λ s. Reads bytes.now s) }
    ensures within { IfOk result (λ s. taken + length bytes.now ≤ SCRIPT_BYTES) }
    ensures bad { IfErr result (λ e. IsBadBody taken lines bytes.now e) }
{
    let mut draft = Draft::for_bytes(alloc, bytes.len())?;
    let mut rest = bytes;
    while !rest.is_empty() {
        match next_body_line(&draft, taken, bytes.len() - rest.len(), rest) {
            Ok((line, after)) => {
                draft.push(line)?;
                rest = after;
            }
            Err(cause) => return Err(InputError::Bad((lines + draft.len()) as u32 + 1, cause)),
        }
    }
    Ok(draft.into_script())
}
