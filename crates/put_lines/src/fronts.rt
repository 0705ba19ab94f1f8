//! The lines before the script.
ghost use Rattle.std.specs.Prelude.{◌≡◌, ◌≤◌, IfOk, IfErr, Some};
ghost use Rattle.dtx_values.specs.declared.limits.TheConstants.{SCRIPT_BYTES};
ghost use Rattle.put_lines.specs.Input.{HasFront, form_fault_by, put_forms};
ghost use Rattle.put_lines.specs.FrontLine.{BeginsWith};
ghost use Rattle.put_lines.specs.Refusals.{IsBadFront};

use crate::error::InputError;
use crate::lines::front_line;
use crate::words::{FrontLine, front_words};
use dtx_values::BadCause;
use heard_notes::Put;
use std::alloc::Global;

/// The line at the front, after so many bytes, and what follows it.
fn next_front_line(taken: usize, rest: &[u8]) -> Result<(FrontLine, &[u8]), BadCause>
    requires { taken ≤ SCRIPT_BYTES }
    ensures ok { IfOk result (λ p. BeginsWith taken rest.now p.0 p.1.now) }
    ensures bad { IfErr result (λ c. form_fault_by put_forms taken rest.now ≡ Some c) }
{
    let (text, after) = front_line(taken, rest)?;
    let line = front_words(text)?;
    Ok((line, after))
}

/// The puts, and what follows the line `script`.
///
/// # Errors
///
/// - [`InputError::Bad`] where a line is bad by its form, or none is `script`.
/// - [`InputError::Memory`] where memory ran out.
pub fn read_front(alloc: Global, bytes: &[u8]) -> Result<(Vec<Put>, &[u8]), InputError>
    ensures ok { IfOk result (λ p. HasFront bytes.now p.0.items p.1.now) }
    ensures bad { IfErr result (λ e. IsBadFront bytes.now e) }
{
    let mut puts = Vec::new(alloc);
    let mut rest = bytes;
    while !rest.is_empty() {
        match next_front_line(bytes.len() - rest.len(), rest) {
            Ok((FrontLine::Put(put), after)) => {
                puts.push(put)?;
                rest = after;
            }
            Ok((FrontLine::Script, after)) => return Ok((puts, after)),
            Err(cause) => return Err(InputError::Bad(puts.len() as u32 + 1, cause)),
        }
    }
    Err(InputError::Bad(puts.len() as u32 + 1, BadCause::MissingWord))
}
