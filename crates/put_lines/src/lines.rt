//! The line at the front of bytes, by its bytes alone.
ghost use Rattle.std.specs.Prelude.{◌≡◌, ◌≤◌, ◌+◌, ◌++◌, ◌∷◌, IfOk, IfErr, IfSome, IfNone, List, Some, length};
ghost use Rattle.line_tail.specs.Cut.{IsWithout};
ghost use Rattle.dtx_model.specs.Words.{each};
ghost use Rattle.dtx_model.specs.Grammar.{is_from};
ghost use Rattle.dtx_model.specs.Faults.{Pattern, front, word_fault, words_of};
ghost use Rattle.dtx_values.specs.declared.limits.TheConstants.{LINE_BYTES, SCRIPT_BYTES};
ghost use Rattle.put_lines.specs.Input.{form_fault_by};

use dtx_values::{BadCause, LINE_BYTES, SCRIPT_BYTES};
use line_tail::cut;

/// Whether the byte is printable.
fn is_printable(b: u8) -> bool
    ensures { result ≡ is_from 32 126 b }
{
    32 <= b && b <= 126
}

/// Whether each byte is printable.
fn are_printable(text: &[u8]) -> bool
    ensures { result ≡ each (is_from 32 126) text.now }
{
    text.iter().all(|b| is_printable(*b))
}

/// The text of the line at the front, without its LF, and what follows it, after so many bytes. Its words are not looked at.
pub fn front_line(taken: usize, rest: &[u8]) -> Result<(&[u8], &[u8]), BadCause>
    requires { taken ≤ SCRIPT_BYTES }
    ensures text { IfOk result (λ p. front rest.now ≡ p.0.now) }
    ensures cut { IfOk result (λ p. rest.now ≡ p.0.now ++ 10 ∷ p.1.now) }
    ensures without { IfOk result (λ p. IsWithout 10 p.0.now) }
    ensures within { IfOk result (λ p. taken + length p.0.now + 1 ≤ SCRIPT_BYTES) }
    ensures words { IfOk result (λ p. (fs : List (List Pattern)) → form_fault_by fs taken rest.now ≡ word_fault fs (words_of p.0.now)) }
    ensures bad { IfErr result (λ c. (fs : List (List Pattern)) → form_fault_by fs taken rest.now ≡ Some c) }
{
    let Some((text, after)) = cut(rest, b'\n') else {
        if taken + rest.len() > SCRIPT_BYTES {
            return Err(BadCause::TooLong);
        }
        if rest.len() > LINE_BYTES {
            return Err(BadCause::LongLine);
        }
        return Err(BadCause::NoNewline);
    };
    if taken + (text.len() + 1) > SCRIPT_BYTES {
        return Err(BadCause::TooLong);
    }
    if text.len() > LINE_BYTES {
        return Err(BadCause::LongLine);
    }
    if !are_printable(text) {
        return Err(BadCause::BadByte);
    }
    Ok((text, after))
}
