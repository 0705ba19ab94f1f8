//! The line at the front of a script's bytes.
ghost use Rattle.std.specs.Prelude.{◌≡◌, ◌≤◌, ◌+◌, ◌++◌, ◌∷◌, IfOk, IfErr, IfSome, IfNone, length};
ghost use Rattle.line_tail.specs.Cut.{IsWithout};
ghost use Rattle.dtx_model.specs.Words.{each};
ghost use Rattle.dtx_model.specs.Grammar.{is_from, script_text, IsScript};
ghost use Rattle.dtx_model.specs.Faults.{front, form_fault, line_forms, word_fault, words_of, IsBadFor};
ghost use Rattle.dtx_values.specs.declared.limits.TheConstants.{LINE_BYTES, SCRIPT_BYTES};
ghost use Rattle.line_reader.specs.Reader.{Continues};

use crate::commands::line;
use crate::draft::Draft;
use dtx_values::{BadCause, LINE_BYTES, Line, SCRIPT_BYTES};

/// Whether the byte is printable.
fn is_printable(b: u8) -> bool
    ensures { result ≡ is_from 32 126 b }
{
    32 <= b && b <= 126
}

/// The line at the front without its LF, what follows it, and whether each byte of the line is printable; `None` where no LF is there. Each byte
/// is looked at once.
fn cut_line(rest: &[u8]) -> Option<(&[u8], &[u8], bool)>
    ensures cut { IfSome result (λ p. rest.now ≡ p.0.now ++ 10 ∷ p.1.now) }
    ensures without { IfSome result (λ p. IsWithout 10 p.0.now) }
    ensures printable { IfSome result (λ p. p.2 ≡ each (is_from 32 126) p.0.now) }
    ensures none { IfNone result (IsWithout 10 rest.now) }
{
    let mut printable = true;
    for (i, b) in rest.iter().enumerate() {
        if !is_printable(*b) {
            if *b == b'\n' {
                return Some((&rest[..i], &rest[i + 1..], printable));
            }
            printable = false;
        }
    }
    None
}

/// The text of the line at the front, without its LF, and what follows it, after so many bytes. Its words are
/// not looked at.
fn front_line(taken: usize, rest: &[u8]) -> Result<(&[u8], &[u8]), BadCause>
    requires { taken ≤ SCRIPT_BYTES }
    ensures text { IfOk result (λ p. front rest.now ≡ p.0.now) }
    ensures cut { IfOk result (λ p. rest.now ≡ p.0.now ++ 10 ∷ p.1.now) }
    ensures short { IfOk result (λ p. length p.0.now ≤ 200) }
    ensures within { IfOk result (λ p. taken + length p.0.now + 1 ≤ SCRIPT_BYTES) }
    ensures words { IfOk result (λ p. form_fault taken rest.now ≡ word_fault line_forms (words_of p.0.now)) }
    ensures bad { IfErr result (λ c. form_fault taken rest.now ≡ Some c) }
{
    let Some((text, after, printable)) = cut_line(rest) else {
        if taken + rest.len() > SCRIPT_BYTES {
            return Err(BadCause::TooLong);
        }
        if rest.len() > LINE_BYTES {
            return Err(BadCause::LongLine);
        }
        return Err(BadCause::NoNewline);
    };
    if taken + (text.len() + 1) > SCRIPT_BYTES {
        return Err(BadCause::TooLong);
    }
    if text.len() > LINE_BYTES {
        return Err(BadCause::LongLine);
    }
    if !printable {
        return Err(BadCause::BadByte);
    }
    Ok((text, after))
}

/// Reads the line at the front where it may follow the draft, whose lines have `taken` bytes, and gives what
/// follows it.
pub fn next_line<'a>(
    draft: &Draft,
    taken: usize,
    rest: &'a [u8],
) -> Result<(Line, &'a [u8]), BadCause>
    requires script { IsScript draft.now }
    requires taken { taken ≡ length (script_text draft.now) }
    ensures ok { IfOk result (λ p. Continues draft.now rest.now p.0 p.1.now) }
    ensures bad { IfErr result (λ c. IsBadFor draft.now rest.now c) }
{
    let (text, after) = front_line(taken, rest)?;
    let line = line(text)?;
    match draft.fault(&line) {
        Some(cause) => Err(cause),
        None => Ok((line, after)),
    }
}
