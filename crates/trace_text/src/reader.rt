//! Reads traces: each line is read, printed again, and compared.
ghost use Rattle.std.specs.Prelude.{◌≡◌, ◌≢◌, ◌++◌, ℕ, List, true, IfOk, IfErr, IfSome, IfNone, Some};
ghost use Rattle.dtx_model.specs.Traces.{Placed};
ghost use Rattle.dtx_model.specs.TraceText.{trace_line, is_fit, IsTextOf, IsBadLine};
ghost use Rattle.trace_lines.specs.Forms.{line_words};
ghost use Rattle.trace_text.specs.ReadTrace.{IsBadTrace};

use dtx_values::{Entry, Place};
use entry_lists::{PlacedEntries, Trace};
use entry_reader::{entry_of, place_of};
use line_tail::{Tail, parts};
use std::alloc::Global;
use trace_lines::put_line;

/// Why bytes aren't the text of a trace.
#[derive(Clone, Copy, PartialEq, Eq, Debug)]
pub enum TraceError {
    /// The line of this number, from 1, is the first that no trace has there.
    BadLine(u64),
    /// There is no memory for the entries.
    Memory,
}

/// Reads the place and the entry of a line without its LF.
fn placed(text: &[u8]) -> Option<(Place, Entry)>
    ensures of { (n : ℕ) (x : Placed) → is_fit x ≡ true → text.now ≡ line_words n x → result ≡ Some x }
    ensures fit { IfSome result (λ x. is_fit x ≡ true) }
{
    let (_, rest) = parts(text, b' ');
    let (name, words) = parts(rest, b' ');
    let at = place_of(name)?;
    Some((at, entry_of(at, words)?))
}

/// Reads the line of this number at the front, and gives what follows it.
fn first_line(number: usize, bytes: &[u8]) -> Option<((Place, Entry), &[u8])>
    ensures some { IfSome result (λ r. (bytes.now ≡ trace_line number r.0 ++ r.1.now) × (is_fit r.0 ≡ true)) }
    ensures none { IfNone result ((x : Placed) (after : List ℕ) → is_fit x ≡ true → bytes.now ≢ trace_line number x ++ after) }
{
    let (text, _) = parts(bytes, b'\n');
    let x = placed(text)?;
    let mut tail = Tail::new();
    put_line(&mut tail, number, x);
    let line = tail.as_slice();
    if bytes.len() < line.len() {
        return None;
    }
    let (front, after) = bytes.split_at(line.len());
    if front != line {
        return None;
    }
    Some((x, after))
}

/// Reads the text of a trace.
///
/// # Errors
///
/// - [`TraceError::BadLine`] exactly where the bytes are no trace's: the first line that no trace has there.
/// - [`TraceError::Memory`] where memory ran out.
pub fn read_trace(alloc: Global, bytes: &[u8]) -> Result<Trace, TraceError>
    ensures text { IfOk result (λ T. IsTextOf bytes.now T) }
    ensures bad { IfErr result (λ e. IsBadTrace bytes.now e) }
{
    let mut entries = PlacedEntries::new(alloc);
    let mut rest = bytes;
    while !rest.is_empty() {
        match first_line(entries.len() + 1, rest) {
            Some((x, after)) => match entries.push(x) {
                Ok(()) => rest = after,
                Err(_) => return Err(TraceError::Memory),
            },
            None => return Err(TraceError::BadLine(entries.len() as u64 + 1)),
        }
    }
    Ok(Trace::new(entries))
}

/// Bytes are the text of a trace or have a first bad line, and never both. A law: the body is empty, and who calls this has the law in its
/// proof.
pub fn reads_traces_exactly()
    ensures either { (b : List ℕ) (T : List Placed) (n : ℕ) → IsTextOf b T → IsBadLine b n → ⊥ }
    ensures first { (b : List ℕ) (n m : ℕ) → IsBadLine b n → IsBadLine b m → n ≡ m }
{}
