//! Prints traces in the plain form: a line for each entry, with its number, its place and its words.
ghost use Rattle.std.specs.Prelude.{◌≡◌, ◌≤◌, ◌++◌, ℕ, List, [], false, true, IfOk, OnOk, length, take};
ghost use Rattle.dtx_model.specs.TraceText.{trace_line, trace_text};
ghost use Rattle.dtx_model.specs.Words.{each};
ghost use Rattle.trace_lines.specs.Forms.{line_words, lines_text, wire_text};
ghost use Rattle.trace_lines.specs.OneTrace.{is_typed_at};

use crate::entries::put_entry;
use crate::names::put_place;
use crate::wire::push_wire_lines;
use dtx_values::{Entry, Place};
use entry_lists::Trace;
use line_tail::Tail;
use std::alloc::{AllocError, Global};

/// The bytes that are set aside for each line of a trace: a little more than the mean.
pub(crate) const MEAN_LINE: usize = 32;

/// Puts the number of a line, its place and its entry.
pub fn put_words(tail: &mut Tail, number: usize, x: (Place, Entry))
    requires { length tail.old ≤ 1 }
    ensures text { tail.new ≡ line_words number x ++ tail.old }
    ensures typed { is_typed_at x ≡ true }
{
    put_entry(tail, x.1);
    tail.put(b" ");
    put_place(tail, x.0);
    tail.put(b" ");
    tail.put_number(number as u64);
}

/// Makes the line of an entry.
pub fn put_line(tail: &mut Tail, number: usize, x: (Place, Entry))
    requires { tail.old ≡ [] }
    ensures text { tail.new ≡ trace_line number x }
    ensures typed { is_typed_at x ≡ true }
{
    tail.put(b"\n");
    put_words(tail, number, x);
}

/// Appends the text of the entries from place `from` on, up to place `to`, in the plain form, or in the form wire. Places count from 0. So a long trace can be written piece by piece.
///
/// # Errors
///
/// [`AllocError`] where memory ran out. What the text has then is open.
pub fn print_lines(
    text: &mut Vec<u8>,
    t: &Trace,
    from: usize,
    to: usize,
    wire: bool,
) -> Result<(), AllocError>
    requires { (from ≤ to) × (to ≤ length t.now) }
    ensures text { OnOk result ((before : List ℕ) → before ++ text.old.items ≡ lines_text wire (take from t.now) → before ++ text.new.items ≡ lines_text wire (take to t.now)) }
    ensures typed { OnOk result (each is_typed_at (take from t.now) ≡ true → each is_typed_at (take to t.now) ≡ true) }
{
    if wire {
        push_wire_lines(text, t, from, to)
    } else {
        push_plain_lines(text, t, from, to)
    }
}

/// The text of a trace in the plain form, or in the form wire: there the line of each message that is sent ends with its frame, in lower-case
/// hexadecimal.
///
/// # Errors
///
/// [`AllocError`] where memory ran out.
pub fn print_trace(alloc: Global, t: &Trace, wire: bool) -> Result<Vec<u8>, AllocError>
    ensures plain { wire ≡ false → IfOk result (λ v. v.items ≡ trace_text t.now) }
    ensures wire { wire ≡ true → IfOk result (λ v. v.items ≡ wire_text t.now) }
    ensures typed { IfOk result (λ v. each is_typed_at t.now ≡ true) }
{
    let mut text = Vec::with_capacity(alloc, t.len().saturating_mul(MEAN_LINE))?;
    print_lines(&mut text, t, 0, t.len(), wire)?;
    Ok(text)
}

/// Appends the text of the entries from place `from` on, up to place `to`, in the plain form.
fn push_plain_lines(text: &mut Vec<u8>, t: &Trace, from: usize, to: usize) -> Result<(), AllocError>
    requires { (from ≤ to) × (to ≤ length t.now) }
    ensures text { OnOk result ((before : List ℕ) → before ++ text.old.items ≡ trace_text (take from t.now) → before ++ text.new.items ≡ trace_text (take to t.now)) }
    ensures typed { OnOk result (each is_typed_at (take from t.now) ≡ true → each is_typed_at (take to t.now) ≡ true) }
{
    let mut tail = Tail::new();
    for index in from..to {
        tail.clear();
        put_line(&mut tail, index + 1, t.at(index));
        text.extend_from_slice(tail.as_slice())?;
    }
    Ok(())
}
