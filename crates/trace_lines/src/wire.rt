//! Prints traces in the form wire: as in the plain form, with its frame after each message that is sent.
ghost use Rattle.std.specs.Prelude.{◌≡◌, ◌≤◌, ◌++◌, ℕ, List, true, OnOk, length, take};
ghost use Rattle.dtx_model.specs.Words.{each};
ghost use Rattle.trace_lines.specs.Forms.{frame_text, wire_text};
ghost use Rattle.trace_lines.specs.OneTrace.{is_typed_at};

use crate::printer::put_words;
use dtx_values::Entry;
use entry_lists::Trace;
use hex::encode_to_slice;
use line_tail::Tail;
use oletx_frames::encode;
use std::alloc::AllocError;

/// Appends a space and the frame of a message that is sent; nothing for another entry.
fn push_frame(text: &mut Vec<u8>, x: &Entry) -> Result<(), AllocError>
    ensures { OnOk result (text.new.items ≡ text.old.items ++ frame_text x.now) }
{
    let Entry::Sent(_, _, message) = x else {
        return Ok(());
    };
    let mut frame = [0; 40];
    let length = encode(message, &mut frame);
    let mut digits = [0; 80];
    let digits = &mut digits[..2 * length];
    encode_to_slice(&frame[..length], digits).unwrap();
    text.push(b' ')?;
    text.extend_from_slice(digits)
}

/// Appends the text of the entries from place `from` on, up to place `to`, in the form wire.
pub fn push_wire_lines(
    text: &mut Vec<u8>,
    t: &Trace,
    from: usize,
    to: usize,
) -> Result<(), AllocError>
    requires { (from ≤ to) × (to ≤ length t.now) }
    ensures text { OnOk result ((before : List ℕ) → before ++ text.old.items ≡ wire_text (take from t.now) → before ++ text.new.items ≡ wire_text (take to t.now)) }
    ensures typed { OnOk result (each is_typed_at (take from t.now) ≡ true → each is_typed_at (take to t.now) ≡ true) }
{
    let mut tail = Tail::new();
    for index in from..to {
        let x = t.at(index);
        tail.clear();
        put_words(&mut tail, index + 1, x);
        text.extend_from_slice(tail.as_slice())?;
        push_frame(text, &x.1)?;
        text.push(b'\n')?;
    }
    Ok(())
}
