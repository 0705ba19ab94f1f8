//! Prints traces as JSON: one array with an object for each entry.
ghost use Rattle.std.specs.Prelude.{◌≡◌, [], IfOk};
ghost use Rattle.trace_lines.specs.Forms.{json_text, object_text};

use crate::entries::put_entry;
use crate::names::put_place;
use dtx_values::{Entry, Place};
use entry_lists::Trace;
use line_tail::Tail;
use std::alloc::{AllocError, Global};

/// The bytes that are set aside for each object: a little more than the mean.
const MEAN_OBJECT: usize = 56;

/// Makes the object of an entry.
fn put_object(tail: &mut Tail, number: usize, x: (Place, Entry))
    requires { tail.old ≡ [] }
    ensures { tail.new ≡ object_text number x }
{
    tail.put(b"\"}");
    put_entry(tail, x.1);
    tail.put(b",\"text\":\"");
    tail.put_number(number as u64);
    tail.put(b"\",\"n\":");
    put_place(tail, x.0);
    tail.put(b"{\"at\":\"");
}

/// The text of a trace in the form JSON: an array of one object for each entry, in compact form, and LF. The members of an object are
/// `at`, the place, `n`, the number from 1, and `text`, the entry in the plain form, in that order.
///
/// # Errors
///
/// [`AllocError`] where memory ran out.
pub fn json_trace(alloc: Global, t: &Trace) -> Result<Vec<u8>, AllocError>
    ensures { IfOk result (λ v. v.items ≡ json_text t.now) }
{
    let mut text = Vec::with_capacity(alloc, t.len().saturating_mul(MEAN_OBJECT))?;
    let mut tail = Tail::new();
    text.push(b'[')?;
    for index in 0..t.len() {
        if index > 0 {
            text.push(b',')?;
        }
        tail.clear();
        put_object(&mut tail, index + 1, t.at(index));
        text.extend_from_slice(tail.as_slice())?;
    }
    text.extend_from_slice(b"]\n")?;
    Ok(text)
}
