//! Which message that is sent comes.
ghost use Rattle.std.specs.Prelude.{◌≡◌, ◌+◌, ◌<◌, ◌^◌, [], IfOk, List, OnOk, if◌then◌else◌};
ghost use Rattle.dtx_model.specs.Wires.{opens};
ghost use Rattle.dtx_model.specs.Words.{past_of, put};
ghost use Rattle.trace_picture.specs.Crossings.{arrived, got_since, is_got_on, is_sent_on, origin, origin_in, row_if, sent_since};

use dtx_values::{Conn, Dir, Entry, is_opening};
use std::alloc::{AllocError, Global};

/// Whether the entry opens the connection.
fn opens(c: Conn, x: &Entry) -> bool
    ensures { result ≡ opens c x.now }
{
    match *x {
        Entry::Sent(d, Dir::Up, m) => c == d && is_opening(d, m),
        _ => false,
    }
}

/// Whether a message on the connection is sent in this direction.
fn is_sent_on(c: Conn, d: Dir, x: &Entry) -> bool
    ensures { result ≡ is_sent_on c d x.now }
{
    match *x {
        Entry::Sent(e, r, _) => c == e && d == r,
        _ => false,
    }
}

/// Whether one is got.
fn is_got_on(c: Conn, d: Dir, x: &Entry) -> bool
    ensures { result ≡ is_got_on c d x.now }
{
    match *x {
        Entry::Got(e, r, _) => c == e && d == r,
        _ => false,
    }
}

/// How many were got since the connection was opened, after one entry more.
fn got_after(c: Conn, d: Dir, x: &Entry, got: usize) -> usize
    requires { got + 1 < 2 ^ 64 }
    ensures { result ≡ (if opens c x.now then 0 else if is_got_on c d x.now then got + 1 else got) }
{
    if opens(c, x) {
        return 0;
    }
    if is_got_on(c, d, x) { got + 1 } else { got }
}

/// How many were got since the connection was opened.
fn got_since(c: Conn, d: Dir, h: &[Entry]) -> usize
    ensures { result ≡ got_since c d (past_of h.now) }
{
    let mut got = 0;
    for x in h {
        got = got_after(c, d, x, got);
    }
    got
}

/// Adds the row of an entry, where it sends a message, after what it opens is forgotten.
fn add_sent(rows: &mut Vec<usize>, c: Conn, d: Dir, x: &Entry, row: usize) -> Result<(), AllocError>
    ensures { OnOk result (rows.new.items ≡ row_if (is_sent_on c d x.now) row (if opens c x.now then [] else rows.old.items)) }
{
    if opens(c, x) {
        rows.clear();
    }
    if is_sent_on(c, d, x) {
        rows.push(row)?;
    }
    Ok(())
}

/// The rows in which one was sent since.
fn sent_since(alloc: Global, c: Conn, d: Dir, h: &[Entry]) -> Result<Vec<usize>, AllocError>
    ensures { IfOk result (λ v. v.items ≡ sent_since c d (past_of h.now)) }
{
    let mut rows = Vec::new(alloc);
    for (i, x) in h.iter().enumerate() {
        add_sent(&mut rows, c, d, x, i)?;
    }
    Ok(rows)
}

/// The row in which the message was sent that comes next after these rows.
fn origin(alloc: Global, c: Conn, d: Dir, h: &[Entry]) -> Result<Option<usize>, AllocError>
    ensures { IfOk result (λ o. o ≡ origin c d (past_of h.now)) }
{
    let rows = sent_since(alloc, c, d, h)?;
    match rows.get(got_since(c, d, h)) {
        Some(row) => Ok(Some(*row)),
        None => Ok(None),
    }
}

/// The row in which the message was sent that the entry gets.
pub(crate) fn origin_in(alloc: Global, h: &[Entry], x: &Entry) -> Result<Option<usize>, AllocError>
    ensures { IfOk result (λ o. o ≡ origin_in (past_of h.now) x.now) }
{
    match *x {
        Entry::Got(c, d, _) => origin(alloc, c, d, h),
        _ => Ok(None),
    }
}

/// Adds a row, where there is one.
fn add_arrived(rows: &mut Vec<usize>, o: Option<usize>) -> Result<(), AllocError>
    ensures { OnOk result (past_of rows.new.items ≡ put o (past_of rows.old.items)) }
{
    if let Some(row) = o {
        rows.push(row)?;
    }
    Ok(())
}

/// The rows in which a message was sent that came.
///
/// # Errors
///
/// [`AllocError`] where memory ran out.
pub fn arrived_of(alloc: Global, h: &[Entry]) -> Result<Vec<usize>, AllocError>
    ensures rows { IfOk result (λ v. past_of v.items ≡ arrived (past_of h.now)) }
{
    let mut rows = Vec::new(alloc);
    for (i, x) in h.iter().enumerate() {
        let sent = origin_in(alloc, &h[..i], x)?;
        add_arrived(&mut rows, sent)?;
    }
    Ok(rows)
}
