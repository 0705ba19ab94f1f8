//! The rows of a transaction's picture.
ghost use Rattle.std.specs.Prelude.{◌≡◌, IfOk, OnOk};
ghost use Rattle.dtx_model.specs.Caused.{is_begin_sent};
ghost use Rattle.dtx_model.specs.Words.{has, past_of};
ghost use Rattle.trace_picture.specs.Rows.{rows, shows, with_row};

use dtx_values::{Conn, Dir, Entry, Message, Place, TxNo};
use entry_lists::Trace;
use outcome_reasons::History;
use std::alloc::{AllocError, Global};

/// Whether the entry sends BEGIN.
fn is_begin_sent(x: &Entry) -> bool
    ensures { result ≡ is_begin_sent x.now }
{
    matches!(x, Entry::Sent(Conn::Begin, Dir::Up, Message::BeginBegin))
}

/// Whether BEGIN was sent.
fn has_sent_begin(h: &[Entry]) -> bool
    ensures { result ≡ has (λ x. is_begin_sent x) h.now }
{
    h.iter().any(|x| is_begin_sent(x))
}

/// Whether an entry at this place has a row.
#[tactic(auto, using(dtx_model::proofs::Reading::reading))]
fn shows(t: TxNo, h: &[Entry], place: Place) -> bool
    ensures { result ≡ shows t.value (past_of h.now) place }
{
    match place {
        Place::Log => has_sent_begin(h),
        Place::Transaction(u) => t == u,
        Place::Context(_) => false,
    }
}

/// Adds the row of an entry, where it has one.
fn add_row(rows: &mut History, t: TxNo, number: u64, z: (Place, Entry)) -> Result<(), AllocError>
    ensures { OnOk result (rows.new ≡ with_row (shows t.value rows.old.entries z.0) number z.1 rows.old) }
{
    if shows(t, &rows.entries, z.0) {
        rows.add(number, z.1)?;
    }
    Ok(())
}

/// The rows of the picture of transaction t: its entries, and those at the log once it has sent BEGIN.
///
/// # Errors
///
/// [`AllocError`] where memory ran out.
pub fn rows_of(alloc: Global, trace: &Trace, t: TxNo) -> Result<History, AllocError>
    ensures rows { IfOk result (λ r. r ≡ rows t.value (past_of trace.now)) }
{
    let mut rows = History::new(alloc);
    for i in 0..trace.len() {
        add_row(&mut rows, t, i as u64 + 1, trace.at(i))?;
    }
    Ok(rows)
}
