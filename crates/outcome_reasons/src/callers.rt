//! The newest call of a transaction, and the moment of an entry.
ghost use Rattle.std.specs.Prelude.{◌≡◌};
ghost use Rattle.dtx_model.specs.Words.{or_else, past_of};
ghost use Rattle.outcome_reasons.specs.Moments.{caller, caller_in, line_in, moment, number_at};

use crate::said::{Caller, Moment};
use dtx_values::Entry;

/// The call that the entry is, else the older one.
fn newer_call(x: &Entry, older: Option<Caller>) -> Option<Caller>
    ensures { result ≡ or_else (caller_in x.now) older }
{
    match *x {
        Entry::Called(line, actor, _) => Some(Caller { line, actor }),
        _ => older,
    }
}

/// The newest call.
pub(crate) fn newest_call(h: &[Entry]) -> Option<Caller>
    ensures { result ≡ caller (past_of h.now) }
{
    let mut newest = None;
    for x in h {
        newest = newer_call(x, newest);
    }
    newest
}

/// The line of the newest call; 0 where there is none.
pub(crate) fn newest_line(h: &[Entry]) -> u32
    ensures { result ≡ line_in (caller (past_of h.now)) }
{
    match newest_call(h) {
        Some(caller) => caller.line,
        None => 0,
    }
}

/// The number in the trace of the entry at this place of a history; 0 where there is none.
pub fn number_at(numbers: &[u64], place: usize) -> u64
    ensures { result ≡ number_at place (past_of numbers.now) }
{
    match numbers.get(place) {
        Some(number) => *number,
        None => 0,
    }
}

/// The moment of the entry that comes after h.
pub(crate) fn moment(numbers: &[u64], h: &[Entry], x: &Entry) -> Moment
    ensures { result ≡ moment (past_of numbers.now) (past_of h.now) x.now }
{
    let caller = newer_call(x, newest_call(h));
    Moment {
        caller,
        entry: number_at(numbers, h.len()),
    }
}
