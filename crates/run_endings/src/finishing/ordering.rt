//! Whether the calls of the lines before `par` come first.
ghost use Rattle.std.specs.Prelude.{◌≡◌, ◌∷◌, List};
ghost use Rattle.dtx_values.specs.declared.entry.Entry.{Entry};
ghost use Rattle.dtx_model.specs.Words.{past_of};
ghost use Rattle.script_calls.specs.FirstCalls.{are_first, comes_first};
ghost use Rattle.run_endings.specs.Highest.{IsHighest};

use dtx_values::Entry;
use entry_lists::Entries;
use std::cmp::max;

/// The highest line that is called up to this entry, where `highest` is that before it, or 0 where none is called.
fn highest_after(highest: usize, e: &Entry) -> usize
    ensures { (past : List Entry) → IsHighest highest past → IsHighest result (e.now ∷ past) }
{
    match e {
        Entry::Called(n, _, _) => max(highest, *n as usize),
        _ => highest,
    }
}

/// Whether the entry, where it is a call of a line before line `par`, comes after calls of no higher line; `highest` is the highest of theirs.
fn comes_first(par: usize, highest: usize, e: &Entry) -> bool
    ensures { (past : List Entry) → IsHighest highest past → result ≡ comes_first par past e.now }
{
    match e {
        Entry::Called(n, _, _) => par <= *n as usize || highest <= *n as usize,
        _ => true,
    }
}

/// Whether in a transaction's history the calls of the lines before line `par` come first, in order of lines.
pub(super) fn are_first(par: usize, h: &Entries) -> bool
    ensures { result ≡ are_first par (past_of h.now.items) }
{
    let mut first = true;
    let mut highest = 0;
    for i in 0..h.len() {
        let e = h.at(i);
        first &= comes_first(par, highest, &e);
        highest = highest_after(highest, &e);
    }
    first
}

/// Whether among the entries at the log the calls of the lines before line `par` come first, in order of lines.
pub(super) fn are_first_at_log(par: usize, at_log: &[Entry]) -> bool
    ensures { result ≡ are_first par (past_of at_log.now) }
{
    let mut first = true;
    let mut highest = 0;
    for e in at_log {
        first &= comes_first(par, highest, e);
        highest = highest_after(highest, e);
    }
    first
}
