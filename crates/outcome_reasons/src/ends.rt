//! Why a connection ended.
ghost use Rattle.std.specs.Prelude.{◌≡◌, if◌then◌else◌};
ghost use Rattle.dtx_model.specs.Outcome.{is_begin_end, is_voter_end};
ghost use Rattle.dtx_model.specs.Words.{past_of};
ghost use Rattle.dtx_values.specs.declared.message.Conn.TheVariants.{Begin, Enl, Voter};
ghost use Rattle.outcome_reasons.specs.Doubts.{is_its_end};
ghost use Rattle.outcome_reasons.specs.Roots.{end_root, root, root_after};

use crate::callers::{newest_line, number_at};
use crate::said::Root;
use dtx_values::{Conn, EnlNo, Entry};
use history_judge::{ended_there, is_begin_end, is_voter_end};

/// The root of an end of c after one more entry.
fn root_after(numbers: &[u64], c: Conn, h: &[Entry], x: &Entry, before: Root) -> Root
    ensures { result ≡ root_after (past_of numbers.now) c (past_of h.now) x.now before }
{
    match *x {
        Entry::Cut(d, _, _) => {
            if c == d {
                Root::Cut(c, newest_line(h))
            } else {
                before
            }
        }
        Entry::Stopped => Root::Stopped(number_at(numbers, h.len())),
        _ => before,
    }
}

/// Why connection c ended: the latest cut of it, or stop of the coordinator.
pub(crate) fn root(numbers: &[u64], c: Conn, h: &[Entry]) -> Root
    ensures { result ≡ root (past_of numbers.now) c (past_of h.now) }
{
    let mut found = Root::Unsaid(c);
    for (i, x) in h.iter().enumerate() {
        found = root_after(numbers, c, &h[..i], x, found);
    }
    found
}

/// Why b ended, by what stands before the newest entry at which the local side saw its end.
pub(crate) fn begin_root(numbers: &[u64], h: &[Entry]) -> Root
    ensures { result ≡ end_root (past_of numbers.now) Begin is_begin_end (past_of h.now) }
{
    let mut found = Root::Unsaid(Conn::Begin);
    for (i, x) in h.iter().enumerate() {
        if is_begin_end(x) {
            found = root(numbers, Conn::Begin, &h[..i]);
        }
    }
    found
}

/// The same of v.
pub(crate) fn voter_root(numbers: &[u64], h: &[Entry]) -> Root
    ensures { result ≡ end_root (past_of numbers.now) Voter is_voter_end (past_of h.now) }
{
    let mut found = Root::Unsaid(Conn::Voter);
    for (i, x) in h.iter().enumerate() {
        if is_voter_end(x) {
            found = root(numbers, Conn::Voter, &h[..i]);
        }
    }
    found
}

/// Whether the coordinator's connection to this enlistment ends by the entry.
fn is_its_end(e: EnlNo, x: &Entry) -> bool
    ensures { result ≡ is_its_end e x.now }
{
    match ended_there(x) {
        Some(f) => e == f,
        None => false,
    }
}

/// The same of the connection of an enlistment, by what stands before the newest entry at which the coordinator saw its end.
pub(crate) fn enlistment_root(numbers: &[u64], e: EnlNo, h: &[Entry]) -> Root
    ensures { result ≡ end_root (past_of numbers.now) (Enl e) (is_its_end e) (past_of h.now) }
{
    let mut found = Root::Unsaid(Conn::Enl(e));
    for (i, x) in h.iter().enumerate() {
        if is_its_end(e, x) {
            found = root(numbers, Conn::Enl(e), &h[..i]);
        }
    }
    found
}
