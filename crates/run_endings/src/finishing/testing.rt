//! What is tested of the states at the end.
ghost use Rattle.std.specs.Prelude.{◌≡◌, ◌↔◌, IfErr, IsTrue, OnOk, map, true};
ghost use Rattle.std.specs.List.{All};
ghost use Rattle.dtx_values.specs.Table.{how_many};
ghost use Rattle.dtx_model.specs.AtLog.{follows, is_opened, is_restart, is_up_by, up_of};
ghost use Rattle.dtx_model.specs.Caused.{is_begin_sent};
ghost use Rattle.dtx_model.specs.Wires.{is_stopped, stop_of};
ghost use Rattle.dtx_model.specs.Words.{each, has, past_of};
ghost use Rattle.script_calls.specs.FirstCalls.{are_first, par_line};
ghost use Rattle.run_endings.specs.Stops.{EndsFor, IsWrong};
ghost use Rattle.tx_cells.specs.Board.{transactions_of};
ghost use Rattle.tx_cells.specs.Ties.{TiesWith};
ghost use Rattle.dtx_model.specs.Tied.{is_stop};

use super::ordering::{are_first, are_first_at_log};
use crate::stop::RunStop;
use dtx_values::{Conn, Dir, Entry, Line, LogNote, Message, Script, TxNo};
use entry_lists::Entries;
use outside::Disk;
use script_calls::par_line;
use tx_cells::{CellState, LogState, Made, Run};

/// Whether the entry is a stop.
fn is_stop(e: &Entry) -> bool
    ensures { result ≡ is_stop e.now }
{
    matches!(e, Entry::Stopped)
}

/// Whether the entry is a restart of a transaction.
fn is_restart(e: &Entry) -> bool
    ensures { result ≡ is_restart e.now }
{
    matches!(e, Entry::Restarted(_))
}

/// Whether the entry is an opening of the log.
fn is_opened(e: &Entry) -> bool
    ensures { result ≡ is_opened e.now }
{
    matches!(e, Entry::LogWord(LogNote::Opened(_)))
}

/// Whether BEGIN was sent.
fn is_begin_sent(e: &Entry) -> bool
    ensures { result ≡ is_begin_sent e.now }
{
    matches!(e, Entry::Sent(Conn::Begin, Dir::Up, Message::BeginBegin))
}

/// Whether the log is up after an entry at it, where the entry says so.
fn up_of(e: &Entry) -> Option<bool>
    ensures { result ≡ up_of e.now }
{
    match e {
        Entry::Stopped => Some(false),
        Entry::LogWord(LogNote::Opened(_)) => Some(true),
        _ => None,
    }
}

/// Whether a transaction's coordinator stands stopped after an entry, where the entry says so.
fn stop_of(e: &Entry) -> Option<bool>
    ensures { result ≡ stop_of e.now }
{
    match e {
        Entry::Stopped => Some(true),
        Entry::Restarted(_) => Some(false),
        _ => None,
    }
}

/// How many stops the log has.
fn stops_at(at_log: &[Entry]) -> usize
    ensures { result ≡ how_many is_stop (past_of at_log.now) }
{
    let mut n = 0;
    for e in at_log {
        n += usize::from(is_stop(e));
    }
    n
}

/// How often the log was opened.
fn openings_at(at_log: &[Entry]) -> usize
    ensures { result ≡ how_many is_opened (past_of at_log.now) }
{
    let mut n = 0;
    for e in at_log {
        n += usize::from(is_opened(e));
    }
    n
}

/// Whether the log is up, by its entries.
fn is_up_by(at_log: &[Entry]) -> bool
    ensures { result ≡ is_up_by (past_of at_log.now) }
{
    let mut up = true;
    for e in at_log {
        up = up_of(e).unwrap_or(up);
    }
    up
}

/// How many stops a transaction's history has.
fn stops_in(h: &Entries) -> usize
    ensures { result ≡ how_many is_stop (past_of h.now.items) }
{
    let mut n = 0;
    for i in 0..h.len() {
        n += usize::from(is_stop(&h.at(i)));
    }
    n
}

/// How many restarts a transaction's history has.
fn restarts_in(h: &Entries) -> usize
    ensures { result ≡ how_many is_restart (past_of h.now.items) }
{
    let mut n = 0;
    for i in 0..h.len() {
        n += usize::from(is_restart(&h.at(i)));
    }
    n
}

/// Whether BEGIN was sent in a transaction's history.
fn has_begun(h: &Entries) -> bool
    ensures { result ≡ has is_begin_sent (past_of h.now.items) }
{
    let mut begun = false;
    for i in 0..h.len() {
        begun |= is_begin_sent(&h.at(i));
    }
    begun
}

/// Whether a transaction's coordinator stands stopped.
fn is_stopped(h: &Entries) -> bool
    ensures { result ≡ is_stopped (past_of h.now.items) }
{
    let mut stopped = false;
    for i in 0..h.len() {
        stopped = stop_of(&h.at(i)).unwrap_or(stopped);
    }
    stopped
}

/// Whether a transaction with this history follows the log with these entries.
fn follows(at_log: &[Entry], h: &Entries) -> bool
    ensures { result ≡ follows (past_of at_log.now) (past_of h.now.items) }
{
    stops_in(h) <= stops_at(at_log)
        && restarts_in(h) <= openings_at(at_log)
        && (!has_begun(h) || is_stopped(h) != is_up_by(at_log))
}

/// Whether the states are those of the script's transactions, by number.
fn are_by_number<N: Run>(s: &[Line], states: &[CellState<N>]) -> bool
    ensures { IsTrue result ↔ (map (λ c. c.tx.transaction.t.value) states.now ≡ transactions_of s.now) }
{
    let made = Made::of(s);
    let mut rest = states;
    for n in 1..TxNo::MAX + 1 {
        let t = TxNo::new(n).unwrap();
        if !made.has(t) {
            continue;
        }
        let Some((first, others)) = rest.split_first() else {
            return false;
        };
        if first.t() != t {
            return false;
        }
        rest = others;
    }
    rest.is_empty()
}

/// That what the transaction keeps ties with the log, and follows it, and that the calls of the lines before line `par` come first there.
fn is_right<D: Disk, N: Run>(
    state: &CellState<N>,
    log: &LogState<D, N>,
    par: usize,
) -> Result<(), RunStop>
    ensures tied { OnOk result (TiesWith state.now.tx log.now.log) }
    ensures followed { OnOk result (follows log.now.past state.now.tx.world.past ≡ true) }
    ensures first { OnOk result (are_first par state.now.tx.world.past ≡ true) }
    ensures cause { IfErr result (IsWrong par state.now log.now) }
{
    if let Err(differs) = state.ties(log) {
        return Err(RunStop::Differs(differs));
    }
    if !follows(log.entries(), state.history()) || !are_first(par, state.history()) {
        return Err(RunStop::Astray);
    }
    Ok(())
}

/// That the states are those of the script's transactions, by number, that each ties with the log, and follows it, and that at each, and at the log, the calls of the lines before `par` come first.
///
/// # Errors
///
/// [`RunStop::Differs`] where one doesn't tie with the log, and [`RunStop::Astray`] where they are others, one doesn't follow it, or a call of a line before `par` doesn't come first.
pub(super) fn test_all<D: Disk, N: Run>(
    s: &Script,
    states: &[CellState<N>],
    log: &LogState<D, N>,
) -> Result<(), RunStop>
    ensures named { OnOk result (map (λ c. c.tx.transaction.t.value) states.now ≡ transactions_of s.now) }
    ensures tied { OnOk result (All (λ c. TiesWith c.tx log.now.log) states.now) }
    ensures followed { OnOk result (each (λ c. follows log.now.past c.tx.world.past) states.now ≡ true) }
    ensures first { OnOk result (each (λ c. are_first (par_line s.now) c.tx.world.past) states.now ≡ true) }
    ensures first_at_log { OnOk result (are_first (par_line s.now) log.now.past ≡ true) }
    ensures cause { IfErr result (EndsFor s.now states.now log.now) }
{
    if !are_by_number(s.lines(), states) {
        return Err(RunStop::Astray);
    }
    let par = par_line(s.lines());
    if !are_first_at_log(par, log.entries()) {
        return Err(RunStop::Astray);
    }
    for state in states {
        is_right(state, log, par)?;
    }
    Ok(())
}
