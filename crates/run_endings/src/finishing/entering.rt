//! Entering the calls that the threads left.
ghost use Rattle.std.specs.Prelude.{◌≡◌, ◌≢◌, ◌+◌, ◌⊎◌, IfErr, IfNone, IfSome, IsSome, MatchOption, None, Ok, OnOk, Some, false, length, nat_lt, true};
ghost use Rattle.dtx_values.specs.declared.number.ActorNo.{ActorNo};
ghost use Rattle.dtx_model.specs.Words.{each};
ghost use Rattle.dtx_values.specs.declared.call.Call.{Call};
ghost use Rattle.script_calls.specs.declared.rows.Due.{Due};
ghost use Rattle.script_calls.specs.Rows.{are_entered, further, row_at};
ghost use Rattle.run_endings.specs.Finishing.{HaveSameNumbers, IsDueAt, MayAsk, is_await, left_among, left_of};
ghost use Rattle.run_endings.specs.Stops.{IsReason, StopsFor};
ghost use Rattle.tx_cells.specs.Entering.{next_of};
ghost use Rattle.tx_cells.specs.LogEntering.{next_at_log};

use super::following::{follow_all, follow_stop};
use super::settling::settle;
use crate::stop::RunStop;
use dtx_values::{ActorNo, Call, Resource, RmNo};
use outside::Disk;
use script_calls::Due;
use tx_cells::{CellState, LogState, Run, TurnError};

/// Whether this line comes before that one, where there is one.
fn is_lower(line: u32, least: Option<u32>) -> bool
    ensures { MatchOption least (result ≡ true) (λ n. result ≡ nat_lt line n) }
{
    match least {
        Some(least) => line < least,
        None => true,
    }
}

/// The line of a place, where there is one.
fn line_of(place: Option<(usize, u32)>) -> Option<u32>
    ensures { MatchOption place (result ≡ None) (λ x. result ≡ Some x.1) }
{
    let (_, line) = place?;
    Some(line)
}

/// This place and the line of this call, where it comes before that of the best place so far.
fn better(best: Option<(usize, u32)>, place: usize, next: Option<Due<Call>>) -> Option<(usize, u32)>
    ensures either { (result ≡ best) ⊎ ((d : Due Call) × (next ≡ Some d) × (result ≡ Some (place, d.line))) }
    ensures some { IsSome next → IsSome result }
    ensures kept { IsSome best → IsSome result }
{
    let Some(due) = next else {
        return best;
    };
    if is_lower(due.line, line_of(best)) {
        Some((place, due.line))
    } else {
        best
    }
}

/// The place of a transaction at which the actor's next call is of the lowest line, and that line; `None` where it has none left at any.
fn next_place<N: Run>(states: &[CellState<N>], a: ActorNo) -> Option<(usize, u32)>
    ensures there { IfSome result (λ x. IsDueAt a states.now x.0) }
    ensures none { IfNone result (left_among a states.now ≡ 0) }
{
    let mut best = None;
    for i in 0..states.len() {
        best = better(best, i, states[i].next(a));
    }
    best
}

/// The line of the actor's next call at the log; `None` where it has none left there.
fn next_line<D: Disk, N: Run>(log: &LogState<D, N>, a: ActorNo) -> Option<u32>
    ensures { MatchOption (next_at_log a log.now) (result ≡ None) (λ d. result ≡ Some d.line) }
{
    let due = log.next(a)?;
    Some(due.line)
}

/// Whether the call is an await.
fn is_await(c: &Call) -> bool
    ensures { result ≡ is_await c.now }
{
    matches!(c, Call::Await(_))
}

/// Enters the actor's next call at the transaction, which there is. Before an await the transaction is settled.
fn enter<D: Disk, N: Run>(
    managers: &[Option<RmNo>],
    resources: &mut [Box<dyn Resource + Send>],
    state: &mut CellState<N>,
    log: &mut LogState<D, N>,
    a: ActorNo,
) -> Result<(), TurnError>
    requires asked { MayAsk N.script N.objects managers.now (length resources.old) }
    requires next { IsSome (next_of a state.old) }
    ensures row { OnOk result (row_at a state.new.rows ≡ further (row_at a state.old.rows)) }
    ensures others { OnOk result ((b : ActorNo) → b ≢ a → row_at b state.new.rows ≡ row_at b state.old.rows) }
    ensures log_rows { OnOk result (log.new.rows ≡ log.old.rows) }
    ensures cause { IfErr result (IsReason state.new.tx log.new.log) }
    ensures transaction { state.new.tx.transaction ≡ state.old.tx.transaction }
{
    let due = state.next(a).unwrap();
    if is_await(&due.call) {
        settle(managers, resources, state, log)?;
        state.enter_with(log, a, due.line)?;
        return Ok(());
    }
    state.enter_with(log, a, due.line)?;
    Ok(())
}

/// Enters the actor's next call at the transaction of this place. Where the log was stopped before an await, each transaction hears of that.
fn enter_at<D: Disk, N: Run>(
    managers: &[Option<RmNo>],
    resources: &mut [Box<dyn Resource + Send>],
    states: &mut [CellState<N>],
    log: &mut LogState<D, N>,
    a: ActorNo,
    i: usize,
) -> Result<(), RunStop>
    requires asked { MayAsk N.script N.objects managers.now (length resources.old) }
    requires next { IsDueAt a states.old i }
    ensures less { OnOk result (left_of a states.new log.new + 1 ≡ left_of a states.old log.old) }
    ensures others { OnOk result ((b : ActorNo) → b ≢ a → left_of b states.new log.new ≡ left_of b states.old log.old) }
    ensures numbers { HaveSameNumbers states.old states.new }
    ensures cause { IfErr result (StopsFor states.new log.new) }
{
    let was_up = log.is_up();
    enter(managers, resources, &mut states[i], log, a)?;
    follow_stop(states, log, was_up)
}

/// Enters the actor's next call at the log; false where it has none left there. Then each transaction hears what the log's state gives it.
fn enter_at_log<D: Disk, N: Run>(
    states: &mut [CellState<N>],
    log: &mut LogState<D, N>,
    a: ActorNo,
) -> Result<bool, RunStop>
    ensures none { result ≡ Ok false → (next_at_log a log.old ≡ None) × (states.new ≡ states.old) × (log.new ≡ log.old) }
    ensures less { result ≡ Ok true → left_of a states.new log.new + 1 ≡ left_of a states.old log.old }
    ensures others { OnOk result ((b : ActorNo) → b ≢ a → left_of b states.new log.new ≡ left_of b states.old log.old) }
    ensures numbers { HaveSameNumbers states.old states.new }
    ensures cause { IfErr result (StopsFor states.new log.new) }
{
    let Some(due) = log.next(a) else {
        return Ok(false);
    };
    log.enter(a, due.line)?;
    follow_all(states, log)?;
    Ok(true)
}

/// Enters the actor's next call, that of the lowest line; false where none is left.
fn enter_next<D: Disk, N: Run>(
    managers: &[Option<RmNo>],
    resources: &mut [Box<dyn Resource + Send>],
    states: &mut [CellState<N>],
    log: &mut LogState<D, N>,
    a: ActorNo,
) -> Result<bool, RunStop>
    requires { MayAsk N.script N.objects managers.now (length resources.old) }
    ensures none { result ≡ Ok false → left_of a states.new log.new ≡ 0 }
    ensures less { result ≡ Ok true → left_of a states.new log.new + 1 ≡ left_of a states.old log.old }
    ensures others { OnOk result ((b : ActorNo) → b ≢ a → left_of b states.new log.new ≡ left_of b states.old log.old) }
    ensures numbers { HaveSameNumbers states.old states.new }
    ensures cause { IfErr result (StopsFor states.new log.new) }
{
    let Some((i, line)) = next_place(states, a) else {
        return enter_at_log(states, log, a);
    };
    if is_lower(line, next_line(log, a)) {
        enter_at(managers, resources, states, log, a, i)?;
        return Ok(true);
    }
    enter_at_log(states, log, a)
}

/// Enters the actor's calls that aren't entered yet, in order of lines.
fn enter_actor<D: Disk, N: Run>(
    managers: &[Option<RmNo>],
    resources: &mut [Box<dyn Resource + Send>],
    states: &mut [CellState<N>],
    log: &mut LogState<D, N>,
    a: ActorNo,
) -> Result<(), RunStop>
    requires { MayAsk N.script N.objects managers.now (length resources.old) }
    ensures none { OnOk result (left_of a states.new log.new ≡ 0) }
    ensures others { OnOk result ((b : ActorNo) → b ≢ a → left_of b states.new log.new ≡ left_of b states.old log.old) }
    ensures numbers { HaveSameNumbers states.old states.new }
    ensures cause { IfErr result (StopsFor states.new log.new) }
{
    loop {
        if !enter_next(managers, resources, states, log, a)? {
            return Ok(());
        }
    }
}

/// That each call of the transactions was entered, where no actor has one left. It does nothing when it runs; a proof asks for it.
fn each_is_entered<N: Run>(states: &[CellState<N>])
    requires { (a : ActorNo) → left_among a states.now ≡ 0 }
    ensures { each (λ c. are_entered c.rows) states.now ≡ true }
{
    for state in states {
        prove!(state.are_entered());
    }
}

/// Enters each call that isn't entered yet, actor by actor and in order of lines. Before an await its transaction is settled.
pub(super) fn enter_all<D: Disk, N: Run>(
    managers: &[Option<RmNo>],
    resources: &mut [Box<dyn Resource + Send>],
    states: &mut [CellState<N>],
    log: &mut LogState<D, N>,
) -> Result<(), RunStop>
    requires { MayAsk N.script N.objects managers.now (length resources.old) }
    ensures entered { OnOk result (each (λ c. are_entered c.rows) states.new ≡ true) }
    ensures at_log { OnOk result (are_entered log.new.rows ≡ true) }
    ensures numbers { HaveSameNumbers states.old states.new }
    ensures cause { IfErr result (StopsFor states.new log.new) }
{
    for n in 1..ActorNo::MAX + 1 {
        let a = ActorNo::new(n).unwrap();
        enter_actor(managers, resources, states, log, a)?;
    }
    each_is_entered(states);
    prove!(log.are_entered());
    Ok(())
}
