//! The calls before the threads of a run, and the threads.
ghost use Rattle.std.specs.Prelude.{◌≡◌, ◌≤◌, ◌++◌, IfErr, IfOk, OnOk, false, length};
ghost use Rattle.std.specs.List.{All};
ghost use Rattle.dtx_values.specs.declared.number.ActorNo.{ActorNo};
ghost use Rattle.dtx_model.specs.Words.{has};
ghost use Rattle.run_endings.specs.Stops.{IsNamed};
ghost use Rattle.tx_cells.specs.Ties.{HasCause};
ghost use Rattle.script_calls.specs.FirstCalls.{par_line};
ghost use Rattle.thread_runs.specs.Threads.{ComesFrom, before_line, differing, found_differing, lacked_memory};

use crate::contexts::ToDo;
use crate::running::turns::{Shared, act, call, help};
use dtx_values::{ActorNo, Differs, Line};
use outside::{Disk, Gate};
use run_endings::RunStop;
use script_calls::par_line;
use std::alloc::{AllocError, Global};
use std::cmp::max;
use std::sync::Wait;
use std::sync::atomic::Ordering;
use std::thread;
use std::thread::Threads;
use tx_threads::{Run, TurnError};

/// The calls of the lines before the `par` line, and the others: those that are to be made stand in order of lines. Without a `par` line none stands before.
pub(super) fn split_at_par<'a>(s: &[Line], to_do: &'a [ToDo]) -> (&'a [ToDo], &'a [ToDo])
    ensures before { result.0.now ≡ before_line (par_line s.now) to_do.now }
    ensures all { result.0.now ++ result.1.now ≡ to_do.now }
{
    let par = par_line(s);
    for i in 0..to_do.len() {
        if par <= to_do[i].line as usize {
            return to_do.split_at(i);
        }
    }
    to_do.split_at(to_do.len())
}

/// The highest number of an actor that has calls; 0 where none has.
pub(super) fn highest_in(to_do: &[ToDo]) -> usize
    ensures { result ≤ ActorNo.MAX }
{
    let mut highest = 0;
    for due in to_do {
        highest = max(highest, due.actor.index() + 1);
    }
    highest
}

/// The two kept values that a thread found to differ.
fn differing(end: Result<(), TurnError>) -> Option<Differs>
    ensures { result ≡ differing end }
{
    let Err(error) = end else {
        return None;
    };
    match error {
        TurnError::Differs(differs) => Some(differs),
        TurnError::Memory => None,
    }
}

/// Whether memory ran out for a thread.
fn any_lacks(ends: &[Result<(), TurnError>]) -> bool
    ensures { result ≡ has lacked_memory ends.now }
{
    ends.iter().any(|end| matches!(end, Err(TurnError::Memory)))
}

/// What the threads came to.
fn come_to(ends: &[Result<(), TurnError>]) -> Result<(), RunStop>
    requires { All (λ e. IfErr e HasCause) ends.now }
    ensures done { OnOk result ((has found_differing ends.now ≡ false) × (has lacked_memory ends.now ≡ false)) }
    ensures stop { IfErr result (ComesFrom ends.now) }
    ensures named { IfErr result IsNamed }
{
    for i in 0..ends.len() {
        if let Some(differs) = differing(ends[i]) {
            return Err(RunStop::Differs(differs));
        }
    }
    if any_lacks(ends) {
        return Err(RunStop::Memory);
    }
    Ok(())
}

/// What the j-th thread does: the first `x.actors` threads are the actors', the others are helpers.
fn work<N: Run, D: Disk, G: Gate, R: Wait>(
    rt: &R,
    alloc: Global,
    x: &Shared<D, G, N>,
    to_do: &[ToDo],
    j: usize,
) -> Result<(), TurnError>
    requires named { x.now.lines.now ≡ N.script }
    requires objects { length x.now.resources.now ≡ N.objects }
    requires actors { x.now.actors ≤ ActorNo.MAX }
    ensures { IfErr result HasCause }
{
    if j >= x.actors {
        return help(rt, alloc, x);
    }
    let a = ActorNo::new(j as u32 + 1).unwrap();
    let end = act(rt, alloc, x, to_do, a);
    x.ended.fetch_add(1, Ordering::SeqCst);
    end
}

/// What each of so many threads came to.
///
/// Where a thread can't be made, the caller does its work, before that of the threads behind it: so an actor that has none waits for no helper, and a helper that has none ends at its first look.
fn ends_of<N: Run + Send + Sync, D: Disk + Send, G: Gate + Sync, R: Threads + Wait + Sync>(
    rt: &R,
    alloc: Global,
    x: &Shared<D, G, N>,
    to_do: &[ToDo],
    threads: usize,
) -> Result<Vec<Result<(), TurnError>>, AllocError>
    requires named { x.now.lines.now ≡ N.script }
    requires objects { length x.now.resources.now ≡ N.objects }
    requires actors { x.now.actors ≤ ActorNo.MAX }
    ensures { IfOk result (λ v. All (λ e. IfErr e HasCause) v.items) }
{
    thread::map_indices(
        rt,
        alloc,
        threads,
        &|j: usize| -> Result<(), TurnError>
            requires { (x.now.lines.now ≡ N.script) × (length x.now.resources.now ≡ N.objects) × (x.now.actors ≤ ActorNo.MAX) }
            ensures { IfErr result HasCause }
        { work(rt, alloc, x, to_do, j) },
    )
}

/// Makes the calls of the lines before the `par` line in order, alone, and then the others, those of each actor on a thread of its own, with so many helpers beside them.
///
/// # Errors
///
/// [`RunStop::Differs`] where a call answered so, and else [`RunStop::Memory`] where memory ran out.
pub(super) fn call_all<
    N: Run + Send + Sync,
    D: Disk + Send,
    G: Gate + Sync,
    R: Threads + Wait + Sync,
>(
    rt: &R,
    alloc: Global,
    x: &Shared<D, G, N>,
    helpers: u8,
    alone: &[ToDo],
    apart: &[ToDo],
) -> Result<(), RunStop>
    requires named { x.now.lines.now ≡ N.script }
    requires objects { length x.now.resources.now ≡ N.objects }
    requires actors { x.now.actors ≤ ActorNo.MAX }
    ensures { IfErr result IsNamed }
{
    for due in alone {
        call(rt, alloc, x, *due)?;
    }
    let threads = x.actors + usize::from(helpers);
    let ends = ends_of(rt, alloc, x, apart, threads)?;
    come_to(&ends)
}
