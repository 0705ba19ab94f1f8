//! What each thread of a run does.
ghost use Rattle.std.specs.Prelude.{◌≡◌, IfErr, length};
ghost use Rattle.tx_cells.specs.Ties.{HasCause};
ghost use Rattle.tx_threads.specs.Turning.{is_await_at};

use crate::contexts::{ToDo, What};
use dtx_values::{ActorNo, Body, Line, Resource, TxNo};
use outside::{Disk, Gate};
use std::alloc::{AllocError, Global};
use std::sync::atomic::{AtomicU64, Ordering};
use std::sync::{Mutex, Wait};
use std::thread;
use tx_threads::{Cells, Run, SharedLog, TurnError, await_as, call_as, call_at_log, help_one};

/// What the threads of a run share.
#[derive(Drop)]
pub(super) struct Shared<'a, D: Disk, G: Gate, N: Run> {
    pub(super) lines: &'a [Line],
    pub(super) cells: &'a Cells<N>,
    pub(super) log: &'a SharedLog<D, N>,
    pub(super) gate: &'a G,
    pub(super) resources: &'a [Mutex<Box<dyn Resource + Send>>],
    /// How many actors have a thread: those of the first numbers.
    pub(super) actors: usize,
    /// How many of them have ended.
    pub(super) ended: &'a AtomicU64,
}

/// How often a helper looks for something to do, at most.
const TURNS: u32 = 1_000_000;

/// Whether line n is an await.
fn is_await(s: &[Line], n: u32) -> bool
    ensures { result ≡ is_await_at s.now n }
{
    if n == 0 {
        return false;
    }
    match s.get(n as usize - 1) {
        Some(l) => matches!(l.body, Body::Await(_)),
        None => false,
    }
}

/// Makes a call, at its transaction or at the log. One that isn't the actor's next there is left out: the caller of the run enters it afterwards.
///
/// # Errors
///
/// As `call_as`, `await_as` and `call_at_log`.
pub(super) fn call<D: Disk, G: Gate, N: Run, R: Wait>(
    rt: &R,
    alloc: Global,
    x: &Shared<D, G, N>,
    due: ToDo,
) -> Result<(), TurnError>
    requires named { x.now.lines.now ≡ N.script }
    requires objects { length x.now.resources.now ≡ N.objects }
    ensures { IfErr result HasCause }
{
    let (a, line) = (due.actor, due.line);
    match due.what {
        What::AtLog => {
            call_at_log(rt, alloc, x.cells, x.log, a, line)?;
        }
        What::Call(t) => {
            if x.cells.has(t) {
                call_as(rt, alloc, x.cells, x.log, x.gate, x.resources, a, line, t)?;
            }
        }
        What::Await(t) => {
            if !x.cells.has(t) {
                return Ok(());
            }
            if !is_await(x.lines, line) {
                return Ok(());
            }
            let mut note = x.cells.note_of(t);
            await_as(
                rt,
                alloc,
                x.cells,
                x.log,
                x.gate,
                x.resources,
                &mut note,
                a,
                line,
                t,
            )?;
        }
    }
    Ok(())
}

/// Makes an actor's calls, in order.
///
/// # Errors
///
/// As `call`.
pub(super) fn act<D: Disk, G: Gate, N: Run, R: Wait>(
    rt: &R,
    alloc: Global,
    x: &Shared<D, G, N>,
    to_do: &[ToDo],
    a: ActorNo,
) -> Result<(), TurnError>
    requires named { x.now.lines.now ≡ N.script }
    requires objects { length x.now.resources.now ≡ N.objects }
    ensures { IfErr result HasCause }
{
    for due in to_do {
        if due.actor == a {
            call(rt, alloc, x, *due)?;
        }
    }
    Ok(())
}

/// The transactions of the run, by number.
///
/// # Errors
///
/// Where memory ran out.
fn transactions<N: Run>(alloc: Global, cells: &Cells<N>) -> Result<Vec<TxNo>, AllocError> {
    let mut transactions = Vec::new(alloc);
    for cell in cells.all() {
        transactions.push(cell.t())?;
    }
    Ok(transactions)
}

/// Does pending steps, of one transaction after the other, until the actors have ended. After a round in which nothing was to be done it lets others go first.
///
/// # Errors
///
/// As `help_one`.
pub(super) fn help<D: Disk, G: Gate, N: Run, R: Wait>(
    rt: &R,
    alloc: Global,
    x: &Shared<D, G, N>,
) -> Result<(), TurnError>
    requires objects { length x.now.resources.now ≡ N.objects }
    ensures { IfErr result HasCause }
{
    let transactions = transactions(alloc, x.cells)?;
    let count = transactions.len();
    if count == 0 {
        return Ok(());
    }
    let mut did = false;
    for turn in 0..TURNS {
        if x.ended.load(Ordering::SeqCst) >= x.actors as u64 {
            break;
        }
        let place = turn as usize % count;
        let t = transactions[place];
        if x.cells.has(t) {
            if help_one(rt, alloc, x.cells, x.log, x.gate, x.resources, t)? {
                did = true;
            }
        }
        if place + 1 == count {
            if !did {
                thread::yield_now();
            }
            did = false;
        }
    }
    Ok(())
}
