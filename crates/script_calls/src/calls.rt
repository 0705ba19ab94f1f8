//! The calls that a script's lines give each transaction and the log, actor by actor.
ghost use Rattle.std.specs.Prelude.{◌≡◌, ◌==◌, List, [], ◌∷◌, length, replicate, IfOk, OnOk, if◌then◌else◌};
ghost use Rattle.dtx_values.specs.declared.number.ActorNo.{ActorNo};
ghost use Rattle.dtx_values.specs.declared.number.TxNo.{TxNo};
ghost use Rattle.dtx_values.specs.declared.script.Line.{Line};
ghost use Rattle.dtx_model.specs.Contexts.{calls_by};
ghost use Rattle.dtx_model.specs.Grammar.{IsScript};
ghost use Rattle.dtx_model.specs.Words.{all_of, put};
ghost use Rattle.script_calls.specs.Due.{calls_at, due_at, log_call, log_calls_at, log_due};
ghost use Rattle.script_calls.specs.Rows.{no_calls, row_at, unentered, with_calls};
ghost use Rattle.script_calls.specs.RowsOf.{rows_of};
ghost use Rattle.script_calls.specs.Scoped.{AreOpen, IsUnopened, calls_given, nothing_open, rolled_at, scopes_at};

use crate::plans::{Plans, call_of};
use crate::rows::{Due, Rows};
use crate::scope_lines::{Gives, act, contexts};
use dtx_values::{ActorNo, Body, Call, Entry, Image, Line, TxNo};
use scope_context::Context;
use std::alloc::{AllocError, Global};

/// A call at the log.
#[derive(Clone, Copy, PartialEq, Eq, Debug)]
pub enum LogCall {
    /// A stop at a device call, from 1 to 99, counted from here on, and what it keeps of the disk.
    Stop(u8, Image),
    Restart,
}

/// The call that a line gives the log; `None` where it gives none.
fn log_call(body: Body) -> Option<LogCall>
    ensures { result ≡ log_call body }
{
    match body {
        Body::Stop(n, image) => Some(LogCall::Stop(n, image)),
        Body::Restart => Some(LogCall::Restart),
        _ => None,
    }
}

/// The calls that a line gives transactions: one by its own words, or those of a scope line, which its actor's context does.
/// The entries are kept for their memory alone.
fn given(
    plans: &Plans,
    contexts: &mut [Context],
    entries: &mut Vec<Entry>,
    l: &Line,
) -> Result<Gives, AllocError>
    requires unopened { IsUnopened l.now.body (scopes_at l.now.actor contexts.old) }
    requires all { length contexts.old ≡ ActorNo.MAX }
    ensures calls { IfOk result (λ g. (before : List Line) → AreOpen contexts.old before → calls_given g (rolled_at l.now.actor contexts.new) ≡ calls_by plans.now before l.now) }
    ensures scopes { OnOk result ((before : List Line) → AreOpen contexts.old before → AreOpen contexts.new (l.now ∷ before)) }
{
    if let Some((t, c)) = call_of(plans, l.body) {
        return Ok(Gives::Call(t, c));
    }
    let context = &mut contexts[l.actor.index()];
    let room = context.scopes().len() + 1;
    entries.clear();
    entries.reserve(room)?;
    match act(context, l.body, entries) {
        Some(acted) => Ok(acted.gives),
        None => Ok(Gives::Nothing),
    }
}

/// Puts a call of line n at the end of its actor's row at its transaction.
fn add(rows: &mut [Rows<Call>], n: u32, a: ActorNo, t: TxNo, c: Call) -> Result<(), AllocError>
    requires { length rows.old ≡ TxNo.MAX }
    ensures { OnOk result ((u : TxNo) (b : ActorNo) → row_at b (rows_of u rows.new)
        ≡ with_calls (if b.value == a.value then put (due_at u.value n (t, c)) [] else []) (row_at b (rows_of u rows.old))) }
{
    rows[t.index()].add(a, Due { line: n, call: c })
}

/// Puts a rollback of each of these transactions, by line n, at the end of its actor's row there.
fn add_rollbacks(
    rows: &mut [Rows<Call>],
    n: u32,
    a: ActorNo,
    rolled: &[TxNo],
) -> Result<(), AllocError>
    requires { length rows.old ≡ TxNo.MAX }
    ensures { OnOk result ((u : TxNo) (b : ActorNo) → row_at b (rows_of u rows.new)
        ≡ with_calls (if b.value == a.value then all_of (due_at u.value n) (calls_given Gives.Rollbacks rolled.now) else []) (row_at b (rows_of u rows.old))) }
{
    for t in rolled {
        add(rows, n, a, *t, Call::Rollback(*t))?;
    }
    Ok(())
}

/// Puts what line n gives transactions at the ends of its actor's rows there.
fn add_given(
    rows: &mut [Rows<Call>],
    n: u32,
    a: ActorNo,
    gives: Gives,
    rolled: &[TxNo],
) -> Result<(), AllocError>
    requires { length rows.old ≡ TxNo.MAX }
    ensures { OnOk result ((u : TxNo) (b : ActorNo) → row_at b (rows_of u rows.new)
        ≡ with_calls (if b.value == a.value then all_of (due_at u.value n) (calls_given gives rolled.now) else []) (row_at b (rows_of u rows.old))) }
{
    match gives {
        Gives::Nothing => Ok(()),
        Gives::Call(t, c) => add(rows, n, a, t, c),
        Gives::Rollbacks => add_rollbacks(rows, n, a, rolled),
    }
}

/// Rows with no call for each transaction that a script can name.
fn empty_rows(alloc: Global) -> Result<Vec<Rows<Call>>, AllocError>
    ensures { IfOk result (λ v. v.items ≡ replicate TxNo.MAX (replicate ActorNo.MAX no_calls)) }
{
    let transactions = TxNo::MAX as usize;
    let mut rows = Vec::with_capacity(alloc, transactions)?;
    for _t in 0..transactions {
        rows.push_reserved(Rows::new(alloc)?);
    }
    Ok(rows)
}

/// Puts what the lines give transactions into rows that have no call yet, by contexts in which no scope is open yet.
fn fill(
    alloc: Global,
    plans: &Plans,
    contexts: &mut [Context],
    rows: &mut [Rows<Call>],
) -> Result<(), AllocError>
    requires script { IsScript plans.now }
    requires contexts { contexts.old ≡ replicate ActorNo.MAX nothing_open }
    requires rows { rows.old ≡ replicate TxNo.MAX (replicate ActorNo.MAX no_calls) }
    ensures { OnOk result ((t : TxNo) (a : ActorNo) → row_at a (rows_of t rows.new) ≡ unentered (calls_at plans.now a.value t.value)) }
{
    let lines = plans.lines();
    let mut entries = Vec::new(alloc);
    let mut n = 0;
    for l in lines {
        n += 1;
        let gives = given(plans, contexts, &mut entries, l)?;
        let rolled = contexts[l.actor.index()].rolled();
        add_given(rows, n, l.actor, gives, rolled)?;
    }
    Ok(())
}

/// The calls of each actor at each transaction that a script can name, by its number, none of them entered. One pass over the
/// script makes them all.
///
/// # Errors
///
/// [`AllocError`] where memory ran out.
pub fn transaction_rows(alloc: Global, plans: &Plans) -> Result<Vec<Rows<Call>>, AllocError>
    requires { IsScript plans.now }
    ensures many { IfOk result (λ v. length v.items ≡ TxNo.MAX) }
    ensures calls { IfOk result (λ v. (t : TxNo) (a : ActorNo) → row_at a (rows_of t v.items) ≡ unentered (calls_at plans.now a.value t.value)) }
{
    let mut rows = empty_rows(alloc)?;
    let mut contexts = contexts(alloc)?;
    fill(alloc, plans, &mut contexts, &mut rows)?;
    Ok(rows)
}

/// The calls of each actor at the log, none of them entered.
///
/// # Errors
///
/// [`AllocError`] where memory ran out.
pub fn log_rows(alloc: Global, lines: &[Line]) -> Result<Rows<LogCall>, AllocError>
    requires { IsScript lines.now }
    ensures { IfOk result (λ r. (a : ActorNo) → row_at a r ≡ unentered (log_calls_at lines.now a.value)) }
{
    let mut rows = Rows::new(alloc)?;
    let mut n = 0;
    for l in lines {
        n += 1;
        if let Some(call) = log_call(l.body) {
            rows.add(l.actor, Due { line: n, call })?;
        }
    }
    Ok(rows)
}
