//! What the scope lines write at their actors' contexts, and what each line calls. No answer of a context depends on a transaction, so this is done before the run.
ghost use Rattle.std.specs.Prelude.{◌≡◌, ◌+◌, ◌++◌, ◌∷◌, List, [], IfOk, OnOk, length, map, replicate};
ghost use Rattle.dtx_values.specs.declared.entry.Entry.TheVariants.{Called};
ghost use Rattle.dtx_values.specs.declared.number.ActorNo.{ActorNo};
ghost use Rattle.dtx_values.specs.declared.script.Line.{Line};
ghost use Rattle.dtx_model.specs.Grammar.{IsScript};
ghost use Rattle.script_calls.specs.Scoped.{AreOpen, IsUnopened, nothing_open, scopes_at};
ghost use Rattle.thread_runs.specs.Contexts.{AreContexts, AreWritten};

use dtx_values::{ActorNo, Answer, Body, Entry, Line, TxNo};
use entry_lists::Entries;
use scope_context::Context;
use script_calls::{Gives, Plans, act, call_of, contexts};
use std::alloc::{AllocError, Global};

/// What a line calls, and where.
#[derive(Clone, Copy, PartialEq, Eq, Debug)]
pub(crate) enum What {
    /// A call at this transaction.
    Call(TxNo),
    /// An await at this transaction.
    Await(TxNo),
    /// A stop or a restart.
    AtLog,
}

/// A call that an actor is to make, by a line, from 1.
#[derive(Clone, Copy, PartialEq, Eq, Debug)]
pub(crate) struct ToDo {
    pub(crate) line: u32,
    pub(crate) actor: ActorNo,
    pub(crate) what: What,
}

/// What is known of a run before its first step.
#[derive(Drop)]
pub(crate) struct Outline {
    /// What stands at each actor's context, by actor, oldest entry first.
    pub(crate) contexts: Vec<Entries>,
    /// What is to be called, in order of lines. A close that rolls back gives several.
    pub(crate) to_do: Vec<ToDo>,
}

/// What is to be called by the own words of a line.
fn own_call(plans: &Plans, body: Body) -> Option<What> {
    match body {
        Body::Stop(_, _) | Body::Restart => Some(What::AtLog),
        Body::Await(t) => Some(What::Await(t)),
        _ => {
            let (t, _call) = call_of(plans, body)?;
            Some(What::Call(t))
        }
    }
}

/// Puts at the end of what is to be called what line n gives, where it is no scope line, or a scope line that gives so much.
fn add_calls(
    to_do: &mut Vec<ToDo>,
    plans: &Plans,
    n: u32,
    l: &Line,
    gives: Gives,
    rolled: &[TxNo],
) -> Result<(), AllocError> {
    let to_call = |what: What| ToDo {
        line: n,
        actor: l.actor,
        what,
    };
    match gives {
        Gives::Nothing => {
            if let Some(what) = own_call(plans, l.body) {
                to_do.push(to_call(what))?;
            }
        }
        Gives::Call(t, _) => to_do.push(to_call(What::Call(t)))?,
        Gives::Rollbacks => {
            for t in rolled {
                to_do.push(to_call(What::Call(*t)))?;
            }
        }
    }
    Ok(())
}

/// Puts at the end of what stands at a context the call of line n, answered so, and the entries after it.
fn write(
    context: &mut Entries,
    n: u32,
    a: ActorNo,
    answer: Answer,
    notes: &[Entry],
) -> Result<(), AllocError>
    ensures { OnOk result (context.new.items ≡ context.old.items ++ Called n a answer ∷ notes.now) }
{
    context.reserve(notes.len() + 1)?;
    context.push_reserved(&Entry::Called(n, a, answer));
    for e in notes {
        context.push_reserved(e);
    }
    Ok(())
}

/// Does what line n does at its actor's context, and writes there what it does; what that gives the transactions. Nothing, where it is no scope line. The notes are kept for their memory alone.
fn at_context(
    contexts: &mut [Context],
    written: &mut [Entries],
    notes: &mut Vec<Entry>,
    n: u32,
    l: &Line,
) -> Result<Gives, AllocError>
    requires unopened { IsUnopened l.now.body (scopes_at l.now.actor contexts.old) }
    requires all { length contexts.old ≡ ActorNo.MAX }
    requires lists { length written.old ≡ ActorNo.MAX }
    ensures written { OnOk result ((before : List Line) → length before + 1 ≡ n → AreOpen contexts.old before → AreWritten before (map (λ h. h.items) written.old)
        → AreWritten (l.now ∷ before) (map (λ h. h.items) written.new)) }
    ensures scopes { OnOk result ((before : List Line) → AreOpen contexts.old before → AreOpen contexts.new (l.now ∷ before)) }
{
    let place = l.actor.index();
    let context = &mut contexts[place];
    notes.clear();
    notes.reserve(context.scopes().len() + 1)?;
    let Some(acted) = act(context, l.body, notes) else {
        return Ok(Gives::Nothing);
    };
    write(&mut written[place], n, l.actor, acted.answer, notes)?;
    Ok(acted.gives)
}

/// No entry at any actor's context.
fn nothing_written(alloc: Global) -> Result<Vec<Entries>, AllocError>
    ensures all { IfOk result (λ v. length v.items ≡ ActorNo.MAX) }
    ensures none { IfOk result (λ v. AreWritten [] (map (λ h. h.items) v.items)) }
{
    let mut written = Vec::with_capacity(alloc, ActorNo::MAX as usize)?;
    for _a in 0..ActorNo::MAX {
        written.push_reserved(Entries::with_capacity(alloc, 0)?);
    }
    Ok(written)
}

/// Does what the lines do at contexts in which no scope is open yet and nothing is written, and puts what they call at the end of what is to be called.
fn fill(
    alloc: Global,
    plans: &Plans,
    contexts: &mut [Context],
    written: &mut [Entries],
    to_do: &mut Vec<ToDo>,
) -> Result<(), AllocError>
    requires script { IsScript plans.now }
    requires contexts { contexts.old ≡ replicate ActorNo.MAX nothing_open }
    requires lists { length written.old ≡ ActorNo.MAX }
    requires none { AreWritten [] (map (λ h. h.items) written.old) }
    ensures { OnOk result (AreContexts plans.now (map (λ h. h.items) written.new)) }
{
    let mut notes = Vec::new(alloc);
    let mut n = 0;
    for l in plans.lines() {
        n += 1;
        let gives = at_context(contexts, written, &mut notes, n, l)?;
        let rolled = contexts[l.actor.index()].rolled();
        add_calls(to_do, plans, n, l, gives, rolled)?;
    }
    Ok(())
}

/// What the scope lines of a script write at the contexts, and what its lines call. One pass over the script makes both.
///
/// # Errors
///
/// [`AllocError`] where memory ran out.
pub(crate) fn outline_of(alloc: Global, plans: &Plans) -> Result<Outline, AllocError>
    requires script { IsScript plans.now }
    ensures contexts { IfOk result (λ o. AreContexts plans.now (map (λ h. h.items) o.contexts.items)) }
{
    let mut written = nothing_written(alloc)?;
    let mut to_do = Vec::new(alloc);
    let mut contexts = contexts(alloc)?;
    fill(alloc, plans, &mut contexts, &mut written, &mut to_do)?;
    Ok(Outline {
        contexts: written,
        to_do,
    })
}
