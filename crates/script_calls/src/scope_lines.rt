//! What scope lines do at the contexts of their actors.
ghost use Rattle.std.specs.Prelude.{◌≡◌, ◌<◌, ◌≤◌, ◌+◌, ◌++◌, List, [], false, length, map, replicate, vec_len, vec_capacity, IfNone, IfOk, IfSome, None};
ghost use Rattle.dtx_values.specs.declared.number.ActorNo.{ActorNo};
ghost use Rattle.dtx_values.specs.declared.number.ScopeNo.{ScopeNo};
ghost use Rattle.dtx_values.specs.declared.number.TxNo.{TxNo};
ghost use Rattle.dtx_values.specs.declared.script.Body.TheVariants.{Open, Finish, Close, Current};
ghost use Rattle.dtx_values.specs.declared.script.Opening.{Opening};
ghost use Rattle.dtx_model.specs.Words.{has, past_of};
ghost use Rattle.dtx_model.specs.Scopes.{Closes, is_scope, taken_off};
ghost use Rattle.dtx_model.specs.Contexts.{asked_by, begin_calls, ending_calls, isolation_in, name_in, option_in, scope_answer, timeout_in, written};
ghost use Rattle.script_calls.specs.Scoped.{DoesScope, IsUnopened, calls_given, nothing_open, refused_answer};

use dtx_values::{
    ActorNo, Answer, Body, Call, Closed, Entered, Entry, Iso, IsoWord, OpenScope, Opening, ScopeNo,
    ScopeNote, ScopeOption, Timeout, TxNo,
};
use scope_context::{Context, ScopeRefusal};
use std::alloc::{AllocError, Global};

/// The calls that a scope line gives transactions.
#[derive(Clone, Copy, PartialEq, Eq)]
pub enum Gives {
    Nothing,
    Call(TxNo, Call),
    /// A rollback of each transaction that the context keeps of its last nested close, in order.
    Rollbacks,
}

/// The answer of a scope line, and the calls that it gives transactions.
#[derive(Clone, Copy, PartialEq, Eq)]
pub struct Acted {
    pub answer: Answer,
    pub gives: Gives,
}

/// A context for each actor that a script can name, with no scope open.
pub fn contexts(alloc: Global) -> Result<Vec<Context>, AllocError>
    ensures { IfOk result (λ cs. cs.items ≡ replicate ActorNo.MAX nothing_open) }
{
    let actors = ActorNo::MAX as usize;
    let mut contexts = Vec::with_capacity(alloc, actors)?;
    for _a in 0..actors {
        contexts.push_reserved(Context::new(alloc)?);
    }
    Ok(contexts)
}

/// The answer of a line that its context refuses.
fn refused(refusal: ScopeRefusal) -> Answer
    ensures { result ≡ refused_answer refusal }
{
    match refusal {
        ScopeRefusal::TooDeep(_) => Answer::Deep,
        ScopeRefusal::IsolationDiffers(asked, found) => Answer::Isolation(asked, found),
        ScopeRefusal::NoScope(_) => Answer::NoScope,
        ScopeRefusal::AlreadyComplete(_) => Answer::Already,
        ScopeRefusal::NestedWrongly(top) => Answer::Nested(top),
    }
}

/// What a line does that its context refuses: its answer alone.
fn refuse(refusal: ScopeRefusal) -> Acted
    ensures answer { result.answer ≡ refused_answer refusal }
    ensures gives { result.gives ≡ Gives.Nothing }
{
    Acted {
        answer: refused(refusal),
        gives: Gives::Nothing,
    }
}

/// The isolation that a word asks for: `default` asks for Serializable.
fn asked_by(word: IsoWord) -> Iso
    ensures { result ≡ asked_by word }
{
    match word {
        IsoWord::Default => Iso::Serializable,
        IsoWord::Level(isolation) => isolation,
    }
}

/// The option, the name for a transaction, its timeout and the isolation that an `open` writes.
fn opening_words(o: Opening) -> (ScopeOption, Option<TxNo>, Timeout, Iso)
    ensures option { result.0 ≡ option_in o }
    ensures name { result.1 ≡ name_in o }
    ensures timeout { result.2 ≡ timeout_in o }
    ensures isolation { result.3 ≡ isolation_in o }
{
    match o {
        Opening::Required(t, d, word) => (ScopeOption::Required, Some(t), d, asked_by(word)),
        Opening::RequiresNew(t, d, word) => (ScopeOption::RequiresNew, Some(t), d, asked_by(word)),
        Opening::Suppress => (
            ScopeOption::Suppress,
            None,
            Timeout::Default,
            Iso::Unspecified,
        ),
    }
}

/// The call that opening a scope gives the transaction that it made.
fn begin(entered: Entered, d: Timeout) -> Gives
    ensures { (ts : List TxNo) → calls_given result ts ≡ begin_calls d entered }
{
    match entered {
        Entered::Made(t) => Gives::Call(t, Call::Begin(t, d)),
        _ => Gives::Nothing,
    }
}

/// The call that closing a scope gives its transaction.
fn end(closed: Closed) -> Gives
    ensures { (ts : List TxNo) → calls_given result ts ≡ ending_calls closed }
{
    match closed {
        Closed::Commit(t) => Gives::Call(t, Call::Commit(t)),
        Closed::Rollback(t) => Gives::Call(t, Call::Rollback(t)),
        Closed::Nothing => Gives::Nothing,
    }
}

/// Opens a scope, and writes the entry where it was opened.
fn enter(context: &mut Context, s: ScopeNo, o: Opening, entries: &mut Vec<Entry>) -> Acted
    requires unopened { has (is_scope s.value) context.old.scopes ≡ false }
    requires empty { entries.old.items ≡ [] }
    requires room { 1 ≤ vec_capacity entries.old }
    ensures { DoesScope (Open s o) context.old context.new entries.new.items result }
{
    let (option, name, timeout, isolation) = opening_words(o);
    match context.enter(s, option, name, isolation) {
        Ok(entered) => {
            let t = entered.transaction();
            entries.push_reserved(Entry::Scope(ScopeNote::Opened(s, t)));
            Acted {
                answer: Answer::Fine,
                gives: begin(entered, timeout),
            }
        }
        Err(refusal) => refuse(refusal),
    }
}

/// Completes a scope, and writes the entry where it was completed.
fn complete(context: &mut Context, s: ScopeNo, entries: &mut Vec<Entry>) -> Acted
    requires empty { entries.old.items ≡ [] }
    requires room { 1 ≤ vec_capacity entries.old }
    ensures { DoesScope (Finish s) context.old context.new entries.new.items result }
{
    match context.complete(s) {
        Ok(()) => {
            entries.push_reserved(Entry::Scope(ScopeNote::Finished(s)));
            Acted {
                answer: Answer::Fine,
                gives: Gives::Nothing,
            }
        }
        Err(refusal) => refuse(refusal),
    }
}

/// Writes as closed what closing a scope takes off: each from the top down to it.
fn put_closed(scopes: &[OpenScope], s: ScopeNo, entries: &mut Vec<Entry>)
    requires { vec_len entries.old + length scopes.now ≤ vec_capacity entries.old }
    ensures { entries.new.items ≡ entries.old.items ++ map written (map (λ x. Closes x.scope) (taken_off s.value (past_of scopes.now))) }
{
    for x in scopes.iter().rev() {
        entries.push_reserved(Entry::Scope(ScopeNote::Closed(x.scope)));
        if x.scope == s {
            break;
        }
    }
}

/// Closes a scope, and writes the entry of each that was taken off.
fn close(context: &mut Context, s: ScopeNo, entries: &mut Vec<Entry>) -> Acted
    requires empty { entries.old.items ≡ [] }
    requires room { length context.old.scopes ≤ vec_capacity entries.old }
    ensures { DoesScope (Close s) context.old context.new entries.new.items result }
{
    put_closed(context.scopes(), s, entries);
    match context.close(s) {
        Ok(closed) => Acted {
            answer: Answer::Fine,
            gives: end(closed),
        },
        Err(ScopeRefusal::NestedWrongly(top)) => Acted {
            answer: Answer::Nested(top),
            gives: Gives::Rollbacks,
        },
        Err(refusal) => {
            entries.clear();
            refuse(refusal)
        }
    }
}

/// Asks for the ambient transaction.
fn current(context: &Context) -> Acted
    ensures answer { scope_answer Current context.now.scopes ≡ Some result.answer }
    ensures gives { result.gives ≡ Gives.Nothing }
{
    match context.current() {
        Ok(t) => Acted {
            answer: Answer::Ambient(t),
            gives: Gives::Nothing,
        },
        Err(refusal) => refuse(refusal),
    }
}

/// Does at its actor's context what a scope line says, and writes the entries after its call; `None` where it is no scope line.
pub fn act(context: &mut Context, body: Body, entries: &mut Vec<Entry>) -> Option<Acted>
    requires unopened { IsUnopened body context.old.scopes }
    requires empty { entries.old.items ≡ [] }
    requires room { length context.old.scopes + 1 ≤ vec_capacity entries.old }
    ensures some { IfSome result (λ x. DoesScope body context.old context.new entries.new.items x) }
    ensures none { IfNone result (scope_answer body context.old.scopes ≡ None) }
    ensures unchanged { IfNone result (context.new ≡ context.old) }
{
    match body {
        Body::Open(s, o) => Some(enter(context, s, o, entries)),
        Body::Finish(s) => Some(complete(context, s, entries)),
        Body::Close(s) => Some(close(context, s, entries)),
        Body::Current => Some(current(context)),
        _ => None,
    }
}
