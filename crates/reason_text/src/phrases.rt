//! Phrases: names and numbers with words after them.
ghost use Rattle.std.specs.Prelude.{◌≡◌, ◌++◌, [], OnOk, map};
ghost use Rattle.reason_text.specs.Phrases.{head_text, phrases_text};
ghost use Rattle.reason_text.specs.Sentences.{one_said, words_said};

use dtx_values::{CloneNo, Conn, EnlNo, ScopeNo, TxNo};
use line_tail::Tail;
use line_words::{
    put_actor, put_clone, put_connection, put_enlistment, put_scope, put_transaction,
};
use outcome_reasons::Caller;
use std::alloc::AllocError;

/// What a phrase begins with.
#[derive(Clone, Copy, PartialEq, Eq)]
pub enum Head {
    Nothing,
    Number(u64),
    Transaction(TxNo),
    /// The actor of a call.
    Caller(Option<Caller>),
    Enlistment(Option<EnlNo>),
    Clone(Option<CloneNo>),
    Scope(ScopeNo),
    Connection(Conn),
}

/// Puts the actor of a call.
fn put_caller(tail: &mut Tail, caller: Option<Caller>)
    requires { tail.old ≡ [] }
    ensures { tail.new ≡ head_text (Head.Caller caller) }
{
    match caller {
        Some(caller) => put_actor(tail, caller.actor),
        None => tail.put(b"nobody"),
    }
}

/// Puts an enlistment's name.
fn put_whom(tail: &mut Tail, e: Option<EnlNo>)
    requires { tail.old ≡ [] }
    ensures { tail.new ≡ head_text (Head.Enlistment e) }
{
    match e {
        Some(e) => put_enlistment(tail, e),
        None => tail.put(b"a durable"),
    }
}

/// Puts a clone's name.
fn put_which(tail: &mut Tail, c: Option<CloneNo>)
    requires { tail.old ≡ [] }
    ensures { tail.new ≡ head_text (Head.Clone c) }
{
    match c {
        Some(c) => put_clone(tail, c),
        None => tail.put(b"a clone"),
    }
}

/// Puts what a phrase begins with.
fn put_head(tail: &mut Tail, head: Head)
    requires { tail.old ≡ [] }
    ensures { tail.new ≡ head_text head }
{
    match head {
        Head::Nothing => {}
        Head::Number(n) => tail.put_number(n),
        Head::Transaction(t) => put_transaction(tail, t),
        Head::Caller(caller) => put_caller(tail, caller),
        Head::Enlistment(e) => put_whom(tail, e),
        Head::Clone(c) => put_which(tail, c),
        Head::Scope(q) => put_scope(tail, q),
        Head::Connection(c) => put_connection(tail, c),
    }
}

/// Appends a phrase.
fn push_phrase(text: &mut Vec<u8>, head: Head, words: &[u8]) -> Result<(), AllocError>
    ensures { OnOk result (text.new.items ≡ text.old.items ++ (head_text head ++ words.now)) }
{
    let mut tail = Tail::new();
    put_head(&mut tail, head);
    text.extend_from_slice(tail.as_slice())?;
    text.extend_from_slice(words)
}

/// Appends phrases.
///
/// # Errors
///
/// [`AllocError`] where memory ran out.
pub fn push_phrases(text: &mut Vec<u8>, phrases: &[(Head, &[u8])]) -> Result<(), AllocError>
    ensures { OnOk result (text.new.items ≡ text.old.items ++ phrases_text (map (λ x. (x.0, x.1.now)) phrases.now)) }
{
    for x in phrases {
        push_phrase(text, x.0, x.1)?;
    }
    Ok(())
}

/// Appends what an enlistment did.
pub(crate) fn push_one(text: &mut Vec<u8>, e: EnlNo, words: &[u8]) -> Result<(), AllocError>
    ensures { OnOk result (text.new.items ≡ text.old.items ++ phrases_text (one_said e words.now)) }
{
    push_phrases(text, &[(Head::Enlistment(Some(e)), words)])
}

/// Appends words.
pub(crate) fn push_words(text: &mut Vec<u8>, words: &[u8]) -> Result<(), AllocError>
    ensures { OnOk result (text.new.items ≡ text.old.items ++ phrases_text (words_said words.now)) }
{
    push_phrases(text, &[(Head::Nothing, words)])
}
