//! Commands of transactions, and of what enlists in them or is cloned of them.
ghost use Rattle.std.specs.Prelude.{◌≡◌, codes, IfSome, IfNone};
ghost use Rattle.line_reader.specs.Reader.{IsAnswerTo, transaction_keys};
ghost use Rattle.script_words.specs.Places.{IsOther};

use crate::parts::support;
use crate::verbs::{
    AWAIT, BEGIN, CLONE, COMMIT, COMPLETE, DURABLE, MARSHAL, PROMOTABLE, ROLLBACK, STATUS, VOLATILE,
};
use dtx_values::{BadCause, Body};
use script_words::Words;

/// Reads the words behind `begin`.
#[tactic(auto, using(crate::proofs::Forms::forms))]
fn begin(words: &mut Words<'_>) -> Result<Body, BadCause>
    ensures { IsAnswerTo (codes "begin") words.old result }
{
    let t = words.transaction()?;
    let d = words.timeout()?;
    words.end()?;
    Ok(Body::Begin(t, d))
}

/// Reads the words behind `volatile`.
#[tactic(auto, using(crate::proofs::Forms::forms))]
fn volatile(words: &mut Words<'_>) -> Result<Body, BadCause>
    ensures { IsAnswerTo (codes "volatile") words.old result }
{
    let t = words.transaction()?;
    let e = words.enlistment()?;
    let o = words.option()?;
    let v = words.vote()?;
    words.end()?;
    Ok(Body::Volatile(t, e, o, v))
}

/// Reads the words behind `durable`.
#[tactic(auto, using(crate::proofs::Forms::forms, crate::proofs::Forms::durable_forms))]
fn durable(words: &mut Words<'_>) -> Result<Body, BadCause>
    ensures { IsAnswerTo (codes "durable") words.old result }
{
    let t = words.transaction()?;
    let e = words.enlistment()?;
    let r = words.manager()?;
    let s = support(words)?;
    Ok(Body::Durable(t, e, r, s))
}

/// Reads the words behind `promotable`.
#[tactic(auto, using(crate::proofs::Forms::forms))]
fn promotable(words: &mut Words<'_>) -> Result<Body, BadCause>
    ensures { IsAnswerTo (codes "promotable") words.old result }
{
    let t = words.transaction()?;
    let e = words.enlistment()?;
    let r = words.manager()?;
    let v = words.vote()?;
    let o = words.owner()?;
    let p = words.promotion()?;
    words.end()?;
    Ok(Body::Promotable(t, e, r, v, o, p))
}

/// Reads the words behind `clone`.
#[tactic(auto, using(crate::proofs::Forms::forms))]
fn clone_made(words: &mut Words<'_>) -> Result<Body, BadCause>
    ensures { IsAnswerTo (codes "clone") words.old result }
{
    let t = words.transaction()?;
    let c = words.clone()?;
    let k = words.kind()?;
    words.end()?;
    Ok(Body::Clone(t, c, k))
}

/// Reads the words behind `complete`.
#[tactic(auto, using(crate::proofs::Forms::forms))]
fn complete(words: &mut Words<'_>) -> Result<Body, BadCause>
    ensures { IsAnswerTo (codes "complete") words.old result }
{
    let c = words.clone()?;
    words.end()?;
    Ok(Body::Complete(c))
}

/// Reads the words behind `commit`.
#[tactic(auto, using(crate::proofs::Forms::forms))]
fn commit(words: &mut Words<'_>) -> Result<Body, BadCause>
    ensures { IsAnswerTo (codes "commit") words.old result }
{
    let t = words.transaction()?;
    words.end()?;
    Ok(Body::Commit(t))
}

/// Reads the words behind `rollback`.
#[tactic(auto, using(crate::proofs::Forms::forms))]
fn rollback(words: &mut Words<'_>) -> Result<Body, BadCause>
    ensures { IsAnswerTo (codes "rollback") words.old result }
{
    let t = words.transaction()?;
    words.end()?;
    Ok(Body::Rollback(t))
}

/// Reads the words behind `marshal`.
#[tactic(auto, using(crate::proofs::Forms::forms))]
fn marshal(words: &mut Words<'_>) -> Result<Body, BadCause>
    ensures { IsAnswerTo (codes "marshal") words.old result }
{
    let t = words.transaction()?;
    words.end()?;
    Ok(Body::Marshal(t))
}

/// Reads the words behind `status`.
#[tactic(auto, using(crate::proofs::Forms::forms))]
fn status(words: &mut Words<'_>) -> Result<Body, BadCause>
    ensures { IsAnswerTo (codes "status") words.old result }
{
    let t = words.transaction()?;
    words.end()?;
    Ok(Body::Status(t))
}

/// Reads the words behind `await`.
#[tactic(auto, using(crate::proofs::Forms::forms))]
fn await_end(words: &mut Words<'_>) -> Result<Body, BadCause>
    ensures { IsAnswerTo (codes "await") words.old result }
{
    let t = words.transaction()?;
    words.end()?;
    Ok(Body::Await(t))
}

/// Reads the command where its own word is one of these.
pub fn transaction_command(word: &[u8], words: &mut Words<'_>) -> Option<Result<Body, BadCause>>
    ensures some { IfSome result (λ r. IsAnswerTo word.now words.old r) }
    ensures other { IfNone result (IsOther word.now transaction_keys) }
    ensures same { IfNone result (words.new ≡ words.old) }
{
    if word == BEGIN {
        return Some(begin(words));
    }
    if word == VOLATILE {
        return Some(volatile(words));
    }
    if word == DURABLE {
        return Some(durable(words));
    }
    if word == PROMOTABLE {
        return Some(promotable(words));
    }
    if word == CLONE {
        return Some(clone_made(words));
    }
    if word == COMPLETE {
        return Some(complete(words));
    }
    if word == COMMIT {
        return Some(commit(words));
    }
    if word == ROLLBACK {
        return Some(rollback(words));
    }
    if word == MARSHAL {
        return Some(marshal(words));
    }
    if word == STATUS {
        return Some(status(words));
    }
    if word == AWAIT {
        return Some(await_end(words));
    }
    None
}
