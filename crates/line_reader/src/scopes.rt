//! Commands of scopes.
ghost use Rattle.std.specs.Prelude.{◌≡◌, codes, IfSome, IfNone};
ghost use Rattle.line_reader.specs.Reader.{IsAnswerTo, scope_keys};
ghost use Rattle.script_words.specs.Places.{IsOther};

use crate::parts::opening;
use crate::verbs::{CLOSE, CURRENT, FINISH, OPEN};
use dtx_values::{BadCause, Body};
use script_words::Words;

/// Reads the words behind `open`.
#[tactic(auto, using(crate::proofs::Forms::forms, crate::proofs::Forms::open_forms))]
fn open(words: &mut Words<'_>) -> Result<Body, BadCause>
    ensures { IsAnswerTo (codes "open") words.old result }
{
    let s = words.scope()?;
    let o = opening(words)?;
    Ok(Body::Open(s, o))
}

/// Reads the words behind `finish`.
#[tactic(auto, using(crate::proofs::Forms::forms))]
fn finish(words: &mut Words<'_>) -> Result<Body, BadCause>
    ensures { IsAnswerTo (codes "finish") words.old result }
{
    let s = words.scope()?;
    words.end()?;
    Ok(Body::Finish(s))
}

/// Reads the words behind `close`.
#[tactic(auto, using(crate::proofs::Forms::forms))]
fn close(words: &mut Words<'_>) -> Result<Body, BadCause>
    ensures { IsAnswerTo (codes "close") words.old result }
{
    let s = words.scope()?;
    words.end()?;
    Ok(Body::Close(s))
}

/// Reads the words behind `current`.
#[tactic(auto, using(crate::proofs::Forms::forms))]
fn current(words: &mut Words<'_>) -> Result<Body, BadCause>
    ensures { IsAnswerTo (codes "current") words.old result }
{
    words.end()?;
    Ok(Body::Current)
}

/// Reads the command where its own word is one of these.
pub fn scope_command(word: &[u8], words: &mut Words<'_>) -> Option<Result<Body, BadCause>>
    ensures some { IfSome result (λ r. IsAnswerTo word.now words.old r) }
    ensures other { IfNone result (IsOther word.now scope_keys) }
    ensures same { IfNone result (words.new ≡ words.old) }
{
    if word == OPEN {
        return Some(open(words));
    }
    if word == FINISH {
        return Some(finish(words));
    }
    if word == CLOSE {
        return Some(close(words));
    }
    if word == CURRENT {
        return Some(current(words));
    }
    None
}
