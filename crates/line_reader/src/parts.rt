//! The words behind a scope's name, and those behind a durable's manager.
ghost use Rattle.std.specs.Prelude.{◌≡◌, ◌∷◌, codes};
ghost use Rattle.line_reader.specs.Reader.{IsOpening, IsSupport};

use crate::verbs::{REQUIRED, REQUIRES_NEW, SINGLE_PHASE, SUPPRESS, TWO_PHASE};
use dtx_values::{BadCause, Opening, Support};
use script_words::Words;

/// Reads the words behind `required`.
#[tactic(auto, using(crate::proofs::Forms::forms))]
fn required(words: &mut Words<'_>) -> Result<Opening, BadCause>
    ensures { IsOpening (codes "required" ∷ words.old) result }
{
    let t = words.transaction()?;
    let d = words.timeout()?;
    let i = words.isolation()?;
    words.end()?;
    Ok(Opening::Required(t, d, i))
}

/// Reads the words behind `requiresnew`.
#[tactic(auto, using(crate::proofs::Forms::forms))]
fn requires_new(words: &mut Words<'_>) -> Result<Opening, BadCause>
    ensures { IsOpening (codes "requiresnew" ∷ words.old) result }
{
    let t = words.transaction()?;
    let d = words.timeout()?;
    let i = words.isolation()?;
    words.end()?;
    Ok(Opening::RequiresNew(t, d, i))
}

/// Reads that no word stands after `suppress`.
#[tactic(auto, using(crate::proofs::Forms::forms))]
fn suppress(words: &Words<'_>) -> Result<Opening, BadCause>
    ensures { IsOpening (codes "suppress" ∷ words.now) result }
{
    words.end()?;
    Ok(Opening::Suppress)
}

/// Reads the words behind a scope's name.
pub fn opening(words: &mut Words<'_>) -> Result<Opening, BadCause>
    ensures { IsOpening words.old result }
{
    let Some(word) = words.next() else {
        return Err(BadCause::MissingWord);
    };
    if word == REQUIRED {
        return required(words);
    }
    if word == REQUIRES_NEW {
        return requires_new(words);
    }
    if word == SUPPRESS {
        return suppress(words);
    }
    Err(BadCause::UnknownWord)
}

/// Reads the words behind `single`.
#[tactic(auto, using(crate::proofs::Forms::forms))]
fn single(words: &mut Words<'_>) -> Result<Support, BadCause>
    ensures { IsSupport (codes "single" ∷ words.old) result }
{
    let v = words.vote()?;
    let o = words.owner()?;
    words.end()?;
    Ok(Support::SinglePhase(v, o))
}

/// Reads the words behind `two`.
#[tactic(auto, using(crate::proofs::Forms::forms))]
fn two(words: &mut Words<'_>) -> Result<Support, BadCause>
    ensures { IsSupport (codes "two" ∷ words.old) result }
{
    let v = words.vote()?;
    words.end()?;
    Ok(Support::TwoPhase(v))
}

/// Reads the words behind a durable's manager.
pub fn support(words: &mut Words<'_>) -> Result<Support, BadCause>
    ensures { IsSupport words.old result }
{
    let Some(word) = words.next() else {
        return Err(BadCause::MissingWord);
    };
    if word == SINGLE_PHASE {
        return single(words);
    }
    if word == TWO_PHASE {
        return two(words);
    }
    Err(BadCause::UnknownWord)
}
