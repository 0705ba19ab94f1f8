//! Commands of what happens to a transaction and its participants: time, steps, losses, recovery and stops.
ghost use Rattle.std.specs.Prelude.{◌≡◌, codes, IfSome, IfNone};
ghost use Rattle.line_reader.specs.Reader.{IsAnswerTo, event_keys};
ghost use Rattle.script_words.specs.Places.{IsOther};

use crate::verbs::{DO, GONE, LOSE, PAR, RECOVERED, REENLIST, RESTART, STOP, TICK};
use dtx_values::{BadCause, Body};
use script_words::Words;

/// The most milliseconds of a tick.
const LONGEST_TICK: u32 = 1_000_000_000;

/// The last place of a pending step.
const LAST_PLACE: u32 = 99;

/// The most steps of one line.
const MOST_STEPS: u32 = 999;

/// The most messages that a loss keeps.
const MOST_KEPT: u32 = 999;

/// The last device call at which a log may be stopped.
const LAST_DEVICE_CALL: u32 = 99;

/// Reads the words behind `tick`.
#[tactic(auto, using(crate::proofs::Forms::forms))]
fn tick(words: &mut Words<'_>) -> Result<Body, BadCause>
    ensures { IsAnswerTo (codes "tick") words.old result }
{
    let t = words.transaction()?;
    let n = words.number(1, LONGEST_TICK)?;
    words.end()?;
    Ok(Body::Tick(t, n))
}

/// Reads the words behind `do`.
#[tactic(auto, using(crate::proofs::Forms::forms))]
fn steps(words: &mut Words<'_>) -> Result<Body, BadCause>
    ensures { IsAnswerTo (codes "do") words.old result }
{
    let t = words.transaction()?;
    let k = words.number(1, LAST_PLACE)?;
    let n = words.number(1, MOST_STEPS)?;
    words.end()?;
    Ok(Body::Do(t, k as u8, n as u16))
}

/// Reads the words behind `lose`.
#[tactic(auto, using(crate::proofs::Forms::forms))]
fn lose(words: &mut Words<'_>) -> Result<Body, BadCause>
    ensures { IsAnswerTo (codes "lose") words.old result }
{
    let t = words.transaction()?;
    let c = words.connection()?;
    let up = words.number(0, MOST_KEPT)?;
    let down = words.number(0, MOST_KEPT)?;
    words.end()?;
    Ok(Body::Lose(t, c, up as u16, down as u16))
}

/// Reads the words behind `gone`.
#[tactic(auto, using(crate::proofs::Forms::forms))]
fn gone(words: &mut Words<'_>) -> Result<Body, BadCause>
    ensures { IsAnswerTo (codes "gone") words.old result }
{
    let e = words.enlistment()?;
    words.end()?;
    Ok(Body::Gone(e))
}

/// Reads the words behind `reenlist`.
#[tactic(auto, using(crate::proofs::Forms::forms))]
fn reenlist(words: &mut Words<'_>) -> Result<Body, BadCause>
    ensures { IsAnswerTo (codes "reenlist") words.old result }
{
    let e = words.enlistment()?;
    words.end()?;
    Ok(Body::Reenlist(e))
}

/// Reads the words behind `recovered`.
#[tactic(auto, using(crate::proofs::Forms::forms))]
fn recovered(words: &mut Words<'_>) -> Result<Body, BadCause>
    ensures { IsAnswerTo (codes "recovered") words.old result }
{
    let t = words.transaction()?;
    let r = words.manager()?;
    words.end()?;
    Ok(Body::Recovered(t, r))
}

/// Reads the words behind `stop`.
#[tactic(auto, using(crate::proofs::Forms::forms))]
fn stop(words: &mut Words<'_>) -> Result<Body, BadCause>
    ensures { IsAnswerTo (codes "stop") words.old result }
{
    let n = words.number(1, LAST_DEVICE_CALL)?;
    let i = words.image()?;
    words.end()?;
    Ok(Body::Stop(n as u8, i))
}

/// Reads the words behind `restart`.
#[tactic(auto, using(crate::proofs::Forms::forms))]
fn restart(words: &mut Words<'_>) -> Result<Body, BadCause>
    ensures { IsAnswerTo (codes "restart") words.old result }
{
    words.end()?;
    Ok(Body::Restart)
}

/// Reads the words behind `par`.
#[tactic(auto, using(crate::proofs::Forms::forms))]
fn par(words: &mut Words<'_>) -> Result<Body, BadCause>
    ensures { IsAnswerTo (codes "par") words.old result }
{
    words.end()?;
    Ok(Body::Par)
}

/// Reads the command where its own word is one of these.
pub fn event_command(word: &[u8], words: &mut Words<'_>) -> Option<Result<Body, BadCause>>
    ensures some { IfSome result (λ r. IsAnswerTo word.now words.old r) }
    ensures other { IfNone result (IsOther word.now event_keys) }
    ensures same { IfNone result (words.new ≡ words.old) }
{
    if word == TICK {
        return Some(tick(words));
    }
    if word == DO {
        return Some(steps(words));
    }
    if word == LOSE {
        return Some(lose(words));
    }
    if word == GONE {
        return Some(gone(words));
    }
    if word == REENLIST {
        return Some(reenlist(words));
    }
    if word == RECOVERED {
        return Some(recovered(words));
    }
    if word == STOP {
        return Some(stop(words));
    }
    if word == RESTART {
        return Some(restart(words));
    }
    if word == PAR {
        return Some(par(words));
    }
    None
}
