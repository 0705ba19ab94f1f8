//! The line, by its words.
ghost use Rattle.std.specs.Prelude.{◌≡◌};
ghost use Rattle.dtx_model.specs.Faults.{command_forms, word_fault};
ghost use Rattle.line_reader.specs.Reader.{IsAnswer, IsLine};

use crate::events::event_command;
use crate::scopes::scope_command;
use crate::transactions::transaction_command;
use dtx_values::{BadCause, Body, Line};
use script_words::Words;

/// Reads a command.
fn command(words: &mut Words<'_>) -> Result<Body, BadCause>
    ensures { IsAnswer words.old (word_fault command_forms words.old) result }
{
    let Some(word) = words.next() else {
        return Err(BadCause::MissingWord);
    };
    if let Some(body) = transaction_command(word, words) {
        return body;
    }
    if let Some(body) = scope_command(word, words) {
        return body;
    }
    if let Some(body) = event_command(word, words) {
        return body;
    }
    Err(BadCause::UnknownWord)
}

/// Reads a line without its LF.
#[tactic(auto, using(crate::proofs::Forms::forms, crate::proofs::Forms::line_form))]
pub fn line(text: &[u8]) -> Result<Line, BadCause>
    ensures { IsLine text.now result }
{
    let mut words = Words::new(text);
    let actor = words.actor()?;
    let body = command(&mut words)?;
    Ok(Line { actor, body })
}
