//! Reads the words.
ghost use Rattle.std.specs.Prelude.{◌≡◌, ◌≢◌, ◌≤◌, ℕ, List, [], ◌∷◌, decimal, false, map, true, IfNone, IfSome};
ghost use Rattle.std.specs.String.{string_bytes};
ghost use Rattle.program_words.specs.Commands.{Asks, AsksNothing, form_words, is_count, is_form_on_threads, is_helpers};
ghost use Rattle.program_words.specs.declared.command.Command.{Command};
ghost use Rattle.program_words.specs.declared.command.Form.{Form};

use crate::command::{Command, Form};
use line_words::{number8_of, number16_of};

const REPLAY: &[u8] = b"replay";

const MAKE: &[u8] = b"make";

const DEMO: &[u8] = b"demo";

const THREADS: &[u8] = b"threads";

const LOG: &[u8] = b"log";

const CHECK: &[u8] = b"check";

const STORE: &[u8] = b"store";

const MAP: &[u8] = b"map";

const WIRE: &[u8] = b"--wire";

const JSON: &[u8] = b"--json";

const SUMMARY: &[u8] = b"--summary";

const WHY: &[u8] = b"--why";

const HTML: &[u8] = b"--html";

/// The number from 1 to 256 that this word is, in decimal without sign or leading zero.
fn count_of(word: &[u8]) -> Option<u16>
    ensures some { IfSome result (λ n. (word.now ≡ decimal n) × (is_count n ≡ true)) }
    ensures none { IfNone result ((n : ℕ) → is_count n ≡ true → word.now ≢ decimal n) }
{
    let n = number16_of(word)?;
    if 1 <= n && n <= 256 { Some(n) } else { None }
}

/// The number from 1 to 16 that this word is, in decimal without sign or leading zero.
fn helpers_of(word: &[u8]) -> Option<u8>
    ensures some { IfSome result (λ h. (word.now ≡ decimal h) × (is_helpers h ≡ true)) }
    ensures none { IfNone result ((h : ℕ) → is_helpers h ≡ true → word.now ≢ decimal h) }
{
    let h = number8_of(word)?;
    if 1 <= h && h <= 16 { Some(h) } else { None }
}

/// The form that this word asks for.
fn form_of(word: &[u8]) -> Option<Form>
    ensures some { IfSome result (λ f. form_words f ≡ word.now ∷ []) }
    ensures none { IfNone result ((f : Form) → form_words f ≢ word.now ∷ []) }
{
    if word == WIRE {
        return Some(Form::Wire);
    }
    if word == JSON {
        return Some(Form::Json);
    }
    if word == SUMMARY {
        return Some(Form::Summary);
    }
    if word == WHY {
        return Some(Form::Why);
    }
    if word == HTML {
        return Some(Form::Html);
    }
    None
}

/// The form of a run on threads that this word asks for.
fn form_on_threads_of(word: &[u8]) -> Option<Form>
    ensures some { IfSome result (λ f. (form_words f ≡ word.now ∷ []) × (is_form_on_threads f ≡ true)) }
    ensures none { IfNone result ((f : Form) → is_form_on_threads f ≡ true → form_words f ≢ word.now ∷ []) }
{
    if word == SUMMARY {
        return Some(Form::Summary);
    }
    if word == WHY {
        return Some(Form::Why);
    }
    None
}

/// The command of one word.
fn single_of(word: &[u8]) -> Option<Command>
    ensures some { IfSome result (λ c. Asks (word.now ∷ []) c) }
    ensures none { IfNone result (AsksNothing (word.now ∷ [])) }
{
    if word == REPLAY {
        return Some(Command::Replay(Form::Plain));
    }
    match word {
        LOG => Some(Command::Log),
        CHECK => Some(Command::Check),
        STORE => Some(Command::Store),
        MAP => Some(Command::Map),
        _ => None,
    }
}

/// The command of two words.
fn pair_of(first: &[u8], second: &[u8]) -> Option<Command>
    ensures some { IfSome result (λ c. Asks (first.now ∷ second.now ∷ []) c) }
    ensures none { IfNone result (AsksNothing (first.now ∷ second.now ∷ [])) }
{
    if first == THREADS {
        return match helpers_of(second) {
            Some(h) => Some(Command::Threads(h, Form::Plain)),
            None => None,
        };
    }
    match first {
        REPLAY => form_of(second).map(Command::Replay),
        MAKE => count_of(second).map(Command::Make),
        DEMO => count_of(second).map(Command::Demo),
        _ => None,
    }
}

/// The command of three words.
fn triple_of(first: &[u8], second: &[u8], third: &[u8]) -> Option<Command>
    ensures some { IfSome result (λ c. Asks (first.now ∷ second.now ∷ third.now ∷ []) c) }
    ensures none { IfNone result (AsksNothing (first.now ∷ second.now ∷ third.now ∷ [])) }
{
    if first != THREADS {
        return None;
    }
    let form = form_on_threads_of(third)?;
    match helpers_of(second) {
        Some(h) => Some(Command::Threads(h, form)),
        None => None,
    }
}

/// The command that these words ask for; `None` exactly where they ask for none. They ask for one command at most.
#[tactic(auto, using(crate::proofs::Injective::one_command))]
pub fn command_of(words: &[String]) -> Option<Command>
    ensures some { IfSome result (λ c. Asks (map string_bytes words.now) c) }
    ensures one { (c d : Command) → Asks (map string_bytes words.now) c → Asks (map string_bytes words.now) d → c ≡ d }
    ensures none { IfNone result (AsksNothing (map string_bytes words.now)) }
{
    match words {
        [word] => single_of(word.as_bytes()),
        [first, second] => pair_of(first.as_bytes(), second.as_bytes()),
        [first, second, third] => triple_of(first.as_bytes(), second.as_bytes(), third.as_bytes()),
        _ => None,
    }
}
