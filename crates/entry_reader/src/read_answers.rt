//! Answers that are read.
ghost use Rattle.std.specs.Prelude.{◌≡◌, ◌≢◌, Some, true, IfSome, IfNone};
ghost use Rattle.dtx_values.specs.declared.entry.Answer.{Answer};
ghost use Rattle.dtx_model.specs.TraceText.{answer_text, is_answer_fit};
ghost use Rattle.line_tail.specs.Cut.{behind, front};
ghost use Rattle.entry_reader.specs.ReadGroups.{is_plain_answer, is_refusal, is_detailed};

use crate::read_names::ambient_of;
use dtx_values::Answer;
use line_tail::parts;
use line_words::{
    enlistment_of, identifier_of, isolation_of, manager_of, number_of, number8_of, number16_of,
    outcome_of, scope_of,
};
use trace_lines::answer_words;

/// Reads an answer of a call that goes on or ended.
fn plain(key: &[u8]) -> Option<Answer>
    ensures some { IfSome result (λ y. (x : Answer) → key.now ≡ front 32 (answer_text x) → y ≡ x) }
    ensures fit { IfSome result (λ y. is_answer_fit y ≡ true) }
    ensures none { IfNone result ((x : Answer) → is_plain_answer x ≡ true → key.now ≢ front 32 (answer_text x)) }
{
    if key == answer_words::OK {
        return Some(Answer::Fine);
    }
    if key == answer_words::TRUE {
        return Some(Answer::True);
    }
    if key == answer_words::FALSE {
        return Some(Answer::False);
    }
    if key == answer_words::WAIT {
        return Some(Answer::Wait);
    }
    if key == answer_words::ACTIVE {
        return Some(Answer::StillActive);
    }
    if let Some(o) = outcome_of(key) {
        return Some(Answer::OutcomeIs(o));
    }
    if key == answer_words::OPEN {
        return Some(Answer::StillOpen);
    }
    if key == answer_words::FAULT {
        return Some(Answer::Fault);
    }
    None
}

/// Reads an answer that refuses a call.
fn refusal(key: &[u8]) -> Option<Answer>
    ensures some { IfSome result (λ y. (x : Answer) → key.now ≡ front 32 (answer_text x) → y ≡ x) }
    ensures fit { IfSome result (λ y. is_answer_fit y ≡ true) }
    ensures none { IfNone result ((x : Answer) → is_refusal x ≡ true → key.now ≢ front 32 (answer_text x)) }
{
    if key == answer_words::NOT_BEGUN {
        return Some(Answer::NotBegun);
    }
    if key == answer_words::TOO_LATE {
        return Some(Answer::TooLate);
    }
    if key == answer_words::NO_SUCH {
        return Some(Answer::NoSuch);
    }
    if key == answer_words::ALREADY {
        return Some(Answer::Already);
    }
    if key == answer_words::FINISHED {
        return Some(Answer::Finished);
    }
    if key == answer_words::STOPPED {
        return Some(Answer::Stopped);
    }
    if key == answer_words::DEEP {
        return Some(Answer::Deep);
    }
    if key == answer_words::NO_SCOPE {
        return Some(Answer::NoScope);
    }
    None
}

/// Reads an answer of several words.
fn detailed(key: &[u8], rest: &[u8]) -> Option<Answer>
    ensures some { IfSome result (λ y. (x : Answer) → is_answer_fit x ≡ true → key.now ≡ front 32 (answer_text x) → rest.now ≡ behind 32 (answer_text x) → y ≡ x) }
    ensures fit { IfSome result (λ y. is_answer_fit y ≡ true) }
    ensures none { IfNone result ((x : Answer) → is_detailed x ≡ true → is_answer_fit x ≡ true → key.now ≡ front 32 (answer_text x) → rest.now ≢ behind 32 (answer_text x)) }
{
    if key == answer_words::ID {
        return Some(Answer::Id(identifier_of(rest)?));
    }
    if key == answer_words::DID {
        return Some(Answer::Did(number16_of(rest)?));
    }
    if key == answer_words::ENDED {
        return Some(Answer::Ended(outcome_of(rest)?));
    }
    if key == answer_words::MANY {
        return Some(Answer::Many(number8_of(rest)?));
    }
    if key == answer_words::OVER {
        return Some(Answer::Over(manager_of(rest)?));
    }
    if key == answer_words::CONNECTED {
        return Some(Answer::Connected(enlistment_of(rest)?));
    }
    if key == answer_words::ISOLATION {
        let (asked, ambient) = parts(rest, b' ');
        return Some(Answer::Isolation(isolation_of(asked)?, isolation_of(ambient)?));
    }
    if key == answer_words::NESTED {
        return Some(Answer::Nested(scope_of(rest)?));
    }
    if key == answer_words::NOT_A_LOG {
        return Some(Answer::NotALog(number_of(rest)?));
    }
    None
}

/// Reads an answer.
pub fn answer_of(text: &[u8]) -> Option<Answer>
    ensures of { (x : Answer) → is_answer_fit x ≡ true → text.now ≡ answer_text x → result ≡ Some x }
    ensures fit { IfSome result (λ y. is_answer_fit y ≡ true) }
{
    let (key, rest) = parts(text, b' ');
    if let Some(x) = plain(key) {
        return Some(x);
    }
    if let Some(x) = refusal(key) {
        return Some(x);
    }
    if let Some(x) = detailed(key, rest) {
        return Some(x);
    }
    Some(Answer::Ambient(ambient_of(key)?))
}
