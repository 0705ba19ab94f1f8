//! Entries that are read.
ghost use Rattle.std.specs.Prelude.{◌≡◌, ◌≢◌, ◌++◌, ℕ, List, Some, true, false, codes, decimal, IfSome, IfNone};
ghost use Rattle.dtx_values.specs.declared.entry.Entry.{Entry};
ghost use Rattle.dtx_values.specs.declared.message.Conn.{Conn};
ghost use Rattle.dtx_values.specs.declared.message.Dir.{Dir};
ghost use Rattle.dtx_values.specs.declared.message.Message.{Message};
ghost use Rattle.dtx_values.specs.declared.number.EnlNo.{EnlNo};
ghost use Rattle.dtx_values.specs.declared.trace.Place.{Place};
ghost use Rattle.dtx_values.specs.Lines.{has_line};
ghost use Rattle.dtx_model.specs.Grammar.{connection_word, enlistment_name};
ghost use Rattle.dtx_model.specs.TraceText.{entry_text, sent_text, is_entry_fit, is_message_fit};
ghost use Rattle.line_tail.specs.Cut.{behind, front};
ghost use Rattle.trace_lines.specs.Printed.{is_event};
ghost use Rattle.entry_reader.specs.ReadGroups.{is_of_enlistment, is_about_enlistment, is_of_word, is_of_words, is_call};

use crate::read_answers::answer_of;
use crate::read_messages::message_of;
use crate::read_names::{ambient_of, party_of};
use dtx_values::{Conn, Dir, EnlNo, Entry, LogNote, Message, Place, ScopeNote};
use line_tail::parts;
use line_words::{
    actor_of, ask_of, cause_of, class_of, clone_of, connection_of, direction_of, enlistment_of,
    found_of, identifier_of, image_of, kind_of, manager_of, number_of, number8_of, number16_of,
    number32_of, outcome_of, reply_of, request_of, scope_of, vote_of,
};
use trace_lines::entry_words;

/// Reads an entry of its keyword alone.
fn event(key: &[u8]) -> Option<Entry>
    ensures some { IfSome result (λ y. (x : Entry) → key.now ≡ entry_text x → y ≡ x) }
    ensures fit { IfSome result (λ y. (p : Place) → is_entry_fit p y ≡ true) }
    ensures none { IfNone result ((x : Entry) → is_event x ≡ true → key.now ≢ entry_text x) }
{
    if key == entry_words::COMMIT {
        return Some(Entry::CommitAsked);
    }
    if key == entry_words::ROLLBACK {
        return Some(Entry::RollbackAsked);
    }
    if key == entry_words::TIMED_OUT {
        return Some(Entry::TimedOut);
    }
    if key == entry_words::LATE {
        return Some(Entry::Late);
    }
    if key == entry_words::SEALED {
        return Some(Entry::Sealed);
    }
    if key == entry_words::YES {
        return Some(Entry::LocalYes);
    }
    if key == entry_words::PROMOTION_FAILED {
        return Some(Entry::PromotionFailed);
    }
    if key == entry_words::LOGGED {
        return Some(Entry::Logged);
    }
    if key == entry_words::LOG_FULL {
        return Some(Entry::LogFull);
    }
    if key == entry_words::FREED {
        return Some(Entry::Freed);
    }
    if key == entry_words::STOPPED {
        return Some(Entry::Stopped);
    }
    None
}

/// Reads an entry of an enlistment alone.
fn of_enlistment(key: &[u8], rest: &[u8]) -> Option<Entry>
    ensures some { IfSome result (λ y. (x : Entry) → key.now ≡ front 32 (entry_text x) → rest.now ≡ behind 32 (entry_text x) → y ≡ x) }
    ensures fit { IfSome result (λ y. (p : Place) → is_entry_fit p y ≡ true) }
    ensures none { IfNone result ((x : Entry) → is_of_enlistment x ≡ true → key.now ≡ front 32 (entry_text x) → rest.now ≢ behind 32 (entry_text x)) }
{
    if key == entry_words::INIT {
        return Some(Entry::Init(enlistment_of(rest)?));
    }
    if key == entry_words::HAND {
        return Some(Entry::Handed(enlistment_of(rest)?));
    }
    if key == entry_words::LOST {
        return Some(Entry::Lost(enlistment_of(rest)?));
    }
    if key == entry_words::REENLISTED {
        return Some(Entry::Reenlisted(enlistment_of(rest)?));
    }
    if key == entry_words::ACKED {
        return Some(Entry::Acked(enlistment_of(rest)?));
    }
    None
}

/// The enlistment that the first word names, and the words after it.
fn leading(words: &[u8]) -> (Option<EnlNo>, &[u8])
    ensures name { (e : EnlNo) (r : List ℕ) → words.now ≡ enlistment_name e.value ++ codes " " ++ r → result.0 ≡ Some e }
    ensures behind { (e : EnlNo) (r : List ℕ) → words.now ≡ enlistment_name e.value ++ codes " " ++ r → result.1.now ≡ r }
{
    let (name, word) = parts(words, b' ');
    (enlistment_of(name), word)
}

/// Reads an entry of an enlistment and a word.
fn about_enlistment(key: &[u8], rest: &[u8]) -> Option<Entry>
    ensures some { IfSome result (λ y. (x : Entry) → key.now ≡ front 32 (entry_text x) → rest.now ≡ behind 32 (entry_text x) → y ≡ x) }
    ensures fit { IfSome result (λ y. (p : Place) → is_entry_fit p y ≡ true) }
    ensures none { IfNone result ((x : Entry) → is_about_enlistment x ≡ true → key.now ≡ front 32 (entry_text x) → rest.now ≢ behind 32 (entry_text x)) }
{
    let (name, word) = leading(rest);
    let e = name?;
    if key == entry_words::ENLISTED {
        return Some(Entry::Enlisted(e, class_of(word)?));
    }
    if key == entry_words::ASK {
        return Some(Entry::Asked(e, ask_of(word)?));
    }
    if key == entry_words::VOTE {
        return Some(Entry::Voted(e, vote_of(word)?));
    }
    if key == entry_words::PROMOTE {
        return Some(Entry::PromoteReply(e, reply_of(word)?));
    }
    if key == entry_words::REQUEST {
        return Some(Entry::Requested(e, request_of(word)?));
    }
    if key == entry_words::OWNER {
        return Some(Entry::OwnerAnswered(e, outcome_of(word)?));
    }
    None
}

/// Reads an entry of one word behind its keyword, other than an enlistment.
fn of_word(key: &[u8], rest: &[u8]) -> Option<Entry>
    ensures some { IfSome result (λ y. (p : Place) (x : Entry) → is_entry_fit p x ≡ true → key.now ≡ front 32 (entry_text x) → rest.now ≡ behind 32 (entry_text x) → y ≡ x) }
    ensures fit { IfSome result (λ y. (p : Place) → is_entry_fit p y ≡ true) }
    ensures none { IfNone result ((p : Place) (x : Entry) → is_entry_fit p x ≡ true → is_of_word x ≡ true → key.now ≡ front 32 (entry_text x) → rest.now ≢ behind 32 (entry_text x)) }
{
    if key == entry_words::BEGAN {
        return Some(Entry::Began(number32_of(rest)?));
    }
    if key == entry_words::COMPLETED {
        return Some(Entry::Completed(clone_of(rest)?));
    }
    if key == entry_words::CLOCK {
        return Some(Entry::Clock(number_of(rest)?));
    }
    if key == entry_words::DECIDED {
        return Some(Entry::Decided(outcome_of(rest)?));
    }
    if key == entry_words::PROMOTING {
        return Some(Entry::Promoting(cause_of(rest)?));
    }
    if key == entry_words::RESTARTED {
        return Some(Entry::Restarted(found_of(rest)?));
    }
    if key == entry_words::RECOVERED {
        return Some(Entry::Recovered(manager_of(rest)?));
    }
    if key == entry_words::FINISHED {
        return Some(Entry::Scope(ScopeNote::Finished(scope_of(rest)?)));
    }
    if key == entry_words::CLOSED {
        return Some(Entry::Scope(ScopeNote::Closed(scope_of(rest)?)));
    }
    None
}

/// Reads an entry of two words behind its keyword, or one that shares its keyword with one of them.
fn of_words(key: &[u8], rest: &[u8]) -> Option<Entry>
    ensures some { IfSome result (λ y. (p : Place) (x : Entry) → is_entry_fit p x ≡ true → key.now ≡ front 32 (entry_text x) → rest.now ≡ behind 32 (entry_text x) → y ≡ x) }
    ensures fit { IfSome result (λ y. (p : Place) → is_entry_fit p y ≡ true) }
    ensures none { IfNone result ((p : Place) (x : Entry) → is_entry_fit p x ≡ true → is_of_words x ≡ true → key.now ≡ front 32 (entry_text x) → rest.now ≢ behind 32 (entry_text x)) }
{
    let (first, last) = parts(rest, b' ');
    if key == entry_words::CLONED {
        return Some(Entry::Cloned(clone_of(first)?, kind_of(last)?));
    }
    if key == entry_words::TOLD {
        return Some(Entry::Told(party_of(first)?, outcome_of(last)?));
    }
    if key == entry_words::PROMOTED {
        return Some(Entry::Promoted(identifier_of(first)?, cause_of(last)?));
    }
    if key == entry_words::DOWN {
        return Some(Entry::Down(connection_of(first)?, direction_of(last)?));
    }
    if key == entry_words::ARMED {
        return Some(Entry::LogWord(LogNote::Armed(number8_of(first)?, image_of(last)?)));
    }
    if key == entry_words::OPENED {
        if last.is_empty() {
            return Some(Entry::LogWord(LogNote::Opened(number16_of(rest)?)));
        }
        return Some(Entry::Scope(ScopeNote::Opened(scope_of(first)?, ambient_of(last)?)));
    }
    None
}

/// Reads the answer of a call.
fn call(key: &[u8], rest: &[u8]) -> Option<Entry>
    ensures some { IfSome result (λ y. (p : Place) (x : Entry) → is_entry_fit p x ≡ true → key.now ≡ front 32 (entry_text x) → rest.now ≡ behind 32 (entry_text x) → y ≡ x) }
    ensures fit { IfSome result (λ y. (p : Place) → is_entry_fit p y ≡ true) }
    ensures none { IfNone result ((p : Place) (x : Entry) → is_entry_fit p x ≡ true → is_call x ≡ true → key.now ≡ front 32 (entry_text x) → rest.now ≢ behind 32 (entry_text x)) }
{
    let (first, last) = parts(rest, b' ');
    if key == entry_words::CALL {
        let (name, text) = parts(last, b' ');
        return Some(Entry::Called(number32_of(first)?, actor_of(name)?, answer_of(text)?));
    }
    if key == entry_words::ANSWER {
        return Some(Entry::Answered(number32_of(first)?, answer_of(last)?));
    }
    None
}

/// Reads how many messages were kept upward and downward on a connection that was cut.
fn cut_of(text: &[u8]) -> Option<Entry>
    ensures fit { IfSome result (λ y. (p : Place) → is_entry_fit p y ≡ true) }
    ensures of { (p : Place) (c : Conn) (up down : ℕ) → is_entry_fit p (Entry.Cut c up down) ≡ true
        → text.now ≡ connection_word c ++ codes " " ++ decimal up ++ codes " " ++ decimal down → result ≡ Some (Entry.Cut c up down) }
{
    let (first, last) = parts(text, b' ');
    let (up, down) = parts(last, b' ');
    Some(Entry::Cut(connection_of(first)?, number32_of(up)?, number32_of(down)?))
}

/// Reads a message, its direction and its connection.
fn sent_of(at: Place, text: &[u8]) -> Option<(Conn, Dir, Message)>
    ensures line { IfSome result (λ r. has_line r.0 r.1 r.2 ≡ true) }
    ensures fit { IfSome result (λ r. is_message_fit at r.0 r.2 ≡ true) }
    ensures of { (c : Conn) (d : Dir) (m : Message) → has_line c d m ≡ true → is_message_fit at c m ≡ true → text.now ≡ sent_text c d m → result ≡ Some (c, d, m) }
{
    let (first, last) = parts(text, b' ');
    let (word, name) = parts(last, b' ');
    let conn = connection_of(first)?;
    let dir = direction_of(word)?;
    Some((conn, dir, message_of(at, conn, dir, name)?))
}

/// Reads an entry on a connection.
fn crossing(at: Place, key: &[u8], rest: &[u8]) -> Option<Entry>
    ensures of { (x : Entry) → is_entry_fit at x ≡ true → is_event x ≡ false → is_of_enlistment x ≡ false → is_about_enlistment x ≡ false → is_of_word x ≡ false →
        is_of_words x ≡ false → is_call x ≡ false → key.now ≡ front 32 (entry_text x) → rest.now ≡ behind 32 (entry_text x) → result ≡ Some x }
    ensures fit { IfSome result (λ y. is_entry_fit at y ≡ true) }
{
    if key == entry_words::CUT {
        return cut_of(rest);
    }
    let (conn, dir, m) = sent_of(at, rest)?;
    if key == entry_words::SENT {
        return Some(Entry::Sent(conn, dir, m));
    }
    if key == entry_words::GOT {
        return Some(Entry::Got(conn, dir, m));
    }
    None
}

/// Reads an entry at this place.
pub fn entry_of(at: Place, text: &[u8]) -> Option<Entry>
    ensures of { (x : Entry) → is_entry_fit at x ≡ true → text.now ≡ entry_text x → result ≡ Some x }
    ensures fit { IfSome result (λ y. is_entry_fit at y ≡ true) }
{
    if let Some(x) = event(text) {
        return Some(x);
    }
    let (key, rest) = parts(text, b' ');
    if let Some(x) = of_enlistment(key, rest) {
        return Some(x);
    }
    if let Some(x) = about_enlistment(key, rest) {
        return Some(x);
    }
    if let Some(x) = of_word(key, rest) {
        return Some(x);
    }
    if let Some(x) = of_words(key, rest) {
        return Some(x);
    }
    if let Some(x) = call(key, rest) {
        return Some(x);
    }
    crossing(at, key, rest)
}
