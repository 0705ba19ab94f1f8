//! The entries of a history.
ghost use Rattle.std.specs.Prelude.{◌≡◌, ◌≤◌, ◌+◌, ◌++◌, codes, length, true};
ghost use Rattle.dtx_values.specs.declared.entry.Entry.TheVariants.{Answered, Asked, Called, Cloned, Completed, Cut, Decided, Down, Enlisted, LogWord};
ghost use Rattle.dtx_values.specs.declared.entry.Entry.TheVariants.{OwnerAnswered, Promoted, PromoteReply, Promoting, Recovered, Requested, Restarted, Scope, Told, Voted};
ghost use Rattle.dtx_model.specs.Grammar.{enlistment_name};
ghost use Rattle.dtx_model.specs.TraceText.{entry_text, sent_text};
ghost use Rattle.line_tail.specs.declared.tail.TheConstants.{LINE_ROOM};
ghost use Rattle.line_words.specs.declared.widths.TheConstants.{NAME_ROOM, WORD_ROOM};
ghost use Rattle.trace_lines.specs.OneTrace.{is_cause_typed, is_typed};
ghost use Rattle.trace_lines.specs.Printed.{is_event};
ghost use Rattle.trace_lines.specs.declared.widths.TheConstants.{ENTRY_ROOM, SENT_ROOM};

use crate::answers::put_answer;
use crate::entry_words;
use crate::keys::{put_counted, put_key};
use crate::messages::put_sent;
use crate::names::{put_ambient, put_party};
use dtx_values::{
    ActorNo, Answer, Ask, Cause, Class, CloneKind, CloneNo, Conn, Dir, EnlNo, Entry, LogNote,
    Message, Outcome, Party, Request, RmNo, ScopeNote, Vote,
};
use line_tail::Tail;
use line_words::{
    put_actor, put_ask, put_cause, put_class, put_clone, put_connection, put_direction,
    put_enlistment, put_found, put_identifier, put_image, put_kind, put_manager, put_numbered,
    put_outcome, put_reply, put_request, put_scope, put_vote,
};

/// Puts a word, a space and an enlistment.
#[inline(always)]
fn put_of(tail: &mut Tail, word: &[u8], e: EnlNo)
    requires { length word.now + 1 + NAME_ROOM + length tail.old ≤ LINE_ROOM }
    ensures text { tail.new ≡ word.now ++ codes " " ++ enlistment_name e.value ++ tail.old }
    ensures length { length tail.new ≤ length word.now + 1 + NAME_ROOM + length tail.old }
{
    put_enlistment(tail, e);
    put_key(tail, word);
}

/// Puts the answer of a call, its actor and the line of the script.
fn put_call(tail: &mut Tail, line: u32, actor: ActorNo, answer: Answer)
    requires { ENTRY_ROOM + length tail.old ≤ LINE_ROOM }
    ensures text { tail.new ≡ entry_text (Called line actor answer) ++ tail.old }
    ensures length { length tail.new ≤ ENTRY_ROOM + length tail.old }
    ensures typed { is_typed (Called line actor answer) ≡ true }
{
    put_answer(tail, answer);
    tail.put(b" ");
    put_actor(tail, actor);
    tail.put(b" ");
    put_counted(tail, entry_words::CALL, u64::from(line));
}

/// Puts the answer that a call had waited for.
fn put_answered(tail: &mut Tail, line: u32, answer: Answer)
    requires { ENTRY_ROOM + length tail.old ≤ LINE_ROOM }
    ensures text { tail.new ≡ entry_text (Answered line answer) ++ tail.old }
    ensures length { length tail.new ≤ ENTRY_ROOM + length tail.old }
    ensures typed { is_typed (Answered line answer) ≡ true }
{
    put_answer(tail, answer);
    tail.put(b" ");
    put_counted(tail, entry_words::ANSWER, u64::from(line));
}

/// Puts a clone that was made and its kind.
fn put_cloned(tail: &mut Tail, c: CloneNo, kind: CloneKind)
    requires { ENTRY_ROOM + length tail.old ≤ LINE_ROOM }
    ensures text { tail.new ≡ entry_text (Cloned c kind) ++ tail.old }
    ensures length { length tail.new ≤ ENTRY_ROOM + length tail.old }
{
    put_kind(tail, kind);
    tail.put(b" ");
    put_clone(tail, c);
    put_key(tail, entry_words::CLONED);
}

/// Puts a clone that was completed.
fn put_completed(tail: &mut Tail, c: CloneNo)
    requires { ENTRY_ROOM + length tail.old ≤ LINE_ROOM }
    ensures text { tail.new ≡ entry_text (Completed c) ++ tail.old }
    ensures length { length tail.new ≤ ENTRY_ROOM + length tail.old }
{
    put_clone(tail, c);
    put_key(tail, entry_words::COMPLETED);
}

/// Puts an enlistment that was made and its class.
fn put_enlisted(tail: &mut Tail, e: EnlNo, class: Class)
    requires { ENTRY_ROOM + length tail.old ≤ LINE_ROOM }
    ensures text { tail.new ≡ entry_text (Enlisted e class) ++ tail.old }
    ensures length { length tail.new ≤ ENTRY_ROOM + length tail.old }
{
    put_class(tail, class);
    tail.put(b" ");
    put_of(tail, entry_words::ENLISTED, e);
}

/// Puts what an enlistment was asked.
fn put_asked(tail: &mut Tail, e: EnlNo, ask: Ask)
    requires { ENTRY_ROOM + length tail.old ≤ LINE_ROOM }
    ensures text { tail.new ≡ entry_text (Asked e ask) ++ tail.old }
    ensures length { length tail.new ≤ ENTRY_ROOM + length tail.old }
{
    put_ask(tail, ask);
    tail.put(b" ");
    put_of(tail, entry_words::ASK, e);
}

/// Puts the vote of an enlistment.
fn put_voted(tail: &mut Tail, e: EnlNo, vote: Vote)
    requires { ENTRY_ROOM + length tail.old ≤ LINE_ROOM }
    ensures text { tail.new ≡ entry_text (Voted e vote) ++ tail.old }
    ensures length { length tail.new ≤ ENTRY_ROOM + length tail.old }
{
    put_vote(tail, vote);
    tail.put(b" ");
    put_of(tail, entry_words::VOTE, e);
}

/// Puts whether an enlistment could promote.
fn put_promote_reply(tail: &mut Tail, e: EnlNo, ok: bool)
    requires { ENTRY_ROOM + length tail.old ≤ LINE_ROOM }
    ensures text { tail.new ≡ entry_text (PromoteReply e ok) ++ tail.old }
    ensures length { length tail.new ≤ ENTRY_ROOM + length tail.old }
{
    put_reply(tail, ok);
    tail.put(b" ");
    put_of(tail, entry_words::PROMOTE, e);
}

/// Puts what an enlistment requested.
fn put_requested(tail: &mut Tail, e: EnlNo, request: Request)
    requires { ENTRY_ROOM + length tail.old ≤ LINE_ROOM }
    ensures text { tail.new ≡ entry_text (Requested e request) ++ tail.old }
    ensures length { length tail.new ≤ ENTRY_ROOM + length tail.old }
{
    put_request(tail, request);
    tail.put(b" ");
    put_of(tail, entry_words::REQUEST, e);
}

/// Puts the outcome that the owner answered.
fn put_owner_answer(tail: &mut Tail, e: EnlNo, outcome: Outcome)
    requires { ENTRY_ROOM + length tail.old ≤ LINE_ROOM }
    ensures text { tail.new ≡ entry_text (OwnerAnswered e outcome) ++ tail.old }
    ensures length { length tail.new ≤ ENTRY_ROOM + length tail.old }
{
    put_outcome(tail, outcome);
    tail.put(b" ");
    put_of(tail, entry_words::OWNER, e);
}

/// Puts the outcome that was decided.
fn put_decided(tail: &mut Tail, outcome: Outcome)
    requires { ENTRY_ROOM + length tail.old ≤ LINE_ROOM }
    ensures text { tail.new ≡ entry_text (Decided outcome) ++ tail.old }
    ensures length { length tail.new ≤ ENTRY_ROOM + length tail.old }
{
    put_outcome(tail, outcome);
    put_key(tail, entry_words::DECIDED);
}

/// Puts the outcome that a party was told.
fn put_told(tail: &mut Tail, party: Party, outcome: Outcome)
    requires { ENTRY_ROOM + length tail.old ≤ LINE_ROOM }
    ensures text { tail.new ≡ entry_text (Told party outcome) ++ tail.old }
    ensures length { length tail.new ≤ ENTRY_ROOM + length tail.old }
{
    put_outcome(tail, outcome);
    tail.put(b" ");
    put_party(tail, party);
    put_key(tail, entry_words::TOLD);
}

/// Puts the cause of a promotion that began.
fn put_promoting(tail: &mut Tail, cause: Cause)
    requires { ENTRY_ROOM + length tail.old ≤ LINE_ROOM }
    ensures text { tail.new ≡ entry_text (Promoting cause) ++ tail.old }
    ensures length { length tail.new ≤ ENTRY_ROOM + length tail.old }
{
    put_cause(tail, cause);
    put_key(tail, entry_words::PROMOTING);
}

/// Puts the identifier of a promoted transaction and the cause.
fn put_promoted(tail: &mut Tail, id: u128, cause: Cause)
    requires { ENTRY_ROOM + length tail.old ≤ LINE_ROOM }
    ensures text { tail.new ≡ entry_text (Promoted id cause) ++ tail.old }
    ensures length { length tail.new ≤ ENTRY_ROOM + length tail.old }
    ensures typed { is_typed (Promoted id cause) ≡ true }
{
    put_cause(tail, cause);
    tail.put(b" ");
    put_identifier(tail, id);
    put_key(tail, entry_words::PROMOTED);
}

/// Puts a word, a space and a message.
#[inline(always)]
fn put_wire(tail: &mut Tail, word: &[u8], c: Conn, d: Dir, m: Message)
    requires { length word.now + 1 + SENT_ROOM + length tail.old ≤ LINE_ROOM }
    ensures text { tail.new ≡ word.now ++ codes " " ++ sent_text c d m ++ tail.old }
    ensures length { length tail.new ≤ length word.now + 1 + SENT_ROOM + length tail.old }
    ensures typed { is_cause_typed m ≡ true }
{
    put_sent(tail, c, d, m);
    put_key(tail, word);
}

/// Puts how many messages were kept upward and downward on a connection that was cut.
fn put_cut(tail: &mut Tail, c: Conn, up: u32, down: u32)
    requires { ENTRY_ROOM + length tail.old ≤ LINE_ROOM }
    ensures text { tail.new ≡ entry_text (Cut c up down) ++ tail.old }
    ensures length { length tail.new ≤ ENTRY_ROOM + length tail.old }
    ensures typed { is_typed (Cut c up down) ≡ true }
{
    put_numbered(tail, b" ", u64::from(down));
    put_numbered(tail, b" ", u64::from(up));
    put_connection(tail, c);
    put_key(tail, entry_words::CUT);
}

/// Puts the end of a connection that was seen.
fn put_end(tail: &mut Tail, c: Conn, d: Dir)
    requires { ENTRY_ROOM + length tail.old ≤ LINE_ROOM }
    ensures text { tail.new ≡ entry_text (Down c d) ++ tail.old }
    ensures length { length tail.new ≤ ENTRY_ROOM + length tail.old }
{
    put_direction(tail, d);
    tail.put(b" ");
    put_connection(tail, c);
    put_key(tail, entry_words::DOWN);
}

/// Puts whether a restart found a record.
fn put_restarted(tail: &mut Tail, found: bool)
    requires { ENTRY_ROOM + length tail.old ≤ LINE_ROOM }
    ensures text { tail.new ≡ entry_text (Restarted found) ++ tail.old }
    ensures length { length tail.new ≤ ENTRY_ROOM + length tail.old }
{
    put_found(tail, found);
    put_key(tail, entry_words::RESTARTED);
}

/// Puts a manager that has recovered.
fn put_recovered(tail: &mut Tail, r: RmNo)
    requires { ENTRY_ROOM + length tail.old ≤ LINE_ROOM }
    ensures text { tail.new ≡ entry_text (Recovered r) ++ tail.old }
    ensures length { length tail.new ≤ ENTRY_ROOM + length tail.old }
{
    put_manager(tail, r);
    put_key(tail, entry_words::RECOVERED);
}

/// Puts what became of a scope.
fn put_scope_note(tail: &mut Tail, x: ScopeNote)
    requires { ENTRY_ROOM + length tail.old ≤ LINE_ROOM }
    ensures text { tail.new ≡ entry_text (Scope x) ++ tail.old }
    ensures length { length tail.new ≤ ENTRY_ROOM + length tail.old }
{
    match x {
        ScopeNote::Opened(s, t) => {
            put_ambient(tail, t);
            tail.put(b" ");
            put_scope(tail, s);
            put_key(tail, entry_words::OPENED);
        }
        ScopeNote::Finished(s) => {
            put_scope(tail, s);
            put_key(tail, entry_words::FINISHED);
        }
        ScopeNote::Closed(s) => {
            put_scope(tail, s);
            put_key(tail, entry_words::CLOSED);
        }
    }
}

/// Puts a note of the log.
fn put_log_note(tail: &mut Tail, x: LogNote)
    requires { ENTRY_ROOM + length tail.old ≤ LINE_ROOM }
    ensures text { tail.new ≡ entry_text (LogWord x) ++ tail.old }
    ensures length { length tail.new ≤ ENTRY_ROOM + length tail.old }
    ensures typed { is_typed (LogWord x) ≡ true }
{
    match x {
        LogNote::Armed(n, image) => {
            put_image(tail, image);
            tail.put(b" ");
            put_counted(tail, entry_words::ARMED, u64::from(n));
        }
        LogNote::Opened(n) => put_counted(tail, entry_words::OPENED, u64::from(n)),
    }
}

/// Puts an entry of one word.
fn put_event(tail: &mut Tail, x: Entry)
    requires event { is_event x ≡ true }
    requires room { WORD_ROOM + length tail.old ≤ LINE_ROOM }
    ensures text { tail.new ≡ entry_text x ++ tail.old }
    ensures length { length tail.new ≤ WORD_ROOM + length tail.old }
{
    match x {
        Entry::CommitAsked => tail.put(entry_words::COMMIT),
        Entry::RollbackAsked => tail.put(entry_words::ROLLBACK),
        Entry::TimedOut => tail.put(entry_words::TIMED_OUT),
        Entry::Late => tail.put(entry_words::LATE),
        Entry::Sealed => tail.put(entry_words::SEALED),
        Entry::LocalYes => tail.put(entry_words::YES),
        Entry::PromotionFailed => tail.put(entry_words::PROMOTION_FAILED),
        Entry::Logged => tail.put(entry_words::LOGGED),
        Entry::LogFull => tail.put(entry_words::LOG_FULL),
        Entry::Freed => tail.put(entry_words::FREED),
        Entry::Stopped => tail.put(entry_words::STOPPED),
        _ => unreachable!(),
    }
}

/// Puts an entry.
pub fn put_entry(tail: &mut Tail, x: Entry)
    requires { ENTRY_ROOM + length tail.old ≤ LINE_ROOM }
    ensures text { tail.new ≡ entry_text x ++ tail.old }
    ensures length { length tail.new ≤ ENTRY_ROOM + length tail.old }
    ensures typed { is_typed x ≡ true }
{
    match x {
        Entry::Called(line, actor, answer) => put_call(tail, line, actor, answer),
        Entry::Answered(line, answer) => put_answered(tail, line, answer),
        Entry::Began(milliseconds) => put_counted(
            tail,
            entry_words::BEGAN,
            u64::from(milliseconds),
        ),
        Entry::Cloned(c, kind) => put_cloned(tail, c, kind),
        Entry::Completed(c) => put_completed(tail, c),
        Entry::Enlisted(e, class) => put_enlisted(tail, e, class),
        Entry::Init(e) => put_of(tail, entry_words::INIT, e),
        Entry::Clock(milliseconds) => put_counted(tail, entry_words::CLOCK, milliseconds),
        Entry::Asked(e, ask) => put_asked(tail, e, ask),
        Entry::Voted(e, vote) => put_voted(tail, e, vote),
        Entry::PromoteReply(e, ok) => put_promote_reply(tail, e, ok),
        Entry::Requested(e, request) => put_requested(tail, e, request),
        Entry::Handed(e) => put_of(tail, entry_words::HAND, e),
        Entry::OwnerAnswered(e, outcome) => put_owner_answer(tail, e, outcome),
        Entry::Decided(outcome) => put_decided(tail, outcome),
        Entry::Told(party, outcome) => put_told(tail, party, outcome),
        Entry::Promoting(cause) => put_promoting(tail, cause),
        Entry::Promoted(id, cause) => put_promoted(tail, id, cause),
        Entry::Sent(c, d, m) => put_wire(tail, entry_words::SENT, c, d, m),
        Entry::Got(c, d, m) => put_wire(tail, entry_words::GOT, c, d, m),
        Entry::Cut(c, up, down) => put_cut(tail, c, up, down),
        Entry::Down(c, d) => put_end(tail, c, d),
        Entry::Lost(e) => put_of(tail, entry_words::LOST, e),
        Entry::Restarted(found) => put_restarted(tail, found),
        Entry::Reenlisted(e) => put_of(tail, entry_words::REENLISTED, e),
        Entry::Recovered(r) => put_recovered(tail, r),
        Entry::Acked(e) => put_of(tail, entry_words::ACKED, e),
        Entry::Scope(note) => put_scope_note(tail, note),
        Entry::LogWord(note) => put_log_note(tail, note),
        _ => put_event(tail, x),
    }
}
