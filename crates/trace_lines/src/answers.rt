//! The answers of calls.
ghost use Rattle.std.specs.Prelude.{◌≡◌, ◌≤◌, ◌+◌, ◌++◌, length, true};
ghost use Rattle.dtx_values.specs.declared.entry.Answer.TheVariants.{Connected, Ended, Id, Isolation, Nested, Over};
ghost use Rattle.dtx_model.specs.TraceText.{answer_text, is_answer_fit};
ghost use Rattle.line_tail.specs.declared.tail.TheConstants.{LINE_ROOM};
ghost use Rattle.trace_lines.specs.declared.widths.TheConstants.{ANSWER_ROOM};

use crate::answer_words;
use crate::keys::{put_counted, put_key};
use crate::names::put_ambient;
use dtx_values::{Answer, EnlNo, Iso, Outcome, RmNo, ScopeNo};
use line_tail::Tail;
use line_words::{
    put_enlistment, put_identifier, put_isolation, put_manager, put_outcome, put_scope,
};

/// Puts the identifier of a promoted transaction.
fn put_id(tail: &mut Tail, id: u128)
    requires { ANSWER_ROOM + length tail.old ≤ LINE_ROOM }
    ensures text { tail.new ≡ answer_text (Id id) ++ tail.old }
    ensures length { length tail.new ≤ ANSWER_ROOM + length tail.old }
{
    put_identifier(tail, id);
    put_key(tail, answer_words::ID);
}

/// Puts how the transaction ended already.
fn put_ended(tail: &mut Tail, o: Outcome)
    requires { ANSWER_ROOM + length tail.old ≤ LINE_ROOM }
    ensures text { tail.new ≡ answer_text (Ended o) ++ tail.old }
    ensures length { length tail.new ≤ ANSWER_ROOM + length tail.old }
{
    put_outcome(tail, o);
    put_key(tail, answer_words::ENDED);
}

/// Puts the manager that has recovered already.
fn put_over(tail: &mut Tail, r: RmNo)
    requires { ANSWER_ROOM + length tail.old ≤ LINE_ROOM }
    ensures text { tail.new ≡ answer_text (Over r) ++ tail.old }
    ensures length { length tail.new ≤ ANSWER_ROOM + length tail.old }
{
    put_manager(tail, r);
    put_key(tail, answer_words::OVER);
}

/// Puts the enlistment that is connected still.
fn put_connected(tail: &mut Tail, e: EnlNo)
    requires { ANSWER_ROOM + length tail.old ≤ LINE_ROOM }
    ensures text { tail.new ≡ answer_text (Connected e) ++ tail.old }
    ensures length { length tail.new ≤ ANSWER_ROOM + length tail.old }
{
    put_enlistment(tail, e);
    put_key(tail, answer_words::CONNECTED);
}

/// Puts the isolation that a scope asked for and that of the ambient transaction.
fn put_mismatch(tail: &mut Tail, asked: Iso, ambient: Iso)
    requires { ANSWER_ROOM + length tail.old ≤ LINE_ROOM }
    ensures text { tail.new ≡ answer_text (Isolation asked ambient) ++ tail.old }
    ensures length { length tail.new ≤ ANSWER_ROOM + length tail.old }
{
    put_isolation(tail, ambient);
    tail.put(b" ");
    put_isolation(tail, asked);
    put_key(tail, answer_words::ISOLATION);
}

/// Puts the scope that is open within.
fn put_nested(tail: &mut Tail, s: ScopeNo)
    requires { ANSWER_ROOM + length tail.old ≤ LINE_ROOM }
    ensures text { tail.new ≡ answer_text (Nested s) ++ tail.old }
    ensures length { length tail.new ≤ ANSWER_ROOM + length tail.old }
{
    put_scope(tail, s);
    put_key(tail, answer_words::NESTED);
}

/// Puts an answer.
pub fn put_answer(tail: &mut Tail, a: Answer)
    requires { ANSWER_ROOM + length tail.old ≤ LINE_ROOM }
    ensures text { tail.new ≡ answer_text a ++ tail.old }
    ensures length { length tail.new ≤ ANSWER_ROOM + length tail.old }
    ensures typed { is_answer_fit a ≡ true }
{
    match a {
        Answer::Fine => tail.put(answer_words::OK),
        Answer::True => tail.put(answer_words::TRUE),
        Answer::False => tail.put(answer_words::FALSE),
        Answer::Wait => tail.put(answer_words::WAIT),
        Answer::Id(u) => put_id(tail, u),
        Answer::StillActive => tail.put(answer_words::ACTIVE),
        Answer::OutcomeIs(o) => put_outcome(tail, o),
        Answer::StillOpen => tail.put(answer_words::OPEN),
        Answer::Did(n) => put_counted(tail, answer_words::DID, u64::from(n)),
        Answer::NotBegun => tail.put(answer_words::NOT_BEGUN),
        Answer::Ended(o) => put_ended(tail, o),
        Answer::TooLate => tail.put(answer_words::TOO_LATE),
        Answer::Many(n) => put_counted(tail, answer_words::MANY, u64::from(n)),
        Answer::NoSuch => tail.put(answer_words::NO_SUCH),
        Answer::Already => tail.put(answer_words::ALREADY),
        Answer::Finished => tail.put(answer_words::FINISHED),
        Answer::Over(r) => put_over(tail, r),
        Answer::Connected(e) => put_connected(tail, e),
        Answer::Stopped => tail.put(answer_words::STOPPED),
        Answer::Deep => tail.put(answer_words::DEEP),
        Answer::Isolation(asked, ambient) => put_mismatch(tail, asked, ambient),
        Answer::NoScope => tail.put(answer_words::NO_SCOPE),
        Answer::Nested(s) => put_nested(tail, s),
        Answer::Ambient(t) => put_ambient(tail, t),
        Answer::Fault => tail.put(answer_words::FAULT),
        Answer::NotALog(place) => put_counted(tail, answer_words::NOT_A_LOG, place),
    }
}
