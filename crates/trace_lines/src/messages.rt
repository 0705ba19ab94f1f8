//! Messages on their connections.
ghost use Rattle.std.specs.Prelude.{◌≡◌, ◌≤◌, ◌+◌, ◌++◌, length, true};
ghost use Rattle.dtx_model.specs.TraceText.{message_text, sent_text};
ghost use Rattle.line_tail.specs.declared.tail.TheConstants.{LINE_ROOM};
ghost use Rattle.trace_lines.specs.OneTrace.{is_cause_typed};
ghost use Rattle.trace_lines.specs.declared.widths.TheConstants.{MESSAGE_ROOM, SENT_ROOM};

use crate::keys::put_counted;
use crate::message_words;
use dtx_values::{Conn, Dir, Message};
use line_tail::Tail;
use line_words::{put_connection, put_direction};

/// Puts the name of a message.
pub fn put_message(tail: &mut Tail, m: Message)
    requires { MESSAGE_ROOM + length tail.old ≤ LINE_ROOM }
    ensures text { tail.new ≡ message_text m ++ tail.old }
    ensures length { length tail.new ≤ MESSAGE_ROOM + length tail.old }
    ensures typed { is_cause_typed m ≡ true }
{
    match m {
        Message::BeginBegin => tail.put(message_words::BEGIN),
        Message::BeginCommit => tail.put(message_words::COMMIT),
        Message::BeginAbort => tail.put(message_words::ABORT),
        Message::BeginBegun(_) => tail.put(message_words::BEGUN),
        Message::BeginCommitted => tail.put(message_words::COMMITTED),
        Message::BeginAborted => tail.put(message_words::ABORTED),
        Message::BeginCommitOne => tail.put(message_words::COMMITONE),
        Message::BeginInDoubt => tail.put(message_words::INDOUBT),
        Message::VoterVoter(_) => tail.put(message_words::VOTER),
        Message::VoterYes => tail.put(message_words::YES),
        Message::VoterNo => tail.put(message_words::NO),
        Message::VoterCreated => tail.put(message_words::CREATED),
        Message::VoterRefused(cause) => put_counted(tail, message_words::REFUSED, u64::from(cause)),
        Message::VoterAsk => tail.put(message_words::ASK),
        Message::VoterCommit => tail.put(message_words::COMMIT),
        Message::VoterAbort => tail.put(message_words::ABORT),
        Message::VoterInDoubt => tail.put(message_words::INDOUBT),
        Message::EnlistEnlist(_) => tail.put(message_words::ENLIST),
        Message::EnlistPrepared => tail.put(message_words::PREPARED),
        Message::EnlistNo => tail.put(message_words::NO),
        Message::EnlistReadonly => tail.put(message_words::READONLY),
        Message::EnlistAck => tail.put(message_words::ACK),
        Message::EnlistEnlisted => tail.put(message_words::ENLISTED),
        Message::EnlistRefused(cause) => put_counted(
            tail,
            message_words::REFUSED,
            u64::from(cause),
        ),
        Message::EnlistPrepare => tail.put(message_words::PREPARE),
        Message::EnlistCommit => tail.put(message_words::COMMIT),
        Message::EnlistAbort => tail.put(message_words::ABORT),
        Message::EnlistSingle => tail.put(message_words::SINGLE),
        Message::EnlistOneCommitted => tail.put(message_words::ONECOMMITTED),
        Message::EnlistOneAborted => tail.put(message_words::ONEABORTED),
        Message::EnlistOneInDoubt => tail.put(message_words::ONEINDOUBT),
        Message::ReenlistReenlist(_) => tail.put(message_words::REENLIST),
        Message::ReenlistAck => tail.put(message_words::ACK),
        Message::ReenlistCommitted => tail.put(message_words::COMMITTED),
        Message::ReenlistAborted => tail.put(message_words::ABORTED),
    }
}

/// Puts a message, its direction and its connection.
pub fn put_sent(tail: &mut Tail, c: Conn, d: Dir, m: Message)
    requires { SENT_ROOM + length tail.old ≤ LINE_ROOM }
    ensures text { tail.new ≡ sent_text c d m ++ tail.old }
    ensures length { length tail.new ≤ SENT_ROOM + length tail.old }
    ensures typed { is_cause_typed m ≡ true }
{
    put_message(tail, m);
    tail.put(b" ");
    put_direction(tail, d);
    tail.put(b" ");
    put_connection(tail, c);
}
