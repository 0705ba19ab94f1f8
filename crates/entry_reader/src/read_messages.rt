//! Messages that are read, with what their texts leave out.
ghost use Rattle.std.specs.Prelude.{◌≡◌, Some, true, IfSome};
ghost use Rattle.dtx_values.specs.declared.message.Conn.{Conn};
ghost use Rattle.dtx_values.specs.declared.message.Message.{Message};
ghost use Rattle.dtx_values.specs.declared.trace.Place.{Place};
ghost use Rattle.dtx_values.specs.Lines.{is_begin_up, is_begin_down, is_voter_up, is_voter_down, is_enlist_up, is_enlist_down, is_reenlist_up, is_reenlist_down, has_line};
ghost use Rattle.dtx_model.specs.TraceText.{id_at, is_message_fit, message_text};
ghost use Rattle.line_tail.specs.Cut.{behind, front};

use dtx_values::{Conn, Dir, EnlNo, Info, Message, Place, RmNo};
use line_tail::parts;
use line_words::number8_of;
use trace_lines::message_words;

/// The node of the identifiers that messages have, in their upper 64 bits.
const NODE: u128 = 18_446_744_073_709_551_616;

/// The identifier that a message has at this place.
pub fn identifier_at(place: Place) -> u128
    ensures { result ≡ id_at place }
{
    match place {
        Place::Transaction(t) => NODE + u128::from(t.get()),
        _ => NODE + 1,
    }
}

/// Reads a message upward on b.
fn begin_up(name: &[u8]) -> Option<Message>
    ensures of { (m : Message) → is_begin_up m ≡ true → name.now ≡ front 32 (message_text m) → result ≡ Some m }
    ensures line { IfSome result (λ m. is_begin_up m ≡ true) }
    ensures fit { IfSome result (λ m. (p : Place) (c : Conn) → is_message_fit p c m ≡ true) }
{
    match name {
        message_words::BEGIN => Some(Message::BeginBegin),
        message_words::COMMIT => Some(Message::BeginCommit),
        message_words::ABORT => Some(Message::BeginAbort),
        message_words::COMMITONE => Some(Message::BeginCommitOne),
        _ => None,
    }
}

/// Reads a message downward on b.
fn begin_down(place: Place, name: &[u8]) -> Option<Message>
    ensures of { (m : Message) → is_begin_down m ≡ true → is_message_fit place Conn.Begin m ≡ true → name.now ≡ front 32 (message_text m) → result ≡ Some m }
    ensures line { IfSome result (λ m. is_begin_down m ≡ true) }
    ensures fit { IfSome result (λ m. is_message_fit place Conn.Begin m ≡ true) }
{
    match name {
        message_words::BEGUN => Some(Message::BeginBegun(identifier_at(place))),
        message_words::COMMITTED => Some(Message::BeginCommitted),
        message_words::ABORTED => Some(Message::BeginAborted),
        message_words::INDOUBT => Some(Message::BeginInDoubt),
        _ => None,
    }
}

/// Reads a message upward on v.
fn voter_up(place: Place, name: &[u8]) -> Option<Message>
    ensures of { (m : Message) → is_voter_up m ≡ true → is_message_fit place Conn.Voter m ≡ true → name.now ≡ front 32 (message_text m) → result ≡ Some m }
    ensures line { IfSome result (λ m. is_voter_up m ≡ true) }
    ensures fit { IfSome result (λ m. is_message_fit place Conn.Voter m ≡ true) }
{
    match name {
        message_words::VOTER => Some(Message::VoterVoter(identifier_at(place))),
        message_words::YES => Some(Message::VoterYes),
        message_words::NO => Some(Message::VoterNo),
        _ => None,
    }
}

/// Reads a message downward on v, with the cause of a refusal.
fn voter_down(place: Place, name: &[u8], cause: &[u8]) -> Option<Message>
    ensures of { (m : Message) → is_voter_down m ≡ true → is_message_fit place Conn.Voter m ≡ true → name.now ≡ front 32 (message_text m) → cause.now ≡ behind 32 (message_text m) → result ≡ Some m }
    ensures line { IfSome result (λ m. is_voter_down m ≡ true) }
    ensures fit { IfSome result (λ m. is_message_fit place Conn.Voter m ≡ true) }
{
    match name {
        message_words::CREATED => Some(Message::VoterCreated),
        message_words::REFUSED => Some(Message::VoterRefused(number8_of(cause)?)),
        message_words::ASK => Some(Message::VoterAsk),
        message_words::COMMIT => Some(Message::VoterCommit),
        message_words::ABORT => Some(Message::VoterAbort),
        message_words::INDOUBT => Some(Message::VoterInDoubt),
        _ => None,
    }
}

/// The recovery information of manager r1 at this place and of this enlistment.
fn info_at(place: Place, e: EnlNo) -> Info
    ensures id { result.id ≡ id_at place }
    ensures manager { result.rm.value ≡ 1 }
    ensures enlistment { result.enl ≡ e }
{
    Info {
        id: identifier_at(place),
        rm: RmNo::new(1).unwrap(),
        enl: e,
    }
}

/// Reads a message upward on the connection of an enlistment.
fn enlist_up(place: Place, e: EnlNo, name: &[u8]) -> Option<Message>
    ensures of { (m : Message) → is_enlist_up m ≡ true → is_message_fit place (Conn.Enl e) m ≡ true → name.now ≡ front 32 (message_text m) → result ≡ Some m }
    ensures line { IfSome result (λ m. is_enlist_up m ≡ true) }
    ensures fit { IfSome result (λ m. is_message_fit place (Conn.Enl e) m ≡ true) }
{
    match name {
        message_words::ENLIST => Some(Message::EnlistEnlist(info_at(place, e))),
        message_words::PREPARED => Some(Message::EnlistPrepared),
        message_words::NO => Some(Message::EnlistNo),
        message_words::READONLY => Some(Message::EnlistReadonly),
        message_words::ACK => Some(Message::EnlistAck),
        message_words::ONECOMMITTED => Some(Message::EnlistOneCommitted),
        message_words::ONEABORTED => Some(Message::EnlistOneAborted),
        message_words::ONEINDOUBT => Some(Message::EnlistOneInDoubt),
        _ => None,
    }
}

/// Reads a message downward on the connection of an enlistment, with the cause of a refusal.
fn enlist_down(place: Place, e: EnlNo, name: &[u8], cause: &[u8]) -> Option<Message>
    ensures of { (m : Message) → is_enlist_down m ≡ true → is_message_fit place (Conn.Enl e) m ≡ true → name.now ≡ front 32 (message_text m) → cause.now ≡ behind 32 (message_text m) → result ≡ Some m }
    ensures line { IfSome result (λ m. is_enlist_down m ≡ true) }
    ensures fit { IfSome result (λ m. is_message_fit place (Conn.Enl e) m ≡ true) }
{
    match name {
        message_words::ENLISTED => Some(Message::EnlistEnlisted),
        message_words::REFUSED => Some(Message::EnlistRefused(number8_of(cause)?)),
        message_words::PREPARE => Some(Message::EnlistPrepare),
        message_words::COMMIT => Some(Message::EnlistCommit),
        message_words::ABORT => Some(Message::EnlistAbort),
        message_words::SINGLE => Some(Message::EnlistSingle),
        _ => None,
    }
}

/// Reads a message upward on the connection of a reenlistment.
fn reenlist_up(place: Place, e: EnlNo, name: &[u8]) -> Option<Message>
    ensures of { (m : Message) → is_reenlist_up m ≡ true → is_message_fit place (Conn.Again e) m ≡ true → name.now ≡ front 32 (message_text m) → result ≡ Some m }
    ensures line { IfSome result (λ m. is_reenlist_up m ≡ true) }
    ensures fit { IfSome result (λ m. is_message_fit place (Conn.Again e) m ≡ true) }
{
    match name {
        message_words::REENLIST => Some(Message::ReenlistReenlist(info_at(place, e))),
        message_words::ACK => Some(Message::ReenlistAck),
        _ => None,
    }
}

/// Reads a message downward on the connection of a reenlistment.
fn reenlist_down(name: &[u8]) -> Option<Message>
    ensures of { (m : Message) → is_reenlist_down m ≡ true → name.now ≡ front 32 (message_text m) → result ≡ Some m }
    ensures line { IfSome result (λ m. is_reenlist_down m ≡ true) }
    ensures fit { IfSome result (λ m. (p : Place) (c : Conn) → is_message_fit p c m ≡ true) }
{
    match name {
        message_words::COMMITTED => Some(Message::ReenlistCommitted),
        message_words::ABORTED => Some(Message::ReenlistAborted),
        _ => None,
    }
}

/// Reads a message of this connection in this direction, with what its text leaves out.
pub fn message_of(place: Place, conn: Conn, dir: Dir, text: &[u8]) -> Option<Message>
    ensures of { (m : Message) → has_line conn dir m ≡ true → is_message_fit place conn m ≡ true → text.now ≡ message_text m → result ≡ Some m }
    ensures line { IfSome result (λ m. has_line conn dir m ≡ true) }
    ensures fit { IfSome result (λ m. is_message_fit place conn m ≡ true) }
{
    let (name, cause) = parts(text, b' ');
    match (conn, dir) {
        (Conn::Begin, Dir::Up) => begin_up(name),
        (Conn::Begin, Dir::Down) => begin_down(place, name),
        (Conn::Voter, Dir::Up) => voter_up(place, name),
        (Conn::Voter, Dir::Down) => voter_down(place, name, cause),
        (Conn::Enl(e), Dir::Up) => enlist_up(place, e, name),
        (Conn::Enl(e), Dir::Down) => enlist_down(place, e, name, cause),
        (Conn::Again(e), Dir::Up) => reenlist_up(place, e, name),
        (Conn::Again(_), Dir::Down) => reenlist_down(name),
    }
}
