//! The places, the parties and the ambient transactions of a trace.
ghost use Rattle.std.specs.Prelude.{◌≡◌, ◌≤◌, ◌+◌, ◌++◌, Option, length};
ghost use Rattle.dtx_values.specs.declared.entry.Party.{Party};
ghost use Rattle.dtx_values.specs.declared.number.TxNo.{TxNo};
ghost use Rattle.dtx_values.specs.declared.trace.Place.{Place};
ghost use Rattle.dtx_model.specs.TraceText.{ambient_text, party_text, place_text};
ghost use Rattle.line_tail.specs.declared.tail.TheConstants.{LINE_ROOM};
ghost use Rattle.line_words.specs.declared.widths.TheConstants.{NAME_ROOM};

use crate::name_words;
use dtx_values::{Party, Place, TxNo};
use line_tail::Tail;
use line_words::{put_actor, put_enlistment, put_transaction};

/// Puts the place of an entry.
pub fn put_place(tail: &mut Tail, p: Place)
    requires { NAME_ROOM + length tail.old ≤ LINE_ROOM }
    ensures text { tail.new ≡ place_text p ++ tail.old }
    ensures length { length tail.new ≤ NAME_ROOM + length tail.old }
{
    match p {
        Place::Context(a) => put_actor(tail, a),
        Place::Transaction(t) => put_transaction(tail, t),
        Place::Log => tail.put(name_words::LOG),
    }
}

/// Puts who is told an outcome.
pub fn put_party(tail: &mut Tail, p: Party)
    requires { NAME_ROOM + length tail.old ≤ LINE_ROOM }
    ensures text { tail.new ≡ party_text p ++ tail.old }
    ensures length { length tail.new ≤ NAME_ROOM + length tail.old }
{
    match p {
        Party::Client => tail.put(name_words::CLIENT),
        Party::Enl(e) => put_enlistment(tail, e),
    }
}

/// Puts the ambient transaction of a scope.
pub fn put_ambient(tail: &mut Tail, t: Option<TxNo>)
    requires { NAME_ROOM + length tail.old ≤ LINE_ROOM }
    ensures text { tail.new ≡ ambient_text t ++ tail.old }
    ensures length { length tail.new ≤ NAME_ROOM + length tail.old }
{
    match t {
        Some(t) => put_transaction(tail, t),
        None => tail.put(name_words::NONE),
    }
}
