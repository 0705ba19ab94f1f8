//! Which messages a connection of each type carries in each direction, and which opens it.
ghost use Rattle.std.specs.Prelude.{◌≡◌};
ghost use Rattle.dtx_values.specs.Lines.{is_enlist_up, is_enlist_down, is_reenlist_up, is_reenlist_down, has_line, is_opening};

use crate::message::{Conn, Dir, Message};

/// Whether the message has a line on b in this direction.
fn is_on_begin(d: Dir, m: Message) -> bool
    ensures { result ≡ has_line Conn.Begin d m }
{
    match d {
        Dir::Up => matches!(
            m,
            Message::BeginBegin
                | Message::BeginCommit
                | Message::BeginAbort
                | Message::BeginCommitOne
        ),
        Dir::Down => matches!(
            m,
            Message::BeginBegun(_)
                | Message::BeginCommitted
                | Message::BeginAborted
                | Message::BeginInDoubt
        ),
    }
}

/// Whether the message has a line on v in this direction.
fn is_on_voter(d: Dir, m: Message) -> bool
    ensures { result ≡ has_line Conn.Voter d m }
{
    match d {
        Dir::Up => matches!(
            m,
            Message::VoterVoter(_) | Message::VoterYes | Message::VoterNo
        ),
        Dir::Down => matches!(
            m,
            Message::VoterCreated
                | Message::VoterRefused(_)
                | Message::VoterAsk
                | Message::VoterCommit
                | Message::VoterAbort
                | Message::VoterInDoubt
        ),
    }
}

/// Whether the message has a line on the connection of an enlistment in this direction.
fn is_on_enlist(d: Dir, m: Message) -> bool
    ensures up { d ≡ Dir.Up → result ≡ is_enlist_up m }
    ensures down { d ≡ Dir.Down → result ≡ is_enlist_down m }
{
    match d {
        Dir::Up => matches!(
            m,
            Message::EnlistEnlist(_)
                | Message::EnlistPrepared
                | Message::EnlistNo
                | Message::EnlistReadonly
                | Message::EnlistAck
                | Message::EnlistOneCommitted
                | Message::EnlistOneAborted
                | Message::EnlistOneInDoubt
        ),
        Dir::Down => matches!(
            m,
            Message::EnlistEnlisted
                | Message::EnlistRefused(_)
                | Message::EnlistPrepare
                | Message::EnlistCommit
                | Message::EnlistAbort
                | Message::EnlistSingle
        ),
    }
}

/// Whether the message has a line on the connection of a reenlistment in this direction.
fn is_on_reenlist(d: Dir, m: Message) -> bool
    ensures up { d ≡ Dir.Up → result ≡ is_reenlist_up m }
    ensures down { d ≡ Dir.Down → result ≡ is_reenlist_down m }
{
    match d {
        Dir::Up => matches!(m, Message::ReenlistReenlist(_) | Message::ReenlistAck),
        Dir::Down => matches!(m, Message::ReenlistCommitted | Message::ReenlistAborted),
    }
}

/// Whether the message has a line on this connection in this direction.
pub fn has_line(c: Conn, d: Dir, m: Message) -> bool
    ensures { result ≡ has_line c d m }
{
    match c {
        Conn::Begin => is_on_begin(d, m),
        Conn::Voter => is_on_voter(d, m),
        Conn::Enl(_) => is_on_enlist(d, m),
        Conn::Again(_) => is_on_reenlist(d, m),
    }
}

/// Whether the message opens this connection: BEGIN, VOTER, ENLIST or REENLIST, each on its own.
pub fn is_opening(c: Conn, m: Message) -> bool
    ensures { result ≡ is_opening c m }
{
    matches!(
        (c, m),
        (Conn::Begin, Message::BeginBegin)
            | (Conn::Voter, Message::VoterVoter(_))
            | (Conn::Enl(_), Message::EnlistEnlist(_))
            | (Conn::Again(_), Message::ReenlistReenlist(_))
    )
}
