//! Between whom an entry goes.
ghost use Rattle.std.specs.Prelude.{◌≡◌};
ghost use Rattle.dtx_model.specs.Words.{kth, latest, or_else, past_of};
ghost use Rattle.trace_picture.specs.Lanes.{client_in};
ghost use Rattle.trace_picture.specs.Parties.{client_lane, ender_in, getter, is_end, is_event, line_is, party_lane, sender, told_client};

use crate::lanes::Lane;
use dtx_values::{ActorNo, Answer, Body, Dir, Entry, Line, Party};

/// The line of this number, from 1.
pub fn line_at(lines: &[Line], n: u32) -> Option<Line>
    ensures line { result ≡ kth lines.now n }
{
    if n == 0 {
        return None;
    }
    match lines.get(n as usize - 1) {
        Some(l) => Some(*l),
        None => None,
    }
}

/// Whether the command asks for the commit, or closes a scope.
fn is_end(body: Body) -> bool
    ensures { result ≡ is_end body }
{
    matches!(body, Body::Commit(_) | Body::Close(_))
}

/// Whether the command says what happens around the client.
fn is_event(body: Body) -> bool
    ensures { result ≡ is_event body }
{
    matches!(
        body,
        Body::Do(_, _, _)
            | Body::Tick(_, _)
            | Body::Lose(_, _, _, _)
            | Body::Gone(_)
            | Body::Reenlist(_)
            | Body::Recovered(_, _)
    )
}

/// Whether the line of this number ends a transaction.
fn is_end_at(lines: &[Line], n: u32) -> bool
    ensures { result ≡ line_is is_end (kth lines.now n) }
{
    match line_at(lines, n) {
        Some(l) => is_end(l.body),
        None => false,
    }
}

/// Whether the line of this number says what happens around the client.
pub(crate) fn is_event_at(lines: &[Line], n: u32) -> bool
    ensures { result ≡ line_is is_event (kth lines.now n) }
{
    match line_at(lines, n) {
        Some(l) => is_event(l.body),
        None => false,
    }
}

/// The client whose commit or close the entry answers with ok, else the older one.
fn newer_ender(lines: &[Line], x: &Entry, older: Option<ActorNo>) -> Option<ActorNo>
    ensures { result ≡ or_else (ender_in lines.now x.now) older }
{
    match *x {
        Entry::Called(n, a, Answer::Fine) => { if is_end_at(lines, n) { Some(a) } else { older } }
        _ => older,
    }
}

/// The newest client whose commit or close was answered with ok.
fn newest_ender(lines: &[Line], h: &[Entry]) -> Option<ActorNo>
    ensures { result ≡ latest (ender_in lines.now) (past_of h.now) }
{
    let mut newest = None;
    for x in h {
        newest = newer_ender(lines, x, newest);
    }
    newest
}

/// The client that called, else the older one.
fn newer_client(x: &Entry, older: Option<ActorNo>) -> Option<ActorNo>
    ensures { result ≡ or_else (client_in x.now) older }
{
    match *x {
        Entry::Called(_, a, _) => Some(a),
        _ => older,
    }
}

/// The newest client that called.
fn newest_client(h: &[Entry]) -> Option<ActorNo>
    ensures { result ≡ latest client_in (past_of h.now) }
{
    let mut newest = None;
    for x in h {
        newest = newer_client(x, newest);
    }
    newest
}

/// The client that is told.
fn told_client(lines: &[Line], h: &[Entry]) -> Option<ActorNo>
    ensures { result ≡ told_client lines.now (past_of h.now) }
{
    match newest_ender(lines, h) {
        Some(a) => Some(a),
        None => newest_client(h),
    }
}

/// The lane of a client.
fn client_lane(a: Option<ActorNo>) -> Lane
    ensures { result ≡ client_lane a }
{
    match a {
        Some(a) => Lane::Client(a),
        None => Lane::Local,
    }
}

/// The lane of who is told.
pub(crate) fn party_lane(lines: &[Line], h: &[Entry], p: Party) -> Lane
    ensures { result ≡ party_lane lines.now (past_of h.now) p }
{
    match p {
        Party::Client => client_lane(told_client(lines, h)),
        Party::Enl(e) => Lane::Enlistment(e),
    }
}

/// The side that sends in a direction.
pub(crate) fn sender(d: Dir) -> Lane
    ensures { result ≡ sender d }
{
    match d {
        Dir::Up => Lane::Local,
        Dir::Down => Lane::Coordinator,
    }
}

/// The side that gets.
pub(crate) fn getter(d: Dir) -> Lane
    ensures { result ≡ getter d }
{
    match d {
        Dir::Up => Lane::Coordinator,
        Dir::Down => Lane::Local,
    }
}
