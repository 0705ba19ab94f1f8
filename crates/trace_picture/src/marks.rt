//! What each entry of a transaction is drawn as.
ghost use Rattle.std.specs.Prelude.{◌≡◌, ◌==◌, IfOk, None, length};
ghost use Rattle.dtx_model.specs.Words.{has, past_of};
ghost use Rattle.trace_picture.specs.Marks.{across, call_mark, from_enlistment, got_mark, mark, plain_mark, reply_tone, request_tone, row_or, sent_mark, spot, to_enlistment, vote_tone};

use crate::crossings::origin_in;
use crate::lanes::{Lane, Spot};
use crate::parties::{getter, is_event_at, party_lane, sender};
use dtx_values::{ActorNo, Answer, Conn, Dir, EnlNo, Entry, Line, Message, Outcome, Request, Vote};
use std::alloc::{AllocError, Global};

/// The words beside a mark.
#[derive(Clone, Copy)]
pub enum Label {
    /// The command of the line of this number, and its answer.
    Call(u32, Answer),
    /// A message on its connection.
    Message(Conn, Message),
    /// The entry's own words.
    Entry(Entry),
}

/// What an entry is drawn as.
#[derive(Clone, Copy)]
pub enum Mark {
    /// An arrow from the first place to the second, in the colour of the outcome.
    Arrow(Spot, Spot, Option<Outcome>, Label),
    /// A message that never comes, from the place where it was sent.
    Lost(Spot, Label),
    /// What happens around a client.
    Event(Spot, Label),
    /// A connection is cut, in this row.
    Cut(usize, Label),
    /// A side sees the end of a connection.
    End(Spot, Label),
    /// The coordinator is stopped or started.
    Still(usize, Label),
    /// The local side decides.
    Decision(usize, Outcome, Label),
    /// Something else at the local side.
    Note(usize, Label),
}

/// A place in the picture.
fn spot(lane: Lane, row: usize) -> Spot
    ensures { result ≡ spot lane row }
{
    Spot { lane, row }
}

/// The outcome that a vote speaks for.
fn vote_tone(v: Vote) -> Option<Outcome>
    ensures { result ≡ vote_tone v }
{
    match v {
        Vote::Yes | Vote::Done => Some(Outcome::Committed),
        Vote::No => Some(Outcome::Aborted),
    }
}

/// The outcome that the reply to a promotion speaks for.
fn reply_tone(ok: bool) -> Option<Outcome>
    ensures { result ≡ reply_tone ok }
{
    if ok {
        Some(Outcome::Committed)
    } else {
        Some(Outcome::Aborted)
    }
}

/// The outcome that is requested.
fn request_tone(r: Request) -> Option<Outcome>
    ensures { result ≡ request_tone r }
{
    match r {
        Request::Commit => Some(Outcome::Committed),
        Request::Abort => Some(Outcome::Aborted),
    }
}

/// An arrow in a row, from lane to lane.
fn across(row: usize, from: Lane, to: Lane, tone: Option<Outcome>, x: &Entry) -> Option<Mark>
    ensures { result ≡ across row from to tone x.now }
{
    Some(Mark::Arrow(spot(from, row), spot(to, row), tone, Label::Entry(*x)))
}

/// An arrow to an enlistment.
fn to_enlistment(row: usize, e: EnlNo, x: &Entry) -> Option<Mark>
    ensures { result ≡ to_enlistment row e x.now }
{
    across(row, Lane::Local, Lane::Enlistment(e), None, x)
}

/// An arrow from an enlistment.
fn from_enlistment(row: usize, e: EnlNo, tone: Option<Outcome>, x: &Entry) -> Option<Mark>
    ensures { result ≡ from_enlistment row e tone x.now }
{
    across(row, Lane::Enlistment(e), Lane::Local, tone, x)
}

/// What a call is drawn as.
fn call_mark(is_event: bool, row: usize, n: u32, a: ActorNo, answer: Answer) -> Mark
    ensures { result ≡ call_mark is_event row n a answer }
{
    let client = spot(Lane::Client(a), row);
    let label = Label::Call(n, answer);
    if is_event {
        Mark::Event(client, label)
    } else {
        Mark::Arrow(client, spot(Lane::Local, row), None, label)
    }
}

/// This row, or the other where there is none.
fn row_or(row: usize, o: Option<usize>) -> usize
    ensures { result ≡ row_or row o }
{
    match o {
        Some(i) => i,
        None => row,
    }
}

/// What a message that comes is drawn as.
fn got_mark(row: usize, c: Conn, d: Dir, m: Message, sent: Option<usize>) -> Mark
    ensures { result ≡ got_mark row c d m sent }
{
    Mark::Arrow(
        spot(sender(d), row_or(row, sent)),
        spot(getter(d), row),
        None,
        Label::Message(c, m),
    )
}

/// Whether what was sent in this row came.
fn has_come(came: &[usize], row: usize) -> bool
    ensures { result ≡ has (λ i. row == i) came.now }
{
    came.iter().any(|i| row == *i)
}

/// The same, of those newest first.
#[tactic(auto, using(dtx_model::proofs::Reading::reading))]
fn comes(came: &[usize], row: usize) -> bool
    ensures { result ≡ has (λ i. row == i) (past_of came.now) }
{
    has_come(came, row)
}

/// What a message that is sent is drawn as.
fn sent_mark(came: bool, row: usize, c: Conn, d: Dir, m: Message) -> Option<Mark>
    ensures { result ≡ sent_mark came row c d m }
{
    if came {
        None
    } else {
        Some(Mark::Lost(spot(sender(d), row), Label::Message(c, m)))
    }
}

/// The row of the entry that comes next.
#[tactic(auto, using(crate::proofs::Places::places))]
fn next_row(h: &[Entry]) -> usize
    ensures { result ≡ length (past_of h.now) }
{
    h.len()
}

/// What a message that is sent after these rows is drawn as.
fn sent_after(came: &[usize], h: &[Entry], c: Conn, d: Dir, m: Message) -> Option<Mark>
    ensures { result ≡ sent_mark (has (λ i. length (past_of h.now) == i) (past_of came.now)) (length (past_of h.now)) c d m }
{
    let row = next_row(h);
    sent_mark(comes(came, row), row, c, d, m)
}

/// What an entry is drawn as that is neither a call nor a message.
fn plain_mark(lines: &[Line], h: &[Entry], x: &Entry) -> Option<Mark>
    ensures { result ≡ plain_mark lines.now (past_of h.now) x.now }
{
    let row = next_row(h);
    match *x {
        Entry::Init(e) | Entry::Asked(e, _) | Entry::Handed(e) => to_enlistment(row, e, x),
        Entry::Told(p, o) => across(row, Lane::Local, party_lane(lines, h, p), Some(o), x),
        Entry::Voted(e, v) => from_enlistment(row, e, vote_tone(v), x),
        Entry::OwnerAnswered(e, o) => from_enlistment(row, e, Some(o), x),
        Entry::PromoteReply(e, ok) => from_enlistment(row, e, reply_tone(ok), x),
        Entry::Requested(e, r) => from_enlistment(row, e, request_tone(r), x),
        Entry::Acked(e) => from_enlistment(row, e, None, x),
        Entry::Logged | Entry::Freed => across(row, Lane::Coordinator, Lane::Log, None, x),
        Entry::Cut(_, _, _) => Some(Mark::Cut(row, Label::Entry(*x))),
        Entry::Down(_, d) => Some(Mark::End(spot(getter(d), row), Label::Entry(*x))),
        Entry::Stopped | Entry::Restarted(_) => Some(Mark::Still(row, Label::Entry(*x))),
        Entry::Decided(o) => Some(Mark::Decision(row, o, Label::Entry(*x))),
        _ => Some(Mark::Note(row, Label::Entry(*x))),
    }
}

/// What the entry is drawn as that comes after these rows, where these are the rows of the messages that came: nothing, where it is a message that comes later.
///
/// # Errors
///
/// [`AllocError`] where memory ran out.
pub fn mark_of(
    alloc: Global,
    lines: &[Line],
    came: &[usize],
    h: &[Entry],
    x: &Entry,
) -> Result<Option<Mark>, AllocError>
    ensures mark { IfOk result (λ m. m ≡ mark lines.now (past_of came.now) (past_of h.now) x.now) }
{
    let row = next_row(h);
    match *x {
        Entry::Called(n, a, answer) => Ok(Some(call_mark(
            is_event_at(lines, n),
            row,
            n,
            a,
            answer,
        ))),
        Entry::Sent(c, d, m) => Ok(sent_after(came, h, c, d, m)),
        Entry::Got(c, d, m) => {
            let sent = origin_in(alloc, h, x)?;
            Ok(Some(got_mark(row, c, d, m, sent)))
        }
        _ => Ok(plain_mark(lines, h, x)),
    }
}
