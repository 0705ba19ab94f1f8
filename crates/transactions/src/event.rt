//! What comes next in a transaction.
ghost use Rattle.std.specs.Prelude.{◌≡◌};
ghost use Rattle.transactions.specs.Events.{event_of, note_in, note_told};

use dtx_values::{Ask, Entry, Note, Outcome, Party, TxId};
use resource_managers::Enlistment;

/// What comes next in a transaction, by the entry of its history that says so.
#[derive(Clone, Copy, PartialEq, Eq, Debug)]
pub enum Event {
    /// The enlistment is asked, and is to reply; but to `Init` no reply is due.
    Asked(Enlistment, Note),
    /// The enlistment is told the outcome. A durable one that is told committed is to acknowledge it.
    Told(Enlistment, Outcome),
    /// The client is told the outcome.
    Done(Outcome),
}

/// What comes next in a transaction, for a program that does the work of the log's disk itself.
#[derive(Clone, Copy, PartialEq, Eq, Debug)]
pub enum Next {
    /// This comes next.
    Found(Event),
    /// Nothing, unless a call, a reply or the time lets the transaction go on.
    Nothing,
    /// First what the log asked its disk for is to be done.
    Disk,
}

/// What a transaction did when it went on once.
#[derive(Clone, Copy, PartialEq, Eq, Debug)]
pub(crate) enum Advance {
    /// An entry of the history was heard that says this.
    Heard(Event),
    /// A step was done.
    Did,
    /// No step is pending but replies that were asked for.
    Idle,
}

/// The note that tells an enlistment this outcome.
fn note_told(o: Outcome) -> Note
    ensures { result ≡ note_told o }
{
    match o {
        Outcome::Committed => Note::Commit,
        Outcome::Aborted => Note::Rollback,
        Outcome::InDoubt => Note::InDoubt,
    }
}

impl Event {
    /// Whom it concerns, and what that one hears. The client hears no note.
    pub fn note(self) -> Option<(Enlistment, Note)>
        ensures { result ≡ note_in self }
    {
        match self {
            Event::Asked(e, n) => Some((e, n)),
            Event::Told(e, o) => Some((e, note_told(o))),
            Event::Done(_) => None,
        }
    }
}

/// What an entry of the history of this transaction says to an enlistment or the client.
pub(crate) fn event_of(t: TxId, x: Entry) -> Option<Event>
    ensures { result ≡ event_of t x }
{
    let (number, note) = match x {
        Entry::Init(e) => (e, Note::Init),
        Entry::Asked(e, Ask::Prepare) => (e, Note::Prepare),
        Entry::Asked(e, Ask::Promote) => (e, Note::Promote),
        Entry::Asked(e, Ask::Single) => (e, Note::Single),
        Entry::Handed(e) => (e, Note::Hand),
        Entry::Told(Party::Enl(e), o) => {
            let to = Enlistment {
                transaction: t,
                number: e,
            };
            return Some(Event::Told(to, o));
        }
        Entry::Told(Party::Client, o) => return Some(Event::Done(o)),
        _ => return None,
    };
    let to = Enlistment {
        transaction: t,
        number,
    };
    Some(Event::Asked(to, note))
}
