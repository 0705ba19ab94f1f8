//! What an object hears of a run, by the notes that the entries of its trace show; and the table that the run is to leave, by the puts before it.
#![tactic(auto)]

mod of;
mod put;

ghost use Rattle.std.specs.Prelude.{◌≡◌};
ghost use Rattle.heard_notes.specs.Heard.{note_told};

use dtx_values::{EnlNo, Entry, Note, Outcome, Party};
pub use of::Of;
pub use put::Put;

/// The note without a reply that an entry tells its enlistment, which is a volatile or isn't. A durable's Commit wants a reply, an acknowledgement, and so isn't one.
pub fn note_told(is_volatile: bool, x: &Entry) -> Option<(EnlNo, Note)>
    ensures { result ≡ note_told is_volatile x.now }
{
    match x {
        Entry::Init(e) => Some((*e, Note::Init)),
        Entry::Told(Party::Enl(e), Outcome::Committed) if is_volatile => Some((*e, Note::Commit)),
        Entry::Told(Party::Enl(e), Outcome::Aborted) => Some((*e, Note::Rollback)),
        Entry::Told(Party::Enl(e), Outcome::InDoubt) => Some((*e, Note::InDoubt)),
        _ => None,
    }
}
