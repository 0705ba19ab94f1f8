//! The words that cross to C.
ghost use Rattle.std.specs.Prelude.{◌≡◌, Some};
ghost use Rattle.host_disk.specs.Order.{order_of};
ghost use Rattle.wirtozhak_c.specs.Codes.{IsClone, IsEnlistment, IsManager, clone_kind, flag_of, option_of, outcome_word, phases_of, reply_of, timeout_of};
ghost use Rattle.wirtozhak_c.specs.Words.{asked_words, event_words, work_of};

use dtx_values::{
    CloneKind, CloneNo, EnlNo, EnlistOption, Note, Outcome, Reply, RmNo, Timeout, Vote,
};
use host_disk::Request;
use transactions::{Event, Phases};

/// What comes next: what it is, of which enlistment (0 is the client), and the outcome where one is told.
#[repr(C)]
#[derive(Clone, Copy)]
pub struct EventWords {
    pub kind: u32,
    pub enlistment: u32,
    pub outcome: u32,
}

/// What the host is to do in the log's file: 1 to write bytes, 2 to write zeros, 3 to sync.
#[repr(C)]
#[derive(Clone, Copy)]
pub struct Work {
    pub kind: u32,
    pub at: u64,
    pub length: u64,
}

/// The identifier of a transaction, the first byte most significant.
#[repr(C)]
#[derive(Clone, Copy)]
pub struct Sixteen {
    pub bytes: [u8; 16],
}

/// The word of an outcome.
pub fn outcome_word(o: Option<Outcome>) -> u32
    ensures { result ≡ outcome_word o }
{
    match o {
        None => 0,
        Some(Outcome::Committed) => 1,
        Some(Outcome::Aborted) => 2,
        Some(Outcome::InDoubt) => 3,
    }
}

/// What a note asks, as a word, or 6 where it tells an outcome; and the word of that.
fn asked_words(n: Note) -> (u32, u32)
    ensures { result ≡ asked_words n }
{
    match n {
        Note::Init => (1, 0),
        Note::Prepare => (2, 0),
        Note::Promote => (3, 0),
        Note::Hand => (4, 0),
        Note::Single => (5, 0),
        Note::Commit => (6, 1),
        Note::Rollback => (6, 2),
        Note::InDoubt => (6, 3),
    }
}

/// The words of an event.
pub fn event_words(x: Event) -> EventWords
    ensures { result ≡ event_words x }
{
    match x {
        Event::Asked(e, n) => {
            let (kind, outcome) = asked_words(n);
            EventWords {
                kind,
                enlistment: e.number().get(),
                outcome,
            }
        }
        Event::Told(e, o) => EventWords {
            kind: 6,
            enlistment: e.number().get(),
            outcome: outcome_word(Some(o)),
        },
        Event::Done(o) => EventWords {
            kind: 6,
            enlistment: 0,
            outcome: outcome_word(Some(o)),
        },
    }
}

/// The words of what the host is to do.
pub fn work_of(r: &Request) -> Work
    ensures { result ≡ work_of (order_of r.now) }
{
    match r {
        Request::Write(at, bytes) => Work {
            kind: 1,
            at: *at,
            length: bytes.len() as u64,
        },
        Request::Zeros(at, n) => Work {
            kind: 2,
            at: *at,
            length: *n,
        },
        Request::Sync => Work {
            kind: 3,
            at: 0,
            length: 0,
        },
    }
}

/// The reply of this word.
#[tactic(auto, unfolding(crate::specs::Codes::reply_of))]
pub fn reply_of(word: u32) -> Option<Reply>
    ensures { result ≡ reply_of word }
{
    match word {
        1 => Some(Reply::Vote(Vote::Yes)),
        2 => Some(Reply::Vote(Vote::No)),
        3 => Some(Reply::Vote(Vote::Done)),
        4 => Some(Reply::Ack),
        5 => Some(Reply::Owner(Outcome::Committed)),
        6 => Some(Reply::Owner(Outcome::Aborted)),
        7 => Some(Reply::Owner(Outcome::InDoubt)),
        8 => Some(Reply::Promote(true)),
        9 => Some(Reply::Promote(false)),
        _ => None,
    }
}

/// What a flag says: 0 no, 1 yes.
fn flag_of(word: u32) -> Option<bool>
    ensures { result ≡ flag_of word }
{
    match word {
        0 => Some(false),
        1 => Some(true),
        _ => None,
    }
}

/// Whether a volatile resource may enlist others while it prepares.
pub fn option_of(word: u32) -> Option<EnlistOption>
    ensures { result ≡ option_of word }
{
    if flag_of(word)? {
        Some(EnlistOption::DuringPrepare)
    } else {
        Some(EnlistOption::Plain)
    }
}

/// Whether a durable resource may commit in a single phase.
pub fn phases_of(word: u32) -> Option<Phases>
    ensures { result ≡ phases_of word }
{
    if flag_of(word)? {
        Some(Phases::Single)
    } else {
        Some(Phases::Two)
    }
}

/// Whether a clone that isn't complete vetoes the commit, for which the commit waits else.
pub fn clone_kind(word: u32) -> Option<CloneKind>
    ensures { result ≡ clone_kind word }
{
    if flag_of(word)? {
        Some(CloneKind::Rollback)
    } else {
        Some(CloneKind::Block)
    }
}

/// A timeout of so many milliseconds; ten minutes where they are 0.
pub fn timeout_of(milliseconds: u32) -> Timeout
    ensures { result ≡ timeout_of milliseconds }
{
    if milliseconds == 0 {
        Timeout::Milliseconds(600_000)
    } else {
        Timeout::Milliseconds(milliseconds)
    }
}

/// The enlistment of this number.
pub fn enlistment_of(n: u32) -> Option<EnlNo>
    ensures { IsEnlistment n result }
{
    EnlNo::new(n)
}

/// The clone of this number.
pub fn clone_of(n: u32) -> Option<CloneNo>
    ensures { IsClone n result }
{
    CloneNo::new(n)
}

/// The resource manager of this number.
pub fn manager_of(n: u32) -> Option<RmNo>
    ensures { IsManager n result }
{
    RmNo::new(n)
}
