//! Entries in few bytes.
ghost use Rattle.std.specs.Prelude.{◌≡◌, ◌≤◌, ◌<◌, ◌+◌, ◌^◌, List, IfOk, IfSome, length, slice_index_or, true, vec_capacity, vec_len};
ghost use Rattle.dtx_values.specs.declared.entry.Entry.{Entry};
ghost use Rattle.entry_lists.specs.declared.brief.Brief.{Brief};
ghost use Rattle.entry_lists.specs.Held.{entry_in, is_whole, is_within};

use crate::short::{ShortActorNo, ShortEnlNo};
use dtx_values::{Answer, Ask, Class, Entry, Outcome, Party, Vote};
use std::alloc::AllocError;

/// An entry in eight bytes. One that has more of them stands whole elsewhere, at a place.
#[derive(Clone, Copy)]
pub enum Brief {
    /// A call that was answered `ok`, with its actor and the line of the script.
    Called(ShortActorNo, u32),
    Began(u32),
    Enlisted(ShortEnlNo, Class),
    CommitAsked,
    RollbackAsked,
    /// A clock of up to 4,294,967,295 milliseconds.
    Clock(u32),
    Asked(ShortEnlNo, Ask),
    Voted(ShortEnlNo, Vote),
    Sealed,
    Decided(Outcome),
    Told(ShortEnlNo, Outcome),
    ToldClient(Outcome),
    /// The place of an entry that stands whole.
    Whole(u32),
}

const _: () = prove!(std::mem::size_of::<Brief>() == 8);

/// Whether it is the place of an entry that stands whole.
fn is_whole(b: &Brief) -> bool
    ensures { result ≡ is_whole b.now }
{
    matches!(b, Brief::Whole(_))
}

/// The entry in few bytes, where it has no more.
#[inline(always)]
fn brief_of(e: &Entry) -> Option<Brief>
    ensures { IfSome result (λ b. (ws : List Entry) → (entry_in ws b ≡ e.now) × (is_within (length ws) b ≡ true)) }
{
    match *e {
        Entry::Called(n, actor, Answer::Fine) => {
            Some(Brief::Called(ShortActorNo::of(actor), n))
        },
        Entry::Began(n) => Some(Brief::Began(n)),
        Entry::Enlisted(f, class) => Some(Brief::Enlisted(ShortEnlNo::of(f), class)),
        Entry::CommitAsked => Some(Brief::CommitAsked),
        Entry::RollbackAsked => Some(Brief::RollbackAsked),
        Entry::Clock(n) if n <= 4_294_967_295 => Some(Brief::Clock(n as u32)),
        Entry::Asked(f, ask) => Some(Brief::Asked(ShortEnlNo::of(f), ask)),
        Entry::Voted(f, vote) => Some(Brief::Voted(ShortEnlNo::of(f), vote)),
        Entry::Sealed => Some(Brief::Sealed),
        Entry::Decided(outcome) => Some(Brief::Decided(outcome)),
        Entry::Told(Party::Enl(f), outcome) => { Some(Brief::Told(ShortEnlNo::of(f), outcome)) },
        Entry::Told(Party::Client, outcome) => Some(Brief::ToldClient(outcome)),
        _ => None,
    }
}

/// The entry in few bytes, or the place where it stands whole from now on.
#[inline(always)]
pub(crate) fn keep(wholes: &mut Vec<Entry>, e: &Entry) -> Brief
    requires room { vec_len wholes.old < vec_capacity wholes.old }
    requires few { vec_len wholes.old < 2 ^ 32 }
    ensures entry { entry_in wholes.new.items result ≡ e.now }
    ensures within { is_within (length wholes.new.items) result ≡ true }
    ensures others { (b : Brief) → is_within (length wholes.old.items) b ≡ true → (entry_in wholes.new.items b ≡ entry_in wholes.old.items b) × (is_within (length wholes.new.items) b ≡ true) }
    ensures grows { vec_len wholes.new ≤ vec_len wholes.old + 1 }
    ensures capacity { vec_capacity wholes.new ≡ vec_capacity wholes.old }
{
    match brief_of(e) {
        Some(b) => b,
        None => {
            let place = wholes.len() as u32;
            wholes.push_reserved(*e);
            Brief::Whole(place)
        }
    }
}

/// The entry that stands in few bytes, or whole among those of another list: in few bytes, or the place where it stands whole from now on.
#[inline(always)]
pub(crate) fn keep_from(wholes: &mut Vec<Entry>, list: &[Entry], b: Brief) -> Brief
    requires room { vec_len wholes.old < vec_capacity wholes.old }
    requires few { vec_len wholes.old < 2 ^ 32 }
    ensures entry { entry_in wholes.new.items result ≡ entry_in list.now b }
    ensures within { is_within (length wholes.new.items) result ≡ true }
    ensures others { (x : Brief) → is_within (length wholes.old.items) x ≡ true → (entry_in wholes.new.items x ≡ entry_in wholes.old.items x) × (is_within (length wholes.new.items) x ≡ true) }
    ensures grows { vec_len wholes.new ≤ vec_len wholes.old + 1 }
    ensures capacity { vec_capacity wholes.new ≡ vec_capacity wholes.old }
{
    if is_whole(&b) {
        keep(wholes, &entry_in(list, b))
    } else {
        b
    }
}

/// Makes room for n more entries, in few bytes and whole, where there was room for `room`. It gives for how many there is room then.
pub(crate) fn make_room<T>(
    briefs: &mut Vec<T>,
    wholes: &mut Vec<Entry>,
    room: usize,
    n: usize,
) -> Result<usize, AllocError>
    requires briefs { vec_len briefs.old + room ≤ vec_capacity briefs.old }
    requires wholes { vec_len wholes.old + room ≤ vec_capacity wholes.old }
    requires few { vec_len wholes.old + room ≤ 2 ^ 32 }
    ensures same { (briefs.new.items ≡ briefs.old.items) × (wholes.new.items ≡ wholes.old.items) }
    ensures grows { (vec_capacity briefs.old ≤ vec_capacity briefs.new) × (vec_capacity wholes.old ≤ vec_capacity wholes.new) }
    ensures room { IfOk result (λ m. (n ≤ m) × (room ≤ m)) }
    ensures fits { IfOk result (λ m. (vec_len briefs.new + m ≤ vec_capacity briefs.new) × (vec_len wholes.new + m ≤ vec_capacity wholes.new) × (vec_len wholes.new + m ≤ 2 ^ 32)) }
{
    if n <= room {
        return Ok(room);
    }
    briefs.reserve(n)?;
    wholes.reserve(n)?;
    if n > 4_294_967_296 || wholes.len() > 4_294_967_296 - n {
        return Err(AllocError);
    }
    Ok(n)
}

/// The entry that stands in few bytes, or whole among these.
#[inline(always)]
pub(crate) fn entry_in(wholes: &[Entry], b: Brief) -> Entry
    ensures { result ≡ entry_in wholes.now b }
{
    match b {
        Brief::Called(actor, n) => Entry::Called(n, actor.number(), Answer::Fine),
        Brief::Began(n) => Entry::Began(n),
        Brief::Enlisted(e, class) => Entry::Enlisted(e.number(), class),
        Brief::CommitAsked => Entry::CommitAsked,
        Brief::RollbackAsked => Entry::RollbackAsked,
        Brief::Clock(n) => Entry::Clock(u64::from(n)),
        Brief::Asked(e, ask) => Entry::Asked(e.number(), ask),
        Brief::Voted(e, vote) => Entry::Voted(e.number(), vote),
        Brief::Sealed => Entry::Sealed,
        Brief::Decided(outcome) => Entry::Decided(outcome),
        Brief::Told(e, outcome) => Entry::Told(Party::Enl(e.number()), outcome),
        Brief::ToldClient(outcome) => Entry::Told(Party::Client, outcome),
        Brief::Whole(place) => whole(wholes, place as usize),
    }
}

/// The entry that stands whole at a place.
fn whole(wholes: &[Entry], place: usize) -> Entry
    ensures { result ≡ slice_index_or wholes.now place Entry.Late }
{
    if place < wholes.len() {
        wholes[place]
    } else {
        Entry::Late
    }
}
