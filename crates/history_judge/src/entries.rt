//! One function for each test on an entry, as `specs/Entries.antt` has it.
ghost use Rattle.std.specs.Prelude.{◌≡◌};
ghost use Rattle.dtx_values.specs.Class.{is_volatile};
ghost use Rattle.dtx_model.specs.Entries.{is_commit, is_sealed, is_promoted, is_record, is_yes, is_hand, is_any_hand, is_owner, is_any_owner, is_completed, is_vote, is_good_vote, is_decision, is_final};

use dtx_values::{Class, CloneNo, EnlNo, Entry, Outcome, Vote};

/// Whether commit was asked.
pub fn is_commit(x: &Entry) -> bool
    ensures { result ≡ is_commit x.now }
{
    matches!(x, Entry::CommitAsked)
}

/// Whether it was sealed.
pub fn is_sealed(x: &Entry) -> bool
    ensures { result ≡ is_sealed x.now }
{
    matches!(x, Entry::Sealed)
}

/// Whether it was promoted.
pub fn is_promoted(x: &Entry) -> bool
    ensures { result ≡ is_promoted x.now }
{
    matches!(x, Entry::Promoted(_, _))
}

/// Whether the record was logged, or found again.
pub fn is_record(x: &Entry) -> bool
    ensures { result ≡ is_record x.now }
{
    match *x {
        Entry::Logged => true,
        Entry::Restarted(found) => found,
        _ => false,
    }
}

/// Whether the local side said yes.
pub fn is_yes(x: &Entry) -> bool
    ensures { result ≡ is_yes x.now }
{
    matches!(x, Entry::LocalYes)
}

/// Whether the commit was handed to this enlistment.
pub fn is_hand(e: EnlNo, x: &Entry) -> bool
    ensures { result ≡ is_hand e.value x.now }
{
    match *x {
        Entry::Handed(f) => e == f,
        _ => false,
    }
}

/// Whether the commit was handed to some enlistment.
pub fn is_any_hand(x: &Entry) -> bool
    ensures { result ≡ is_any_hand x.now }
{
    matches!(x, Entry::Handed(_))
}

/// Whether this owner answered so.
pub fn is_owner(e: EnlNo, o: Outcome, x: &Entry) -> bool
    ensures { result ≡ is_owner e.value o x.now }
{
    match *x {
        Entry::OwnerAnswered(f, p) => e == f && o == p,
        _ => false,
    }
}

/// Whether this owner answered.
pub fn is_any_owner(e: EnlNo, x: &Entry) -> bool
    ensures { result ≡ is_any_owner e.value x.now }
{
    match *x {
        Entry::OwnerAnswered(f, _) => e == f,
        _ => false,
    }
}

/// Whether enlistments of this class are volatile.
pub fn is_volatile(c: Class) -> bool
    ensures { result ≡ is_volatile c }
{
    match c {
        Class::Zero | Class::One => true,
        _ => false,
    }
}

/// Whether this clone was completed.
pub fn is_completed(c: CloneNo, x: &Entry) -> bool
    ensures { result ≡ is_completed c.value x.now }
{
    match *x {
        Entry::Completed(d) => c == d,
        _ => false,
    }
}

/// Whether this enlistment voted.
pub fn is_vote(e: EnlNo, x: &Entry) -> bool
    ensures { result ≡ is_vote e.value x.now }
{
    match *x {
        Entry::Voted(f, _) => e == f,
        _ => false,
    }
}

/// Whether this enlistment voted yes or done.
pub fn is_good_vote(e: EnlNo, x: &Entry) -> bool
    ensures { result ≡ is_good_vote e.value x.now }
{
    match *x {
        Entry::Voted(f, v) => e == f && !matches!(v, Vote::No),
        _ => false,
    }
}

/// Whether it was decided.
pub fn is_decision(x: &Entry) -> bool
    ensures { result ≡ is_decision x.now }
{
    matches!(x, Entry::Decided(_))
}

/// Whether somebody was told this outcome, or it was decided, or an owner answered it.
pub fn is_final(o: Outcome, x: &Entry) -> bool
    ensures { result ≡ is_final o x.now }
{
    match *x {
        Entry::Told(_, p) | Entry::Decided(p) | Entry::OwnerAnswered(_, p) => o == p,
        _ => false,
    }
}
