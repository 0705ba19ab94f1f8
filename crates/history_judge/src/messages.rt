//! Tests on what came over a connection, as `specs/Entries.antt` and `specs/Outcome.antt` have them.
ghost use Rattle.std.specs.Prelude.{◌≡◌};
ghost use Rattle.dtx_model.specs.Entries.{is_commit_got, is_yes_got, is_vote_got, is_enlist_got, is_single_sent, is_any_single_sent, is_one_got};
ghost use Rattle.dtx_model.specs.Outcome.{is_begin_end, is_voter_end, is_outcome_got};

use dtx_values::{Conn, Dir, EnlNo, Entry, Message, has_line};

/// Whether the coordinator got an ENLIST.
pub(crate) fn is_enlist_got(x: &Entry) -> bool
    ensures { result ≡ is_enlist_got x.now }
{
    matches!(
        x,
        Entry::Got(Conn::Enl(_), Dir::Up, Message::EnlistEnlist(_))
    )
}

/// Whether SINGLE was sent to this enlistment.
pub(crate) fn is_single_sent(e: EnlNo, x: &Entry) -> bool
    ensures { result ≡ is_single_sent e.value x.now }
{
    match *x {
        Entry::Sent(Conn::Enl(f), Dir::Down, Message::EnlistSingle) => e == f,
        _ => false,
    }
}

/// Whether SINGLE was sent to some enlistment.
pub(crate) fn is_any_single_sent(x: &Entry) -> bool
    ensures { result ≡ is_any_single_sent x.now }
{
    matches!(
        x,
        Entry::Sent(Conn::Enl(_), Dir::Down, Message::EnlistSingle)
    )
}

/// Whether the coordinator got this enlistment's answer to SINGLE.
pub(crate) fn is_one_got(e: EnlNo, x: &Entry) -> bool
    ensures { result ≡ is_one_got e.value x.now }
{
    match *x {
        Entry::Got(Conn::Enl(f), Dir::Up, Message::EnlistOneCommitted) => e == f,
        Entry::Got(Conn::Enl(f), Dir::Up, Message::EnlistOneAborted) => e == f,
        Entry::Got(Conn::Enl(f), Dir::Up, Message::EnlistOneInDoubt) => e == f,
        _ => false,
    }
}

/// Whether the coordinator got COMMIT, of either name.
pub fn is_commit_got(x: &Entry) -> bool
    ensures { result ≡ is_commit_got x.now }
{
    matches!(
        x,
        Entry::Got(Conn::Begin, Dir::Up, Message::BeginCommit)
            | Entry::Got(Conn::Begin, Dir::Up, Message::BeginCommitOne)
    )
}

/// Whether the coordinator got the voter's YES.
pub fn is_yes_got(x: &Entry) -> bool
    ensures { result ≡ is_yes_got x.now }
{
    matches!(x, Entry::Got(Conn::Voter, Dir::Up, Message::VoterYes))
}

/// Whether the coordinator got this enlistment's PREPARED, NO or READONLY.
pub fn is_vote_got(e: EnlNo, x: &Entry) -> bool
    ensures { result ≡ is_vote_got e.value x.now }
{
    match *x {
        Entry::Got(Conn::Enl(f), Dir::Up, Message::EnlistPrepared) => e == f,
        Entry::Got(Conn::Enl(f), Dir::Up, Message::EnlistNo) => e == f,
        Entry::Got(Conn::Enl(f), Dir::Up, Message::EnlistReadonly) => e == f,
        _ => false,
    }
}

/// Whether the local side saw the end of b.
pub fn is_begin_end(x: &Entry) -> bool
    ensures { result ≡ is_begin_end x.now }
{
    match *x {
        Entry::Down(Conn::Begin, Dir::Down) => true,
        Entry::Got(Conn::Begin, Dir::Down, m) => !has_line(Conn::Begin, Dir::Down, m),
        _ => false,
    }
}

/// Whether the local side saw the end of v.
pub fn is_voter_end(x: &Entry) -> bool
    ensures { result ≡ is_voter_end x.now }
{
    match *x {
        Entry::Down(Conn::Voter, Dir::Down) => true,
        Entry::Got(Conn::Voter, Dir::Down, m) => !has_line(Conn::Voter, Dir::Down, m),
        _ => false,
    }
}

/// Whether the local side got the outcome on b or on v.
pub fn is_outcome_got(x: &Entry) -> bool
    ensures { result ≡ is_outcome_got x.now }
{
    match *x {
        Entry::Got(Conn::Begin, Dir::Down, Message::BeginCommitted) => true,
        Entry::Got(Conn::Begin, Dir::Down, Message::BeginAborted) => true,
        Entry::Got(Conn::Voter, Dir::Down, Message::VoterCommit) => true,
        Entry::Got(Conn::Voter, Dir::Down, Message::VoterAbort) => true,
        _ => false,
    }
}
