//! What a history says of an enlistment's vote.
ghost use Rattle.std.specs.Prelude.{◌≡◌};
ghost use Rattle.dtx_values.specs.Vote.{still_hears};
ghost use Rattle.dtx_values.specs.declared.words.Vote.{Vote};
ghost use Rattle.reenlist_recovery.specs.Enlisted.{ballot_after, made_if, no_ballot, still_hears_by, voted_if};

use dtx_values::{EnlNo, Entry, Vote};

/// What a history says of an enlistment's vote.
#[derive(Clone, Copy, PartialEq, Eq, Debug)]
pub(crate) struct Ballot {
    /// Whether it was made and didn't vote since.
    pub unvoted: bool,
    /// Whether it voted no or done.
    pub out: bool,
}

/// Whether who votes so still hears the outcome.
fn still_hears_by(v: Vote) -> bool
    ensures { result ≡ still_hears_by v }
{
    v == Vote::Yes
}

impl Ballot {
    /// No enlistment.
    pub fn none() -> Ballot
        ensures { result ≡ no_ballot }
    {
        Ballot {
            unvoted: false,
            out: false,
        }
    }

    /// What becomes of it by an entry.
    pub fn follow(self, e: EnlNo, x: &Entry) -> Ballot
        ensures { result ≡ ballot_after e.value x.now self }
    {
        match *x {
            Entry::Enlisted(f, _) => self.made_if(e == f),
            Entry::Voted(f, v) => self.voted_if(e == f, v),
            _ => self,
        }
    }

    /// What becomes of it where it is made.
    fn made_if(self, is_its: bool) -> Ballot
        ensures { result ≡ made_if is_its self }
    {
        Ballot {
            unvoted: is_its || self.unvoted,
            out: self.out,
        }
    }

    /// What becomes of it where it votes so; a vote that is there stays.
    fn voted_if(self, is_its: bool, v: Vote) -> Ballot
        ensures { result ≡ voted_if is_its v self }
    {
        Ballot {
            unvoted: !is_its && self.unvoted,
            out: self.out || (is_its && !still_hears_by(v) && self.unvoted),
        }
    }
}
