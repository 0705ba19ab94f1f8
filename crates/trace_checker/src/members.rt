//! What is known of each enlistment.
ghost use Rattle.std.specs.Prelude.{◌≡◌, ◌&&◌, ◌||◌, not, List, [], ◌∷◌, OnOk, Some};
ghost use Rattle.trace_checker.specs.Members.{dealer, voter};

use crate::table::{item_at, reach};
use dtx_values::{Conn, Dir, EnlNo, Entry, Message, Outcome};
use std::alloc::{AllocError, Global};

/// What the history shows of an enlistment.
#[derive(Clone, Copy, PartialEq, Eq, Debug)]
pub struct Member {
    /// It was enlisted as a volatile.
    pub volatile: bool,
    pub voted: bool,
    /// The coordinator got its PREPARED, NO or READONLY.
    pub heard: bool,
    /// It was handed the commit.
    pub handed: bool,
    /// It answered as the owner; it answered committed, or in doubt.
    pub answered: bool,
    pub committed: bool,
    pub unsure: bool,
    /// The coordinator sent SINGLE to it, and got its answer.
    pub single: bool,
    pub replied: bool,
}

impl Member {
    /// Whether it may decide, where the transaction is promoted or not, was handed the commit and answered committed.
    pub fn has_decided(&self, promoted: bool) -> bool
        ensures { result ≡ ((not promoted || self.now.single) && self.now.handed && self.now.committed) }
    {
        (!promoted || self.single) && self.handed && self.committed
    }
}

/// What its enlisting and its votes show of an enlistment.
#[derive(Clone, Copy, PartialEq, Eq, Debug)]
struct Ballot {
    volatile: bool,
    voted: bool,
}

/// What its dealings with the commit and with the coordinator show of an enlistment.
#[derive(Clone, Copy, PartialEq, Eq, Debug)]
struct Dealings {
    heard: bool,
    handed: bool,
    answered: bool,
    committed: bool,
    unsure: bool,
    single: bool,
    replied: bool,
}

/// The enlistment whose ballot the entry changes.
#[inline(always)]
fn voter(x: &Entry) -> Option<EnlNo>
    ensures { result ≡ voter x.now }
{
    match *x {
        Entry::Enlisted(e, _) | Entry::Voted(e, _) => Some(e),
        _ => None,
    }
}

/// The enlistment whose dealings the entry changes.
#[inline(always)]
fn dealer(x: &Entry) -> Option<EnlNo>
    ensures { result ≡ dealer x.now }
{
    match *x {
        Entry::Handed(e)
        | Entry::OwnerAnswered(e, _)
        | Entry::Sent(Conn::Enl(e), Dir::Down, Message::EnlistSingle)
        | Entry::Got(Conn::Enl(e), Dir::Up, _) => Some(e),
        _ => None,
    }
}

impl Ballot {
    ghost use Rattle.trace_checker.specs.Members.{ballot_after};

    /// It is no volatile, and didn't vote.
    const BLANK: Ballot = Ballot {
        volatile: false,
        voted: false,
    };

    /// Notes the entry, which changes it.
    #[inline(always)]
    fn follow(&mut self, x: &Entry)
        ensures { self.new ≡ ballot_after x.now self.old }
    {
        match *x {
            Entry::Enlisted(_, c) => self.volatile |= c.is_volatile(),
            Entry::Voted(_, _) => self.voted = true,
            _ => {}
        }
    }
}

impl Dealings {
    ghost use Rattle.trace_checker.specs.Members.{dealings_after, dealings_hearing};

    /// It had none.
    const NONE: Dealings = Dealings {
        heard: false,
        handed: false,
        answered: false,
        committed: false,
        unsure: false,
        single: false,
        replied: false,
    };

    /// Notes what the coordinator got from it.
    fn hear(&mut self, m: Message)
        ensures { self.new ≡ dealings_hearing m self.old }
    {
        match m {
            Message::EnlistPrepared | Message::EnlistNo | Message::EnlistReadonly => {
                self.heard = true;
            }
            Message::EnlistOneCommitted | Message::EnlistOneAborted | Message::EnlistOneInDoubt => {
                self.replied = true;
            }
            _ => {}
        }
    }

    /// Notes the entry, which changes them.
    #[inline(always)]
    fn follow(&mut self, x: &Entry)
        ensures { self.new ≡ dealings_after x.now self.old }
    {
        match *x {
            Entry::Handed(_) => self.handed = true,
            Entry::OwnerAnswered(_, o) => {
                self.answered = true;
                self.committed |= o == Outcome::Committed;
                self.unsure |= o == Outcome::InDoubt;
            }
            Entry::Sent(_, _, _) => self.single = true,
            Entry::Got(_, _, m) => self.hear(m),
            _ => {}
        }
    }
}

/// The rows of the enlistments, by number. Of one past the end of a table nothing is known.
#[derive(Drop)]
pub struct Members {
    ballots: Vec<Ballot>,
    /// A table of its own, since most enlistments have none, and then take no room in it.
    dealings: Vec<Dealings>,
}

impl Members {
    ghost use Rattle.trace_checker.specs.Members.{IsMembersOf, member};
    ghost use Rattle.dtx_values.specs.declared.entry.Entry.{Entry};

    /// Nothing is known of any.
    pub fn new(alloc: Global) -> Members
        ensures { IsMembersOf [] result }
    {
        Members {
            ballots: Vec::new(alloc),
            dealings: Vec::new(alloc),
        }
    }

    /// What is known of this enlistment.
    pub fn of(&self, e: EnlNo) -> Member
        ensures { result ≡ member e.value self.now }
    {
        self.at(e.get())
    }

    /// What is known of the enlistment of this number.
    pub fn at(&self, n: u32) -> Member
        ensures { result ≡ member n self.now }
    {
        let ballot = item_at(&self.ballots, n, Ballot::BLANK);
        let dealings = item_at(&self.dealings, n, Dealings::NONE);
        Member {
            volatile: ballot.volatile,
            voted: ballot.voted,
            heard: dealings.heard,
            handed: dealings.handed,
            answered: dealings.answered,
            committed: dealings.committed,
            unsure: dealings.unsure,
            single: dealings.single,
            replied: dealings.replied,
        }
    }

    /// Notes the entry, which changes the ballot of this enlistment.
    #[inline(always)]
    fn vote(&mut self, e: EnlNo, x: &Entry) -> Result<(), AllocError>
        requires { voter x.now ≡ Some e }
        ensures { OnOk result ((h : List Entry)
            → IsMembersOf h self.old → IsMembersOf (x.now ∷ h) self.new) }
    {
        let n = e.get();
        reach(&mut self.ballots, n, Ballot::BLANK)?;
        let row = &mut self.ballots[n as usize];
        row.follow(x);
        Ok(())
    }

    /// Notes the entry, which changes the dealings of this enlistment.
    #[inline(always)]
    fn deal(&mut self, e: EnlNo, x: &Entry) -> Result<(), AllocError>
        requires { dealer x.now ≡ Some e }
        ensures { OnOk result ((h : List Entry)
            → IsMembersOf h self.old → IsMembersOf (x.now ∷ h) self.new) }
    {
        let n = e.get();
        reach(&mut self.dealings, n, Dealings::NONE)?;
        let row = &mut self.dealings[n as usize];
        row.follow(x);
        Ok(())
    }

    /// Notes the entry.
    #[inline(always)]
    pub fn follow(&mut self, x: &Entry) -> Result<(), AllocError>
        ensures { OnOk result ((h : List Entry) → IsMembersOf h self.old → IsMembersOf (x.now ∷ h) self.new) }
    {
        if let Some(e) = voter(x) {
            return self.vote(e, x);
        }
        if let Some(e) = dealer(x) {
            return self.deal(e, x);
        }
        Ok(())
    }
}
