//! What a history says of one enlistment and of the coordinator.
ghost use Rattle.std.specs.Prelude.{◌≡◌};
ghost use Rattle.dtx_model.specs.Coordinated.{recovered_after, stopped_after};
ghost use Rattle.dtx_model.specs.Words.{past_of};
ghost use Rattle.dtx_values.specs.Ends.{is_in};
ghost use Rattle.reenlist_recovery.specs.Recovery.{refusal_of};
ghost use Rattle.reenlist_recovery.specs.Standing.{HasRoom, answer_by, answer_for, at_first, handed_after, standing_after, standing_of};

use crate::ballot::Ballot;
use crate::refusal::ReenlistRefusal;
use crate::seat::Seat;
use crate::wire::Wire;
use dtx_values::{Conn, EnlNo, Entry, RmNo};
use entry_lists::Entries;

/// What a history says of one enlistment and of the coordinator, as far as it decides whether the enlistment may come back.
#[derive(Clone, Copy, PartialEq, Eq, Debug)]
pub(crate) struct Standing {
    pub seat: Seat,
    pub ballot: Ballot,
    /// Whether the commit was handed to it.
    pub handed: bool,
    /// The managers that have recovered: the bit of each is 1.
    pub recovered: u32,
    /// Whether the coordinator stands stopped.
    pub stopped: bool,
    /// The enlistment's own connection.
    pub own: Wire,
    /// The connection of its last return.
    pub again: Wire,
}

/// The managers that have recovered after an entry.
fn recovered_after(x: &Entry, recovered: u32) -> u32
    ensures { result ≡ recovered_after x.now recovered }
{
    match *x {
        Entry::Recovered(r) => recovered | 1 << r.get(),
        _ => recovered,
    }
}

/// Whether the coordinator stands stopped after an entry.
fn stopped_after(x: &Entry, stopped: bool) -> bool
    ensures { result ≡ stopped_after x.now stopped }
{
    match *x {
        Entry::Stopped => true,
        Entry::Restarted(_) => false,
        _ => stopped,
    }
}

/// Whether the commit is handed to the enlistment after an entry.
fn handed_after(e: EnlNo, x: &Entry, handed: bool) -> bool
    ensures { result ≡ handed_after e.value x.now handed }
{
    match *x {
        Entry::Handed(f) => e == f,
        _ => handed,
    }
}

impl Standing {
    /// What no entry says.
    fn at_first() -> Standing
        ensures { result ≡ at_first }
    {
        Standing {
            seat: Seat::none(),
            ballot: Ballot::none(),
            handed: false,
            recovered: 0,
            stopped: false,
            own: Wire::unopened(),
            again: Wire::unopened(),
        }
    }

    /// What is said with one more entry.
    fn follow(self, e: EnlNo, x: &Entry) -> Standing
        requires own { HasRoom self.own }
        requires again { HasRoom self.again }
        ensures { result ≡ standing_after e x.now self }
    {
        Standing {
            seat: self.seat.follow(e, x),
            ballot: self.ballot.follow(e, x),
            handed: handed_after(e, x, self.handed),
            recovered: recovered_after(x, self.recovered),
            stopped: stopped_after(x, self.stopped),
            own: self.own.follow(Conn::Enl(e), self.stopped, x),
            again: self.again.follow(Conn::Again(e), self.stopped, x),
        }
    }

    /// Whether the manager has recovered.
    fn has_recovered(self, r: RmNo) -> bool
        ensures { result ≡ is_in r.value self.recovered }
    {
        (self.recovered >> r.get()) % 2 == 1
    }

    /// Why the enlistment, which is of this manager at the coordinator, can't come back.
    fn refusal_for(self, e: EnlNo, r: RmNo) -> Option<ReenlistRefusal>
        ensures { result ≡ refusal_of e (answer_for e self (Some r)) }
    {
        if !self.seat.enlisted {
            Some(ReenlistRefusal::NoSuch)
        } else if self.seat.told || self.ballot.out || self.handed {
            Some(ReenlistRefusal::Finished(e))
        } else if self.has_recovered(r) {
            Some(ReenlistRefusal::RecoveryOver(r))
        } else if self.own.is_linked() || self.again.is_linked() {
            Some(ReenlistRefusal::Connected(e))
        } else if self.stopped {
            Some(ReenlistRefusal::Stopped)
        } else {
            None
        }
    }

    /// Why the enlistment can't come back.
    pub fn refusal(self, e: EnlNo) -> Option<ReenlistRefusal>
        ensures { result ≡ refusal_of e (answer_by e self) }
    {
        match self.seat.manager {
            Some(r) => self.refusal_for(e, r),
            None => Some(ReenlistRefusal::NoSuch),
        }
    }
}

/// What a history says of an enlistment.
pub(crate) fn standing_of(history: &Entries, e: EnlNo) -> Standing
    ensures { result ≡ standing_of e (past_of history.now.items) }
{
    let mut standing = Standing::at_first();
    for i in 0..history.len() {
        standing = standing.follow(e, &history.at(i));
    }
    standing
}
