//! What a history says of an enlistment at the coordinator.
ghost use Rattle.std.specs.Prelude.{◌≡◌};
ghost use Rattle.reenlist_recovery.specs.Enlisted.{accepted_if, no_seat, seat_after, sent_if, told_if};

use dtx_values::{Conn, Dir, EnlNo, Entry, Message, Outcome, Party, RmNo};

/// What a history says of an enlistment at the coordinator.
#[derive(Clone, Copy, PartialEq, Eq, Debug)]
pub(crate) struct Seat {
    /// The manager of its last ENLIST, if one was sent.
    pub manager: Option<RmNo>,
    /// Whether the coordinator accepted that.
    pub enlisted: bool,
    /// Whether it was told the abort, or acknowledged the commit.
    pub told: bool,
}

impl Seat {
    /// No ENLIST was sent.
    pub fn none() -> Seat
        ensures { result ≡ no_seat }
    {
        Seat {
            manager: None,
            enlisted: false,
            told: false,
        }
    }

    /// What becomes of it by an entry.
    pub fn follow(self, e: EnlNo, x: &Entry) -> Seat
        ensures { result ≡ seat_after e.value x.now self }
    {
        match *x {
            Entry::Sent(Conn::Enl(f), Dir::Up, Message::EnlistEnlist(i)) => {
                self.sent_if(e == f, i.rm)
            }
            Entry::Got(Conn::Enl(f), Dir::Down, Message::EnlistEnlisted) => {
                self.accepted_if(e == f)
            }
            Entry::Told(Party::Enl(f), Outcome::Aborted) => self.told_if(e == f),
            Entry::Acked(f) => self.told_if(e == f),
            _ => self,
        }
    }

    /// What becomes of it where its ENLIST is sent by this manager.
    fn sent_if(self, is_its: bool, r: RmNo) -> Seat
        ensures { result ≡ sent_if is_its r self }
    {
        if is_its {
            Seat {
                manager: Some(r),
                enlisted: false,
                told: false,
            }
        } else {
            self
        }
    }

    /// What becomes of it where its ENLISTED is got.
    fn accepted_if(self, is_its: bool) -> Seat
        ensures { result ≡ accepted_if is_its self }
    {
        Seat {
            manager: self.manager,
            enlisted: self.enlisted || (is_its && self.manager.is_some()),
            told: self.told,
        }
    }

    /// What becomes of it where it is told the abort, or acknowledges.
    fn told_if(self, is_its: bool) -> Seat
        ensures { result ≡ told_if is_its self }
    {
        Seat {
            manager: self.manager,
            enlisted: self.enlisted,
            told: self.told || (is_its && self.manager.is_some()),
        }
    }
}
