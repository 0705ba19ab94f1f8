//! What a history says of one connection.
ghost use Rattle.std.specs.Prelude.{◌≡◌, ◌<◌, ◌+◌, ◌^◌};
ghost use Rattle.dtx_model.specs.Wires.{ended_after, is_kept};
ghost use Rattle.reenlist_recovery.specs.Connections.{is_linked_wire, lost_next, unopened, wire_after};

use crate::counts::{count_after, ends_down, ends_up, loses, opens};
use dtx_values::{Conn, Dir, Entry};

/// What a history says of one connection since it was opened last.
#[derive(Clone, Copy, PartialEq, Eq, Debug)]
pub(crate) struct Wire {
    /// Whether it is lost; `None` before it was opened.
    pub lost: Option<bool>,
    /// Whether the coordinator saw its end, or sees none any more.
    pub ended_up: bool,
    /// Whether the local side saw its end.
    pub ended_down: bool,
    /// How many messages are on the way to the coordinator.
    pub up: u64,
    /// How many messages are on the way to the local side.
    pub down: u64,
}

/// Whether the connection is lost after the entry; `None` before it was opened.
fn lost_next(c: Conn, stopped: bool, x: &Entry, lost: Option<bool>) -> Option<bool>
    ensures { result ≡ lost_next c stopped x.now lost }
{
    if opens(c, x) {
        return Some(stopped);
    }
    match lost {
        Some(is_lost) => Some(is_lost || loses(c, x)),
        None => None,
    }
}

/// Whether a side saw the end after an entry.
fn ended_after(opened: bool, begins: bool, ended: bool) -> bool
    ensures { result ≡ ended_after opened begins ended }
{
    if opened { begins } else { ended }
}

/// Whether the connection was opened and isn't lost.
fn is_kept(lost: Option<bool>) -> bool
    ensures { result ≡ is_kept lost }
{
    match lost {
        Some(is_lost) => !is_lost,
        None => false,
    }
}

impl Wire {
    /// A connection that wasn't opened.
    pub fn unopened() -> Wire
        ensures { result ≡ unopened }
    {
        Wire {
            lost: None,
            ended_up: false,
            ended_down: false,
            up: 0,
            down: 0,
        }
    }

    /// What becomes of connection c by an entry, where the coordinator stood stopped before it or didn't.
    pub fn follow(self, c: Conn, stopped: bool, x: &Entry) -> Wire
        requires up { self.up + 1 < 2 ^ 64 }
        requires down { self.down + 1 < 2 ^ 64 }
        ensures { result ≡ wire_after c stopped x.now self }
    {
        let opened = opens(c, x);
        let is_open = is_kept(self.lost);
        Wire {
            lost: lost_next(c, stopped, x, self.lost),
            ended_up: ended_after(opened, stopped, ends_up(c, x) || self.ended_up),
            ended_down: ended_after(opened, false, ends_down(c, x) || self.ended_down),
            up: count_after(c, Dir::Up, stopped, is_open, x, self.up),
            down: count_after(c, Dir::Down, stopped, is_open, x, self.down),
        }
    }

    /// Whether the connection was opened, and its end isn't seen by both sides or a message is on the way.
    pub fn is_linked(self) -> bool
        ensures { result ≡ is_linked_wire self }
    {
        self.lost.is_some()
            && (!(self.ended_up && self.ended_down) || self.up != 0 || self.down != 0)
    }
}
