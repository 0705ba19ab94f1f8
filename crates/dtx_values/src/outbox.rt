//! What one step makes.
ghost use Rattle.std.specs.Prelude.{◌≡◌, ◌<◌, ◌≤◌, [], ◌∷◌, length, IfOk};
ghost use Rattle.dtx_values.specs.Outgoing.{blank, with, with_sends};

use crate::entry::Entry;
use crate::limits::ROOM;
use crate::message::{Conn, Dir, Message};
use std::alloc::{AllocError, Global};
use std::marker::Model;

/// The entries and the messages of one step. Contracts see both lists, and the room that is left for each.
#[derive(Drop)]
pub struct Outbox {
    entries: Vec<Entry>,
    sends: Vec<(Conn, Dir, Message)>,
}

impl Model for Outbox {
    ghost use Rattle.std.specs.Prelude.{◌≡◌, ◌-◌, vec_len, vec_capacity};
    ghost use Rattle.dtx_values.specs.Outgoing.{Outgoing};

    ghost Value = { Outgoing };

    ghost invariant = { λ o. (vec_capacity o.entries ≡ 64) × (vec_capacity o.sends ≡ 64) };

    ghost view = { λ o. record {
      entries = o.entries.items;
      sends = o.sends.items;
      room = vec_capacity o.entries - vec_len o.entries;
      send_room = vec_capacity o.sends - vec_len o.sends;
    } };
}

impl Outbox {
    /// An empty outbox with room for `ROOM` entries and `ROOM` messages.
    pub fn with_room(alloc: Global) -> Result<Self, AllocError>
        ensures { IfOk result (λ o. o ≡ blank) }
    {
        Ok(Outbox {
            entries: Vec::with_capacity(alloc, ROOM)?,
            sends: Vec::with_capacity(alloc, ROOM)?,
        })
    }

    /// Puts an entry behind the others.
    pub fn put(&mut self, e: Entry)
        requires { 0 < self.old.room }
        ensures { self.new ≡ with self.old (e ∷ []) }
    {
        self.entries.push_reserved(e);
    }

    /// Puts a message behind the others.
    pub fn send(&mut self, c: Conn, d: Dir, m: Message)
        requires { 0 < self.old.send_room }
        ensures { self.new ≡ with_sends self.old ((c, d, m) ∷ []) }
    {
        self.sends.push_reserved((c, d, m));
    }

    /// The entries in order.
    pub fn entries(&self) -> &[Entry]
        ensures value { result.now ≡ self.now.entries }
        ensures few { length result.now ≤ 64 }
    {
        self.entries.as_slice()
    }

    /// The messages in order.
    pub fn sends(&self) -> &[(Conn, Dir, Message)]
        ensures value { result.now ≡ self.now.sends }
        ensures few { length result.now ≤ 64 }
    {
        self.sends.as_slice()
    }

    /// For how many more entries it has room.
    pub fn room(&self) -> usize
        ensures { result ≡ self.now.room }
    {
        self.entries.capacity() - self.entries.len()
    }

    /// For how many more messages it has room.
    pub fn send_room(&self) -> usize
        ensures { result ≡ self.now.send_room }
    {
        self.sends.capacity() - self.sends.len()
    }

    /// Takes everything out, so that the whole room is there again.
    pub fn clear(&mut self)
        ensures { self.new ≡ blank }
    {
        self.entries.clear();
        self.sends.clear();
    }
}
