//! The connections of one transaction.
ghost use Rattle.std.specs.Prelude.{◌≡◌, ◌≢◌, ◌⊎◌, ◌↔◌, ◌≤◌, ◌<◌, ◌+◌, ◌∷◌, ◌++◌, List, [], ℕ, Bool, Some, None, Err, true, false, length, map, min, take, IfOk, IfErr, IfSome, OnErr, OnOk, IsTrue, IsErrOf};
ghost use Rattle.std.specs.List.{flat_map};
ghost use Rattle.dtx_values.specs.declared.entry.Entry.{Entry};
ghost use Rattle.dtx_values.specs.declared.entry.Entry.TheVariants.{Cut, Down as End, Got, Sent, Stopped};
ghost use Rattle.dtx_values.specs.declared.message.Dir.TheVariants.{Up, Down};
ghost use Rattle.dtx_values.specs.declared.message.Message.{Message};
ghost use Rattle.dtx_model.specs.Frames.{IsFrame, frame_of, is_valid};
ghost use Rattle.dtx_values.specs.Lines.{has_line};
ghost use Rattle.dtx_model.specs.Wires.{MayCross, is_stopped, opens};
ghost use Rattle.oletx_frames.specs.declared.refusal.FrameRefusal.{FrameRefusal};
ghost use Rattle.oletx_session.specs.Traffic.{Becomes, Delivers, Ends, IsCut, Spells, fresh, has_left, is_open, is_taken, lane, lost_at_once, may_send, opposite, sent_on, stopped_wire, wire_of};
ghost use Rattle.oletx_session.specs.Carries.{Carries, IsStarted, IsStartedLost};
ghost use Rattle.oletx_session.specs.Calls.{AnswersStart, KeepsRoom};

use crate::crossing::{LONGEST, cut, most_pieces, put_frame, take_message};
use crate::link::{Link, link_of, put, replace, stop_all};
use crate::piece::Piece;
use crate::queue::{is_any_on, keep_direction};
use crate::refusal::SessionRefusal;
use dtx_values::{Conn, Dir, Message, ROOM};
use oletx_frames::{FrameRefusal, encode};
use std::alloc::{AllocError, Global};
use std::marker::Model;

/// What is delivered to one side of a connection.
#[derive(Clone, Copy, PartialEq, Eq, Debug)]
pub enum Delivered {
    /// The next message.
    Msg(Message),
    /// The bytes on the way don't begin with a frame.
    BadFrame(FrameRefusal),
    /// The end of the connection.
    End,
}

/// The connections of one transaction.
///
/// A clause sees the connections that were started, each with the bytes on the way in both directions, and the room for calls of `start` and `send`.
#[derive(Drop)]
pub struct Session {
    /// The most bytes of a piece.
    size: u8,
    links: Vec<Link>,
    /// What is on the way on all connections, in the order in which it was sent.
    pieces: Vec<Piece>,
}

impl Model for Session {
    ghost use Rattle.std.specs.Prelude.{◌-◌, ◌/◌, vec_capacity, vec_len};
    ghost use Rattle.oletx_session.specs.Crossing.{AreKept, most_pieces};
    ghost use Rattle.oletx_session.specs.Queues.{wires_in};
    ghost use Rattle.oletx_session.specs.Traffic.{Traffic};

    ghost Value = { Traffic };

    ghost invariant = { λ s. AreKept s.size s.links.items s.pieces.items };

    ghost view = { λ s. record {
      wires = wires_in s.pieces.items s.links.items;
      start_room = vec_capacity s.links - vec_len s.links;
      send_room = (vec_capacity s.pieces - vec_len s.pieces) / most_pieces s.size;
    } };
}

/// The other direction.
fn opposite(d: Dir) -> Dir
    ensures { result ≡ opposite d }
{
    match d {
        Dir::Up => Dir::Down,
        Dir::Down => Dir::Up,
    }
}

/// What is delivered where a message or a refusal came.
fn content_of(came: Result<Message, FrameRefusal>) -> Delivered
    ensures message { IfOk came (λ m. result ≡ Delivered.Msg m) }
    ensures refused { IfErr came (λ e. result ≡ Delivered.BadFrame e) }
{
    match came {
        Ok(m) => Delivered::Msg(m),
        Err(refusal) => Delivered::BadFrame(refusal),
    }
}

impl Session {
    /// No connection was started, and there is no room before [`Session::reserve`] makes it: until then it takes no memory. The bytes cross in pieces of `n`, as those of
    /// [`Session::with_piece`] do.
    pub fn without_room(alloc: Global, n: u8) -> Session
        requires { n ≢ 0 }
        ensures none { result.wires ≡ [] }
        ensures carries { Carries result.wires [] }
    {
        Session {
            size: n,
            links: Vec::new(alloc),
            pieces: Vec::new(alloc),
        }
    }

    /// As [`Session::with_piece`] makes it with pieces of 40 bytes: each frame crosses whole.
    pub fn new(alloc: Global) -> Result<Session, AllocError>
        ensures none { IfOk result (λ s. s.wires ≡ []) }
        ensures room { IfOk result (λ s. (64 ≤ s.start_room) × (64 ≤ s.send_room)) }
        ensures carries { IfOk result (λ s. Carries s.wires []) }
    {
        Session::with_piece(alloc, LONGEST)
    }

    /// No connection was started, and there is room for [`ROOM`] (64) calls of `start` and as many of `send`. The bytes of a frame cross in pieces of `n`, the last one
    /// shorter. No answer tells how many they are.
    pub fn with_piece(alloc: Global, n: u8) -> Result<Session, AllocError>
        requires { n ≢ 0 }
        ensures none { IfOk result (λ s. s.wires ≡ []) }
        ensures room { IfOk result (λ s. (64 ≤ s.start_room) × (64 ≤ s.send_room)) }
        ensures carries { IfOk result (λ s. Carries s.wires []) }
    {
        Ok(Session {
            size: n,
            links: Vec::with_capacity(alloc, ROOM)?,
            pieces: Vec::with_capacity(alloc, ROOM * most_pieces(n))?,
        })
    }

    /// Makes room for [`ROOM`] (64) calls of `start` and as many of `send`. While it lasts, neither needs memory.
    pub fn reserve(&mut self) -> Result<(), AllocError>
        ensures same { self.new.wires ≡ self.old.wires }
        ensures room { OnOk result ((64 ≤ self.new.start_room) × (64 ≤ self.new.send_room)) }
        ensures keeps { KeepsRoom self.old self.new }
    {
        self.links.reserve(ROOM)?;
        self.pieces.reserve(ROOM * most_pieces(self.size))
    }

    /// Starts a connection. Nothing is on the way yet.
    ///
    /// # Errors
    ///
    /// - [`SessionRefusal::Taken`] exactly where the connection is open or has something left to deliver.
    /// - [`SessionRefusal::Memory`], only where no room is left.
    pub fn start(&mut self, c: Conn) -> Result<(), SessionRefusal>
        ensures started { OnOk result (Becomes c (fresh c) self.old.wires self.new.wires) }
        ensures answers { AnswersStart c self.old self.new result }
        ensures carries { OnOk result ((h : List Entry) → Carries self.old.wires h → IsStarted c self.new.wires h) }
    {
        if self.is_taken(c) {
            return Err(SessionRefusal::Taken(c));
        }
        let Ok(()) = put(&mut self.links, Link::new(c)) else {
            return Err(SessionRefusal::Memory);
        };
        Ok(())
    }

    /// Starts a connection while the coordinator stands stopped: it is lost at once, and its end is on the way to the local side alone.
    ///
    /// # Errors
    ///
    /// As [`start`](Session::start) has them.
    pub fn start_lost(&mut self, c: Conn) -> Result<(), SessionRefusal>
        ensures started { OnOk result (Becomes c (lost_at_once c) self.old.wires self.new.wires) }
        ensures answers { AnswersStart c self.old self.new result }
        ensures carries { OnOk result ((h : List Entry) → Carries self.old.wires h → IsStartedLost c self.new.wires h) }
    {
        if self.is_taken(c) {
            return Err(SessionRefusal::Taken(c));
        }
        let Ok(()) = put(&mut self.links, Link::new(c).stopped()) else {
            return Err(SessionRefusal::Memory);
        };
        Ok(())
    }

    /// Puts the frame of a valid message ([`is_valid`](crate::is_valid)) after what is on the way. On a lost connection whose end the sender hasn't seen it is
    /// dropped.
    ///
    /// # Errors
    ///
    /// - [`SessionRefusal::NotOpen`] exactly where the connection was never started or its sender saw its end.
    /// - [`SessionRefusal::Memory`], only where no room is left.
    pub fn send(&mut self, c: Conn, d: Dir, m: &Message) -> Result<(), SessionRefusal>
        requires { is_valid m.now ≡ true }
        ensures sent { OnOk result (IfSome (wire_of c self.old.wires) (λ w. Becomes c (sent_on d m.now w) self.old.wires self.new.wires)) }
        ensures not_open { IsErrOf result (SessionRefusal.NotOpen c) ↔ (may_send d (wire_of c self.old.wires) ≡ false) }
        ensures memory { IsErrOf result SessionRefusal.Memory → self.old.send_room ≡ 0 }
        ensures only { IfErr result (λ e. (e ≡ SessionRefusal.NotOpen c) ⊎ (e ≡ SessionRefusal.Memory)) }
        ensures unchanged { OnErr result (self.new.wires ≡ self.old.wires) }
        ensures start_room { self.old.start_room ≤ self.new.start_room }
        ensures send_room { self.old.send_room ≤ self.new.send_room + 1 }
        // over histories: a message that opens nothing, and the one that opens a connection that was just started, also while the coordinator stands stopped
        ensures carries { OnOk result ((h : List Entry) → Carries self.old.wires h → opens c (Sent c d m.now) ≡ false → Carries self.new.wires (Sent c d m.now ∷ h)) }
        ensures opened { OnOk result ((h : List Entry) → IsStarted c self.old.wires h → opens c (Sent c d m.now) ≡ true → is_stopped h ≡ false
            → Carries self.new.wires (Sent c d m.now ∷ h)) }
        ensures opened_lost { OnOk result ((h : List Entry) → IsStartedLost c self.old.wires h → opens c (Sent c d m.now) ≡ true → is_stopped h ≡ true
            → Carries self.new.wires (Sent c d m.now ∷ h)) }
    {
        if !self.may_send(c, d) {
            return Err(SessionRefusal::NotOpen(c));
        }
        if !self.is_open(c) {
            return Ok(());
        }
        let mut frame = [0; 40];
        let length = encode(m, &mut frame);
        let Ok(()) = put_frame(&mut self.pieces, c, d, &frame[..length], self.size) else {
            return Err(SessionRefusal::Memory);
        };
        Ok(())
    }

    /// Takes what comes next to the side that gets in this direction: the next message, or the end of a lost connection after the last one, once. `None` exactly where
    /// nothing is left.
    pub fn deliver(&mut self, c: Conn, d: Dir) -> Option<Delivered>
        ensures none { (result ≡ None) ↔ (has_left d (wire_of c self.old.wires) ≡ false) }
        ensures unchanged { result ≡ None → self.new.wires ≡ self.old.wires }
        ensures message { (m : Message) → result ≡ Some (Delivered.Msg m) → IfSome (wire_of c self.old.wires) (λ w. Delivers c d m w self.old.wires self.new.wires) }
        ensures end { result ≡ Some Delivered.End → IfSome (wire_of c self.old.wires) (λ w. Ends c d w self.old.wires self.new.wires) }
        ensures never { (e : FrameRefusal) → result ≢ Some (Delivered.BadFrame e) }
        ensures keeps { KeepsRoom self.old self.new }
        // over histories: what is got was the next on the way, and an end comes where it may
        ensures got { (m : Message) (h : List Entry) → result ≡ Some (Delivered.Msg m) → Carries self.old.wires h
            → MayCross h (Got c d m) × (has_line c d m ≡ true → Carries self.new.wires (Got c d m ∷ h)) }
        ensures down { (h : List Entry) → result ≡ Some Delivered.End → Carries self.old.wires h → MayCross h (End c d) × Carries self.new.wires (End c d ∷ h) }
    {
        let link = link_of(&self.links, c)?;
        if let Some(came) = take_message(&mut self.pieces, c, d) {
            return Some(content_of(came));
        }
        if !link.is_ending(d) {
            return None;
        }
        // The connection is there, since `link_of` found it. So it is replaced.
        let _ = replace(&mut self.links, link.ended_in(d));
        Some(Delivered::End)
    }

    /// Whether something is left to deliver in this direction.
    pub fn has_left(&self, c: Conn, d: Dir) -> bool
        ensures value { result ≡ has_left d (wire_of c self.now.wires) }
        // what is on the way are frames of valid messages, one behind the other
        ensures frames { IfSome (wire_of c self.now.wires) (λ w. (ms : List Message) × Spells (lane d w).bytes ms) }
    {
        match link_of(&self.links, c) {
            Some(link) => is_any_on(&self.pieces, c, d) || link.is_ending(d),
            None => false,
        }
    }

    /// Whether the connection is open: it was started, and isn't lost.
    pub fn is_open(&self, c: Conn) -> bool
        ensures { result ≡ is_open (wire_of c self.now.wires) }
    {
        match link_of(&self.links, c) {
            Some(link) => !link.lost,
            None => false,
        }
    }

    /// Loses an open connection. The first `up` messages on the way upward and the first `down` on the way downward are kept, or all where fewer are on the way, and its end
    /// comes after them. It gives the numbers kept; `None` exactly where the connection isn't open. It takes no memory.
    pub fn lose(&mut self, c: Conn, up: u32, down: u32) -> Option<(u32, u32)>
        ensures none { (result ≡ None) ↔ (is_open (wire_of c self.old.wires) ≡ false) }
        ensures unchanged { result ≡ None → self.new.wires ≡ self.old.wires }
        ensures lost { IfSome result (λ k. IfSome (wire_of c self.old.wires) (λ w. (us ds : List Message) → Spells w.up.bytes us → Spells w.down.bytes ds
            → IsCut c w us ds up down k self.old.wires self.new.wires)) }
        ensures keeps { KeepsRoom self.old self.new }
        ensures cut { (h : List Entry) → IfSome result (λ k. Carries self.old.wires h → Carries self.new.wires (Cut c k.0 k.1 ∷ h)) }
    {
        let link = link_of(&self.links, c)?;
        if link.lost {
            return None;
        }
        // The connection is there, since `link_of` found it. So it is replaced.
        let _ = replace(&mut self.links, link.lost());
        let up = cut(&mut self.pieces, c, Dir::Up, up);
        let down = cut(&mut self.pieces, c, Dir::Down, down);
        Some((up, down))
    }

    /// Loses every connection as a stop of the coordinator does: nothing upward is kept, everything downward is, and the coordinator sees no ends. It takes no memory.
    pub fn stop(&mut self)
        ensures stopped { self.new.wires ≡ map stopped_wire self.old.wires }
        ensures keeps { KeepsRoom self.old self.new }
        ensures carries { (h : List Entry) → Carries self.old.wires h → Carries self.new.wires (Stopped ∷ h) }
    {
        stop_all(&mut self.links);
        keep_direction(&mut self.pieces, Dir::Down);
    }

    /// Whether the side that sends in this direction may: the connection was started, and the side didn't see its end.
    fn may_send(&self, c: Conn, d: Dir) -> bool
        ensures { result ≡ may_send d (wire_of c self.now.wires) }
    {
        match link_of(&self.links, c) {
            Some(link) => !link.has_ended(opposite(d)),
            None => false,
        }
    }

    /// Whether the connection is open, or has something left to deliver.
    fn is_taken(&self, c: Conn) -> bool
        ensures { result ≡ is_taken (wire_of c self.now.wires) }
    {
        self.is_open(c) || self.has_left(c, Dir::Up) || self.has_left(c, Dir::Down)
    }
}
