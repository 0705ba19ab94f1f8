//! The history of one transaction, with the connections that carry it.
ghost use Rattle.std.specs.Prelude.{◌≡◌, ◌||◌, ◌≢◌, ◌≤◌, ◌<◌, ◌+◌, ◌∷◌, ◌↔◌, [], List, Some, None, IfOk, IfSome, OnOk, true, false, length, min};
ghost use Rattle.dtx_values.specs.declared.entry.Entry.{Entry};
ghost use Rattle.dtx_values.specs.declared.entry.Entry.TheVariants.{Cut, Down as End, Got, Restarted, Sent, Stopped};
ghost use Rattle.dtx_values.specs.declared.message.Dir.TheVariants.{Up, Down};
ghost use Rattle.dtx_values.specs.declared.message.Conn.{Conn};
ghost use Rattle.dtx_values.specs.declared.message.Message.{Message};
ghost use Rattle.dtx_values.specs.Lines.{has_line};
ghost use Rattle.dtx_model.specs.Frames.{is_valid};
ghost use Rattle.dtx_model.specs.Words.{each, has, onto, past_of};
ghost use Rattle.dtx_model.specs.Wires.{MayCross, WireRun, is_open_wire, is_stopped, opens};
ghost use Rattle.dtx_model.specs.World.{cut, has_left, is_linked, on_the_way};
ghost use Rattle.oletx_session.specs.declared.session.Delivered.{Delivered};
ghost use Rattle.oletx_session.specs.Carries.{Carries};
ghost use Rattle.world_laws.specs.Carried.{are_sendable, is_sendable};
ghost use Rattle.world_parts.specs.Entering.{cut_if, is_countable, links_cut};
ghost use Rattle.world_parts.specs.Sending.{is_sent};
ghost use Rattle.world_laws.specs.Course.{Came, Course, IsOpened, arrival, is_written};

use dtx_values::{Conn, Dir, EnlNo, Entry, Message, ROOM, is_opening};
use entry_lists::Entries;
use oletx_session::{Delivered, Session};
use std::alloc::{AllocError, Global};
use std::marker::Model;

/// The first room of a history, in entries. Most histories are shorter, with the room for their next step, so they are never copied.
const FIRST_ROOM: usize = 4 * (ROOM + 2);

/// The room for a step that sends nothing, in entries: it writes at most four, and a stop after them.
const FEW_ENTRIES: usize = 6;

/// How many bytes of a frame cross a connection at once. No answer depends on it.
const PIECE: u8 = 7;

/// The history of one transaction, and its connections. What is on the way there is what the history says.
#[derive(Drop)]
pub struct History {
    entries: Entries,
    session: Session,
}

impl Model for History {
    ghost use Rattle.dtx_model.specs.Words.{past_of};
    ghost use Rattle.dtx_model.specs.Wires.{WireRun};
    ghost use Rattle.oletx_session.specs.Carries.{Carries};
    ghost use Rattle.world_laws.specs.Course.{Course};

    ghost Value = { Course };

    ghost invariant = { λ h. Carries h.session.wires (past_of h.entries.items) × WireRun (past_of h.entries.items) };

    ghost view = { λ h. record {
      past = past_of h.entries.items;
      room = h.entries.room;
      start_room = h.session.start_room;
      send_room = h.session.send_room;
    } };
}

/// Starts a connection where nothing is left of an earlier opening. It is lost at once while the coordinator stands stopped.
fn open(session: &mut Session, stopped: bool, c: Conn)
    requires { 0 < session.old.start_room }
    ensures opened { (h : List Entry) → Carries session.old.wires h → WireRun h → is_linked c h ≡ false → IsOpened stopped c session.new.wires h }
    ensures start_room { session.old.start_room ≤ session.new.start_room + 1 }
    ensures send_room { session.old.send_room ≤ session.new.send_room }
{
    // It is free, and there is room for it. So it is started.
    if stopped {
        let _ = session.start_lost(c);
    } else {
        let _ = session.start(c);
    }
}

/// Opens a connection with its first message.
fn open_with(session: &mut Session, stopped: bool, c: Conn, d: Dir, m: &Message)
    requires valid { is_valid m.now ≡ true }
    requires starts { 0 < session.old.start_room }
    requires sends { 0 < session.old.send_room }
    ensures carries { (h : List Entry) → Carries session.old.wires h → WireRun h → is_sendable h (Sent c d m.now) ≡ true → opens c (Sent c d m.now) ≡ true → stopped ≡ is_stopped h
        → Carries session.new.wires (Sent c d m.now ∷ h) }
    ensures start_room { session.old.start_room ≤ session.new.start_room + 1 }
    ensures send_room { session.old.send_room ≤ session.new.send_room + 1 }
{
    open(session, stopped, c);
    let _ = session.send(c, d, m);
}

/// Sends a message that may be sent.
fn send(session: &mut Session, stopped: bool, c: Conn, d: Dir, m: &Message)
    requires valid { is_valid m.now ≡ true }
    requires starts { 0 < session.old.start_room }
    requires sends { 0 < session.old.send_room }
    ensures carries { (h : List Entry) → Carries session.old.wires h → WireRun h → is_sendable h (Sent c d m.now) ≡ true → stopped ≡ is_stopped h
        → Carries session.new.wires (Sent c d m.now ∷ h) }
    ensures start_room { session.old.start_room ≤ session.new.start_room + 1 }
    ensures send_room { session.old.send_room ≤ session.new.send_room + 1 }
{
    if d == Dir::Up && is_opening(c, *m) {
        open_with(session, stopped, c, d, m);
        return;
    }
    // Its connection was opened, and the side that sends didn't see its end. So it is sent.
    let _ = session.send(c, d, m);
}

/// Lets the connections do what an entry says.
fn carry(session: &mut Session, stopped: bool, x: &Entry)
    requires written { is_written x.now ≡ true }
    requires valid { (h : List Entry) × (is_sendable h x.now ≡ true) }
    requires starts { is_sent x.now ≡ true → 0 < session.old.start_room }
    requires sends { is_sent x.now ≡ true → 0 < session.old.send_room }
    ensures carries { (h : List Entry) → Carries session.old.wires h → WireRun h → is_sendable h x.now ≡ true → stopped ≡ is_stopped h → Carries session.new.wires (x.now ∷ h) }
    ensures start_room { session.old.start_room ≤ session.new.start_room + 1 }
    ensures send_room { session.old.send_room ≤ session.new.send_room + 1 }
{
    if let Entry::Sent(c, d, m) = x {
        send(session, stopped, *c, *d, m);
    }
}

/// Whether one of these holds.
fn is_one_of_three(a: bool, b: bool, c: bool) -> bool
    ensures { result ≡ (a || b || c) }
{
    a || b || c
}

/// The entry of what came, where something did.
fn arrival(c: Conn, d: Dir, came: &Option<Delivered>) -> Option<Entry>
    ensures { result ≡ arrival c d came.now }
{
    match came {
        Some(Delivered::Msg(m)) => Some(Entry::Got(c, d, *m)),
        Some(Delivered::End) => Some(Entry::Down(c, d)),
        _ => None,
    }
}

impl History {
    /// Of a transaction to which nothing happened yet.
    pub fn new(alloc: Global) -> Result<History, AllocError>
        ensures { IfOk result (λ h. h.past ≡ []) }
    {
        Ok(History {
            entries: Entries::with_capacity(alloc, FIRST_ROOM)?,
            session: Session::without_room(alloc, PIECE),
        })
    }

    /// Makes room for a step: [`ROOM`] (64) entries and as many messages, one that came before them, and a stop after them.
    pub fn reserve(&mut self) -> Result<(), AllocError>
        ensures same { self.new.past ≡ self.old.past }
        ensures room { OnOk result ((66 ≤ self.new.room) × (64 ≤ self.new.start_room) × (64 ≤ self.new.send_room)) }
    {
        self.entries.reserve(ROOM + 2)?;
        self.session.reserve()
    }

    /// Makes room for a step: as [`History::reserve`] does where it may send, and else for a few entries (6) alone.
    pub fn reserve_for(&mut self, sends: bool) -> Result<(), AllocError>
        ensures same { self.new.past ≡ self.old.past }
        ensures room { OnOk result ((sends ≡ true → 66 ≤ self.new.room) × (6 ≤ self.new.room)) }
        ensures sends { OnOk result (sends ≡ true → (64 ≤ self.new.start_room) × (64 ≤ self.new.send_room)) }
    {
        if sends {
            return self.reserve();
        }
        self.entries.reserve(FEW_ENTRIES)
    }

    /// The entries, oldest first.
    pub fn entries(&self) -> &Entries
        ensures { past_of result.now.items ≡ self.now.past }
    {
        &self.entries
    }

    /// Whether something is left to deliver on a connection in this direction.
    pub(crate) fn has_left(&self, c: Conn, d: Dir) -> bool
        ensures { result ≡ has_left c d self.now.past }
    {
        self.session.has_left(c, d)
    }

    /// Whether a connection is open.
    pub fn is_open(&self, c: Conn) -> bool
        ensures { result ≡ is_open_wire c self.now.past }
    {
        self.session.is_open(c)
    }

    /// Whether a connection was opened, and its end isn't seen by both sides, or something is left to deliver: that is, whether it is open or something is left.
    pub(crate) fn is_linked(&self, c: Conn) -> bool
        ensures { result ≡ is_linked c self.now.past }
    {
        // A proof sees here that the session carries the history.
        let _ = &self.session;
        is_one_of_three(
            self.is_open(c),
            self.has_left(c, Dir::Up),
            self.has_left(c, Dir::Down),
        )
    }

    /// Writes an entry. A message that it sends is on the way then.
    fn put(&mut self, x: &Entry, stopped: bool)
        requires written { is_written x.now ≡ true }
        requires sendable { is_sendable self.old.past x.now ≡ true }
        requires stopped { stopped ≡ is_stopped self.old.past }
        requires room { 0 < self.old.room }
        requires starts { is_sent x.now ≡ true → 0 < self.old.start_room }
        requires sends { is_sent x.now ≡ true → 0 < self.old.send_room }
        ensures past { self.new.past ≡ x.now ∷ self.old.past }
        ensures room { self.old.room ≤ self.new.room + 1 }
        ensures start_room { self.old.start_room ≤ self.new.start_room + 1 }
        ensures send_room { self.old.send_room ≤ self.new.send_room + 1 }
    {
        carry(&mut self.session, stopped, x);
        self.entries.push_reserved(x);
    }

    /// Writes entries, in order. `stopped` says whether the coordinator stands stopped.
    pub fn write(&mut self, xs: &[Entry], stopped: bool)
        requires written { each is_written xs.now ≡ true }
        requires sendable { are_sendable (onto self.old.past xs.now) ≡ true }
        requires stopped { stopped ≡ is_stopped self.old.past }
        requires room { length xs.now ≤ self.old.room }
        requires starts { has is_sent xs.now ≡ true → length xs.now ≤ self.old.start_room }
        requires sends { has is_sent xs.now ≡ true → length xs.now ≤ self.old.send_room }
        ensures past { self.new.past ≡ onto self.old.past xs.now }
        ensures room { self.old.room ≤ self.new.room + length xs.now }
    {
        for x in xs {
            self.put(x, stopped);
        }
    }

    /// Takes what comes next on a connection in this direction, and writes it: the next message, or the end of a lost connection. `None` exactly where nothing is left.
    pub fn deliver(&mut self, c: Conn, d: Dir) -> Option<Delivered>
        requires lined { (m : Message) → MayCross self.old.past (Got c d m) → has_line c d m ≡ true }
        requires room { 0 < self.old.room }
        ensures none { (result ≡ None) ↔ (has_left c d self.old.past ≡ false) }
        ensures unchanged { result ≡ None → self.new.past ≡ self.old.past }
        ensures came { IfSome result (λ x. Came c d x self.old.past self.new.past) }
        ensures room { self.old.room ≤ self.new.room + 1 }
        ensures start_room { self.old.start_room ≤ self.new.start_room }
        ensures send_room { self.old.send_room ≤ self.new.send_room }
    {
        let came = self.session.deliver(c, d);
        if let Some(x) = arrival(c, d, &came) {
            self.entries.push_reserved(&x);
        }
        came
    }

    /// Loses an open connection, of whose messages on the way so many are kept, and writes it. False exactly where it isn't open.
    pub fn lose(&mut self, c: Conn, up: u32, down: u32) -> bool
        requires room { 0 < self.old.room }
        ensures open { result ≡ is_open_wire c self.old.past }
        ensures cut { result ≡ true → self.new.past ≡ cut self.old.past c up down ∷ self.old.past }
        ensures unchanged { result ≡ false → self.new.past ≡ self.old.past }
        ensures room { self.old.room ≤ self.new.room + 1 }
        ensures start_room { self.old.start_room ≤ self.new.start_room }
        ensures send_room { self.old.send_room ≤ self.new.send_room }
    {
        let Some((up, down)) = self.session.lose(c, up, down) else {
            return false;
        };
        self.entries.push_reserved(&Entry::Cut(c, up, down));
        true
    }

    /// Whether there are as many entries as a cut can count, or fewer.
    pub fn is_countable(&self) -> bool
        ensures { result ≡ is_countable self.now.past }
    {
        self.entries.len() <= 4_294_967_295
    }

    /// Loses a connection, where that is wanted and it is open. All its upward messages on the way are kept, and none downward.
    fn cut_upward(&mut self, c: Conn, wanted: bool)
        requires few { on_the_way c Up self.old.past ≤ 4294967295 }
        requires room { 0 < self.old.room }
        ensures past { self.new.past ≡ onto self.old.past (cut_if self.old.past wanted c) }
        ensures room { self.old.room ≤ self.new.room + 1 }
    {
        if wanted {
            // One that isn't open stays as it is.
            let _ = self.lose(c, u32::MAX, 0);
        }
    }

    /// Loses the open connections of an enlistment, that of the promotion too where `begin` says so. All their upward messages on the way are kept, and none downward.
    pub fn cut_links(&mut self, e: EnlNo, begin: bool)
        requires few { (c : Conn) → on_the_way c Up self.old.past ≤ 4294967295 }
        requires room { 3 ≤ self.old.room }
        ensures past { self.new.past ≡ onto self.old.past (links_cut self.old.past begin e) }
    {
        self.cut_upward(Conn::Begin, begin);
        self.cut_upward(Conn::Enl(e), true);
        self.cut_upward(Conn::Again(e), true);
    }

    /// Loses every connection as a stop of the coordinator does, and writes it.
    pub fn stop(&mut self)
        requires room { 0 < self.old.room }
        ensures past { self.new.past ≡ Stopped ∷ self.old.past }
        ensures room { self.old.room ≤ self.new.room + 1 }
    {
        self.session.stop();
        self.entries.push_reserved(&Entry::Stopped);
    }

    /// Writes that the coordinator is told what an opening of the log found. Each connection stands as it did.
    pub fn restart(&mut self, found: bool)
        requires room { 0 < self.old.room }
        ensures past { self.new.past ≡ Restarted found ∷ self.old.past }
    {
        self.entries.push_reserved(&Entry::Restarted(found));
    }
}
