//! What is on the way in one direction, connection by connection.
ghost use Rattle.std.specs.Prelude.{◌≡◌, ◌≢◌, ℕ, ◌==◌, ◌++◌, ◌↔◌, [], ◌∷◌, false, true, take, if◌then◌else◌, IfNone, IfOk, IfSome, IsTrue, None, OnOk};
ghost use Rattle.std.specs.Option.{option_map};
ghost use Rattle.dtx_model.specs.Outcome.{is_empty};
ghost use Rattle.dtx_model.specs.Wires.{is_next, without_first};

use crate::table::{item_at, put_at};
use dtx_values::Message;
use std::alloc::{AllocError, Global};
use std::collections::VecDeque;

/// What is on the way on one connection in one direction.
#[derive(Drop)]
struct Way {
    /// The number of its connection.
    number: u32,
    /// The first to come first.
    messages: VecDeque<Message>,
    /// Whether the side to which it leads saw the end since it was opened, or never sees one.
    ended: bool,
}

/// The ways of one direction, by the number of the connection. Where no row stands, nothing is on the way and no end comes.
#[derive(Drop)]
pub struct Ways {
    /// The place of each way's row. Where the row at that place is of another way, or there is none, the way has no row.
    places: Vec<u32>,
    /// The rows as they came, so that only the ways that are used take room.
    rows: Vec<Way>,
    alloc: Global,
}

/// Whether the two messages are one.
fn is_same(m: &Message, n: &Message) -> bool
    ensures same { result ≡ true → m.now ≡ n.now }
    ensures other { result ≡ false → m.now ≢ n.now }
{
    *m == *n
}

impl Ways {
    ghost use Rattle.trace_checker.specs.Ways.{AreSame, ChangesWay, IsPlaceOf, is_way_ended, messages, way};

    /// Nothing is on the way, and no end comes.
    pub fn new(alloc: Global) -> Ways
        ensures messages { (k : ℕ) → messages k result ≡ [] }
        ensures ended { (k : ℕ) → is_way_ended k result ≡ true }
    {
        Ways {
            places: Vec::new(alloc),
            rows: Vec::new(alloc),
            alloc,
        }
    }

    /// The place of way k's row.
    #[inline(always)]
    fn find(&self, k: u32) -> Option<usize>
        ensures some { IfSome result (λ p. IsPlaceOf k p self.now) }
        ensures none { IfNone result (way k self.now ≡ None) }
    {
        let p = item_at(&self.places, k, 0) as usize;
        if p < self.rows.len() && self.rows[p].number == k {
            Some(p)
        } else {
            None
        }
    }

    /// The row of way k.
    fn way(&self, k: u32) -> Option<&Way>
        ensures { option_map (λ w. w.now) result ≡ way k self.now }
    {
        match self.find(k) {
            Some(p) => Some(&self.rows[p]),
            None => None,
        }
    }

    /// The place of way k's row, where this message is the next on the way.
    #[inline(always)]
    fn find_next(&self, k: u32, m: &Message) -> Option<usize>
        ensures some { IfSome result (λ p. IsPlaceOf k p self.now × is_next m.now (messages k self.now)) }
        ensures none { IfNone result (is_next m.now (messages k self.now) → ⊥) }
    {
        let p = self.find(k)?;
        let next = self.rows[p].messages.front()?;
        if is_same(m, next) { Some(p) } else { None }
    }

    /// Whether this message is the next on way k.
    pub fn is_next(&self, k: u32, m: &Message) -> bool
        ensures { IsTrue result ↔ is_next m.now (messages k self.now) }
    {
        self.find_next(k, m).is_some()
    }

    /// Whether nothing is on way k.
    pub fn is_empty(&self, k: u32) -> bool
        ensures { result ≡ is_empty (messages k self.now) }
    {
        match self.way(k) {
            Some(way) => way.messages.is_empty(),
            None => true,
        }
    }

    /// Whether the end of way k was seen, or never comes.
    pub fn is_ended(&self, k: u32) -> bool
        ensures { result ≡ is_way_ended k self.now }
    {
        match self.way(k) {
            Some(way) => way.ended,
            None => true,
        }
    }

    /// The place of way k's row, which is made where there is none.
    #[inline(always)]
    fn reach(&mut self, k: u32) -> Result<usize, AllocError>
        ensures there { IfOk result (λ p. IsPlaceOf k p self.new) }
        ensures same { OnOk result (AreSame self.old self.new) }
    {
        match self.find(k) {
            Some(p) => Ok(p),
            None => self.make(k),
        }
    }

    /// Makes a row for way k, which has none, and gives its place. It begins with room for one message: on most ways there is never
    /// more than one. This comes seldom, so it stays out of the code of its callers.
    #[inline(never)]
    fn make(&mut self, k: u32) -> Result<usize, AllocError>
        requires { way k self.old ≡ None }
        ensures there { IfOk result (λ p. IsPlaceOf k p self.new) }
        ensures same { OnOk result (AreSame self.old self.new) }
    {
        let p = self.rows.len();
        let Ok(place) = u32::try_from(p) else {
            return Err(AllocError);
        };
        let messages = VecDeque::with_capacity(self.alloc, 1)?;
        put_at(&mut self.places, k, 0, place)?;
        self.rows.push(Way {
            number: k,
            messages,
            ended: true,
        })?;
        Ok(p)
    }

    /// Way k begins with nothing on it.
    pub fn open(&mut self, k: u32) -> Result<(), AllocError>
        ensures { OnOk result (ChangesWay k [] false self.old self.new) }
    {
        let p = self.reach(k)?;
        let way = &mut self.rows[p];
        way.messages.clear();
        way.ended = false;
        Ok(())
    }

    /// Way k begins with this message alone on it.
    #[inline(always)]
    pub fn open_with(&mut self, k: u32, m: &Message) -> Result<(), AllocError>
        ensures { OnOk result (ChangesWay k (m.now ∷ []) false self.old self.new) }
    {
        let p = self.reach(k)?;
        let way = &mut self.rows[p];
        way.messages.clear();
        way.messages.reserve(1)?;
        way.messages.push_back_reserved(*m);
        way.ended = false;
        Ok(())
    }

    /// Nothing is on way k, and no end comes.
    pub fn close(&mut self, k: u32)
        ensures { ChangesWay k [] true self.old self.new }
    {
        if let Some(p) = self.find(k) {
            let way = &mut self.rows[p];
            way.messages.clear();
            way.ended = true;
        }
    }

    /// The same of each way.
    pub fn close_all(&mut self)
        ensures messages { (k : ℕ) → messages k self.new ≡ [] }
        ensures ended { (k : ℕ) → is_way_ended k self.new ≡ true }
    {
        self.rows.clear();
    }

    /// A message goes last on way k.
    pub fn send(&mut self, k: u32, m: &Message) -> Result<(), AllocError>
        ensures { OnOk result (ChangesWay k (messages k self.old ++ m.now ∷ []) (is_way_ended k self.old) self.old self.new) }
    {
        let p = self.reach(k)?;
        let way = &mut self.rows[p];
        way.messages.push_back(*m)?;
        Ok(())
    }

    /// The message comes, if it is the next on way k. It says whether it is.
    pub fn take(&mut self, k: u32, m: &Message) -> bool
        ensures next { IsTrue result ↔ is_next m.now (messages k self.old) }
        ensures taken { IsTrue result → ChangesWay k (without_first (messages k self.old)) (is_way_ended k self.old) self.old self.new }
    {
        match self.find_next(k, m) {
            Some(p) => {
                let way = &mut self.rows[p];
                let _ = way.messages.pop_front();
                true
            }
            None => false,
        }
    }

    /// A loss keeps so many messages on way k.
    pub fn keep(&mut self, k: u32, kept: usize)
        ensures { ChangesWay k (take kept (messages k self.old)) (is_way_ended k self.old) self.old self.new }
    {
        if let Some(p) = self.find(k) {
            let way = &mut self.rows[p];
            way.messages.truncate(kept);
        }
    }

    /// The end of way k is seen.
    pub fn end(&mut self, k: u32)
        ensures { ChangesWay k (messages k self.old) true self.old self.new }
    {
        if let Some(p) = self.find(k) {
            let way = &mut self.rows[p];
            way.ended = true;
        }
    }
}
