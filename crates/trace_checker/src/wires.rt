//! What the connections carry.
ghost use Rattle.std.specs.Prelude.{◌≡◌, List, [], ◌∷◌, ◌&&◌, ◌↔◌, true, false, IfOk, IsTrue, OnOk};
ghost use Rattle.dtx_values.specs.declared.entry.Entry.{Entry as AnEntry};
ghost use Rattle.dtx_values.specs.declared.entry.Entry.TheVariants.{Sent, Got, Cut, Down, Stopped, Restarted};
ghost use Rattle.dtx_values.specs.declared.message.Dir.TheVariants.{Up};
ghost use Rattle.dtx_values.specs.Lines.{has_line, is_opening};
ghost use Rattle.dtx_values.specs.Ends.{same_direction};
ghost use Rattle.dtx_model.specs.Wires.{MayCross};
ghost use Rattle.trace_checker.specs.Connections.{number_of};

use crate::intact::Intact;
use crate::names::Names;
use crate::ways::Ways;
use dtx_values::{Conn, Dir, Entry, Message, has_line, is_opening};
use std::alloc::{AllocError, Global};

/// The number of connection c in tables: b, v, and two for each enlistment, of its own connection and of the one on which it came
/// back. So the tables are short where the enlistments' numbers are low.
#[inline(always)]
fn number(c: Conn) -> u32
    ensures { result ≡ number_of c }
{
    match c {
        Conn::Begin => 0,
        Conn::Voter => 1,
        Conn::Enl(e) => 2 * e.get(),
        Conn::Again(e) => 2 * e.get() + 1,
    }
}

/// Whether the message has a line on connection c in this direction. One that opens the connection has, and that is found sooner.
#[inline(always)]
pub fn may_carry(c: Conn, d: Dir, m: &Message) -> bool
    ensures { result ≡ has_line c d m.now }
{
    (d == Dir::Up && is_opening(c, *m)) || has_line(c, d, *m)
}

/// What the connections of a transaction carry.
#[derive(Drop)]
pub struct Wires {
    /// The coordinator stands stopped.
    stopped: bool,
    /// The connections that were opened, by number.
    opened: Names,
    /// Those that aren't lost since.
    intact: Intact,
    upward: Ways,
    downward: Ways,
}

impl Wires {
    ghost use Rattle.trace_checker.specs.Wires.{IsWiresOf, is_intact, is_opened, may_end_in, ways_to};

    /// No connection was opened.
    pub fn new(alloc: Global) -> Wires
        ensures { IsWiresOf [] result }
    {
        Wires {
            stopped: false,
            opened: Names::new(alloc),
            intact: Intact::new(alloc),
            upward: Ways::new(alloc),
            downward: Ways::new(alloc),
        }
    }

    /// The ways that lead there.
    fn ways(&self, d: Dir) -> &Ways
        ensures { result.now ≡ ways_to d self.now }
    {
        match d {
            Dir::Up => &self.upward,
            Dir::Down => &self.downward,
        }
    }

    /// Whether connection c was opened and isn't lost since.
    fn is_open(&self, c: Conn) -> bool
        ensures { result ≡ (is_opened c self.now && is_intact c self.now) }
    {
        self.opened.contains(number(c)) && self.intact.contains(number(c))
    }

    /// Whether the end of connection c may be seen on the side to which d leads.
    fn may_end(&self, c: Conn, d: Dir) -> bool
        ensures { result ≡ may_end_in c d self.now }
    {
        let ways = self.ways(d);
        let k = number(c);
        self.opened.contains(k) && !self.intact.contains(k) && ways.is_empty(k) && !ways.is_ended(k)
    }

    /// Connection c is opened with this message. While the coordinator stands stopped it is lost at once.
    fn open(&mut self, c: Conn, m: &Message) -> Result<(), AllocError>
        ensures { OnOk result ((h : List AnEntry) → is_opening c m.now ≡ true → IsWiresOf h self.old → IsWiresOf (Sent c Up m.now ∷ h) self.new) }
    {
        let k = number(c);
        self.opened.add(k)?;
        self.downward.open(k)?;
        if self.stopped {
            self.intact.remove(k);
            self.upward.close(k);
            return Ok(());
        }
        self.intact.add(k)?;
        self.upward.open_with(k, m)
    }

    /// The message is sent on connection c, which it doesn't open: on one that isn't open it is dropped.
    fn send(&mut self, c: Conn, d: Dir, m: &Message) -> Result<(), AllocError>
        ensures { OnOk result ((h : List AnEntry) → (same_direction d Up && is_opening c m.now) ≡ false → IsWiresOf h self.old → IsWiresOf (Sent c d m.now ∷ h) self.new) }
    {
        if !self.is_open(c) {
            return Ok(());
        }
        let k = number(c);
        match d {
            Dir::Up => self.upward.send(k, m),
            Dir::Down => self.downward.send(k, m),
        }
    }

    /// The message, which has a line, comes on connection c if it is the next there. It says whether it is.
    #[inline(always)]
    fn take(&mut self, c: Conn, d: Dir, m: &Message) -> bool
        ensures next { (h : List AnEntry) → IsWiresOf h self.old → IsTrue result ↔ MayCross h (Got c d m.now) }
        ensures taken { IsTrue result → (h : List AnEntry) → has_line c d m.now ≡ true → IsWiresOf h self.old → IsWiresOf (Got c d m.now ∷ h) self.new }
    {
        match d {
            Dir::Up => self.upward.take(number(c), m),
            Dir::Down => self.downward.take(number(c), m),
        }
    }

    /// The end of connection c is seen on the side to which d leads.
    fn end(&mut self, c: Conn, d: Dir)
        ensures { (h : List AnEntry) → IsWiresOf h self.old → IsWiresOf (Down c d ∷ h) self.new }
    {
        match d {
            Dir::Up => self.upward.end(number(c)),
            Dir::Down => self.downward.end(number(c)),
        }
    }

    /// Connection c is lost, and so many messages are kept in each direction.
    fn cut(&mut self, c: Conn, up: usize, down: usize)
        ensures { (h : List AnEntry) → IsWiresOf h self.old → IsWiresOf (Cut c up down ∷ h) self.new }
    {
        let k = number(c);
        self.intact.remove(k);
        self.upward.keep(k, up);
        self.downward.keep(k, down);
    }

    /// Each connection is lost, and the coordinator sees no end of it any more.
    fn stop(&mut self)
        ensures { (h : List AnEntry) → IsWiresOf h self.old → IsWiresOf (Stopped ∷ h) self.new }
    {
        self.stopped = true;
        self.intact.clear();
        self.upward.close_all();
    }

    /// The message is got on connection c, if it is the next there. It says whether it is. One that has no line is the loss of the
    /// connection, and its end on this side.
    #[inline(always)]
    fn come(&mut self, c: Conn, d: Dir, m: &Message) -> bool
        ensures next { (h : List AnEntry) → IsWiresOf h self.old → IsTrue result ↔ MayCross h (Got c d m.now) }
        ensures got { IsTrue result → (h : List AnEntry) → IsWiresOf h self.old → IsWiresOf (Got c d m.now ∷ h) self.new }
    {
        if may_carry(c, d, m) {
            return self.take(c, d, m);
        }
        if !self.ways(d).is_next(number(c), m) {
            return false;
        }
        self.cut(c, 0, 0);
        self.end(c, d);
        true
    }

    /// Notes the entry, if what is got by it is the next on the way, and an end that is seen by it may come. It says whether that is so.
    #[inline(always)]
    pub fn cross(&mut self, x: &Entry) -> Result<bool, AllocError>
        ensures may { IfOk result (λ r. (h : List AnEntry) → IsWiresOf h self.old → IsTrue r ↔ MayCross h x.now) }
        ensures noted { IfOk result (λ r. IsTrue r → (h : List AnEntry) → IsWiresOf h self.old → IsWiresOf (x.now ∷ h) self.new) }
    {
        match *x {
            Entry::Sent(c, d, m) => {
                if d == Dir::Up && is_opening(c, m) {
                    self.open(c, &m)?;
                } else {
                    self.send(c, d, &m)?;
                }
            }
            Entry::Got(c, d, m) => return Ok(self.come(c, d, &m)),
            Entry::Cut(c, up, down) => self.cut(c, up as usize, down as usize),
            Entry::Down(c, d) => {
                if !self.may_end(c, d) {
                    return Ok(false);
                }
                self.end(c, d);
            }
            Entry::Stopped => self.stop(),
            Entry::Restarted(_) => self.stopped = false,
            _ => {}
        }
        Ok(true)
    }
}
