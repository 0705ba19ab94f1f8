//! What an entry does to a connection, and how many messages it leaves on the way.
ghost use Rattle.std.specs.Prelude.{◌≡◌, ◌<◌, ◌+◌, ◌^◌};
ghost use Rattle.dtx_model.specs.Wires.{ends, kept, loses, opens, same_connection};
ghost use Rattle.reenlist_recovery.specs.Connections.{count_after, count_got, count_opened, count_sent, count_stopped};

use dtx_values::{Conn, Dir, Entry, has_line, is_opening};

/// Whether both are the same connection.
fn is_same(c: Conn, d: Conn) -> bool
    ensures { result ≡ same_connection c d }
{
    c == d
}

/// Whether the entry opens this connection.
pub(crate) fn opens(c: Conn, x: &Entry) -> bool
    ensures { result ≡ opens c x.now }
{
    match *x {
        Entry::Sent(d, Dir::Up, m) => is_same(c, d) && is_opening(d, m),
        _ => false,
    }
}

/// Whether the entry loses this connection.
pub(crate) fn loses(c: Conn, x: &Entry) -> bool
    ensures { result ≡ loses c x.now }
{
    match *x {
        Entry::Stopped => true,
        Entry::Cut(d, _, _) => is_same(c, d),
        Entry::Got(d, r, m) => is_same(c, d) && !has_line(d, r, m),
        _ => false,
    }
}

/// Whether the coordinator sees this connection's end by the entry, or sees none any more.
pub(crate) fn ends_up(c: Conn, x: &Entry) -> bool
    ensures { result ≡ ends c Dir.Up x.now }
{
    match *x {
        Entry::Down(d, Dir::Up) => is_same(c, d),
        Entry::Got(d, Dir::Up, m) => is_same(c, d) && !has_line(d, Dir::Up, m),
        Entry::Stopped => true,
        _ => false,
    }
}

/// Whether the local side sees this connection's end by the entry.
pub(crate) fn ends_down(c: Conn, x: &Entry) -> bool
    ensures { result ≡ ends c Dir.Down x.now }
{
    match *x {
        Entry::Down(d, Dir::Down) => is_same(c, d),
        Entry::Got(d, Dir::Down, m) => is_same(c, d) && !has_line(d, Dir::Down, m),
        _ => false,
    }
}

/// How many messages a cut keeps in this direction.
fn kept(d: Dir, up: u32, down: u32) -> u64
    ensures { result ≡ kept d up down }
{
    match d {
        Dir::Up => u64::from(up),
        Dir::Down => u64::from(down),
    }
}

/// How many messages are on the way in this direction after an opening.
fn count_opened(d: Dir, stopped: bool) -> u64
    ensures { result ≡ count_opened d stopped }
{
    match d {
        Dir::Up => { if stopped { 0 } else { 1 } }
        Dir::Down => 0,
    }
}

/// How many messages are on the way after one more is sent.
fn count_sent(is_open: bool, n: u64) -> u64
    requires { n + 1 < 2 ^ 64 }
    ensures { result ≡ count_sent is_open n }
{
    if is_open { n + 1 } else { n }
}

/// How many messages are on the way after one is got, which comes in this direction or the other.
fn count_got(is_lined: bool, is_here: bool, n: u64) -> u64
    ensures { result ≡ count_got is_lined is_here n }
{
    if !is_lined {
        0
    } else if is_here {
        n.saturating_sub(1)
    } else {
        n
    }
}

/// How many messages are on the way in this direction after a stop.
fn count_stopped(d: Dir, n: u64) -> u64
    ensures { result ≡ count_stopped d n }
{
    match d {
        Dir::Up => 0,
        Dir::Down => n,
    }
}

/// How many messages are on the way on this connection in this direction after the entry.
pub(crate) fn count_after(c: Conn, d: Dir, stopped: bool, is_open: bool, x: &Entry, n: u64) -> u64
    requires { n + 1 < 2 ^ 64 }
    ensures { result ≡ count_after c d stopped is_open x.now n }
{
    if opens(c, x) {
        return count_opened(d, stopped);
    }
    match *x {
        Entry::Sent(e, r, _) => {
            if is_same(c, e) && d == r {
                count_sent(is_open, n)
            } else {
                n
            }
        }
        Entry::Got(e, r, m) => {
            if is_same(c, e) {
                count_got(has_line(e, r, m), d == r, n)
            } else {
                n
            }
        }
        Entry::Cut(e, up, down) => {
            if is_same(c, e) {
                n.min(kept(d, up, down))
            } else {
                n
            }
        }
        Entry::Stopped => count_stopped(d, n),
        _ => n,
    }
}
