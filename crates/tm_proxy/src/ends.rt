//! What is noted at the end of a connection.
ghost use Rattle.std.specs.Prelude.{◌≡◌, map};
ghost use Rattle.dtx_values.specs.Ends.{is_end_of, note_end, note_got, note_sent, tag_of};

use crate::tags::with_message;
use dtx_values::{Conn, End, Message};

/// Whether it is the end of this connection.
pub fn is_end_of(c: Conn, n: &End) -> bool
    ensures { result ≡ is_end_of c n.now }
{
    c == n.connection
}

/// Notes that the message was sent, where it is the end of c.
fn note_sent_at(n: &mut End, c: Conn, m: &Message)
    ensures { n.new ≡ note_sent c (tag_of m.now) n.old }
{
    if is_end_of(c, n) {
        n.sent = with_message(n.sent, m);
    }
}

/// Notes that the message was sent on c.
pub fn note_sent(ends: &mut [End], c: Conn, m: &Message)
    ensures { ends.new ≡ map (note_sent c (tag_of m.now)) ends.old }
{
    for n in ends.iter_mut() {
        note_sent_at(n, c, m);
    }
}

/// Notes that the message was got, where it is the end of c.
fn note_got_at(n: &mut End, c: Conn, m: &Message)
    ensures { n.new ≡ note_got c (tag_of m.now) n.old }
{
    if is_end_of(c, n) {
        n.got = with_message(n.got, m);
    }
}

/// Notes that the message was got on c.
pub fn note_got(ends: &mut [End], c: Conn, m: &Message)
    ensures { ends.new ≡ map (note_got c (tag_of m.now)) ends.old }
{
    for n in ends.iter_mut() {
        note_got_at(n, c, m);
    }
}

/// Notes that the connection ended, where it is the end of c.
fn note_end_at(n: &mut End, c: Conn)
    ensures { n.new ≡ note_end c n.old }
{
    if is_end_of(c, n) {
        n.ended = true;
    }
}

/// Notes that c ended.
pub fn note_end(ends: &mut [End], c: Conn)
    ensures { ends.new ≡ map (note_end c) ends.old }
{
    for n in ends.iter_mut() {
        note_end_at(n, c);
    }
}
