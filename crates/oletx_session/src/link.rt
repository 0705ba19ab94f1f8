//! Links: what is known of a connection beside what is on the way.
ghost use Rattle.std.specs.Prelude.{◌≡◌, ◌≤◌, ◌+◌, Some, IfNone, IfSome, OnErr, OnOk, is_some, length, map, position, vec_capacity, vec_len};
ghost use Rattle.std.specs.Bool.{OnFalse, OnTrue};
ghost use Rattle.dtx_model.specs.Wires.{same_connection};
ghost use Rattle.oletx_session.specs.Queues.{Changes, ended_in, has_ended, is_ending, is_of, link_of, lost_link, new_link, stopped_link};

use dtx_values::{Conn, Dir};
use std::alloc::AllocError;

/// What is known of a connection since it was started last.
#[derive(Clone, Copy)]
pub struct Link {
    pub connection: Conn,
    pub lost: bool,
    /// Whether the coordinator saw the connection's end.
    pub up_ended: bool,
    /// Whether the local side saw it.
    pub down_ended: bool,
}

impl Link {
    /// The link of a connection that was just started.
    pub(crate) fn new(c: Conn) -> Self
        ensures { result ≡ new_link c }
    {
        Link {
            connection: c,
            lost: false,
            up_ended: false,
            down_ended: false,
        }
    }

    /// Whether the side that gets in this direction saw the connection's end.
    pub(crate) fn has_ended(&self, d: Dir) -> bool
        ensures { result ≡ has_ended d self.now }
    {
        match d {
            Dir::Up => self.up_ended,
            Dir::Down => self.down_ended,
        }
    }

    /// Whether the connection is lost, and its end wasn't seen in this direction.
    pub(crate) fn is_ending(&self, d: Dir) -> bool
        ensures { result ≡ is_ending d self.now }
    {
        self.lost && !self.has_ended(d)
    }

    /// The link once the connection is lost.
    pub(crate) fn lost(self) -> Self
        ensures { result ≡ lost_link self }
    {
        Link { lost: true, ..self }
    }

    /// The link once the coordinator has stopped: lost, and the coordinator sees no end of it.
    pub(crate) fn stopped(self) -> Self
        ensures { result ≡ stopped_link self }
    {
        Link {
            lost: true,
            up_ended: true,
            ..self
        }
    }

    /// The link with the connection's end seen in this direction.
    pub(crate) fn ended_in(self, d: Dir) -> Self
        ensures { result ≡ ended_in d self }
    {
        match d {
            Dir::Up => Link {
                up_ended: true,
                ..self
            },
            Dir::Down => Link {
                down_ended: true,
                ..self
            },
        }
    }
}

/// Whether both are the same connection.
pub(crate) fn is_same(c: Conn, d: Conn) -> bool
    ensures { result ≡ same_connection c d }
{
    c == d
}

/// The link of a connection, where it was started.
pub(crate) fn link_of(links: &[Link], c: Conn) -> Option<Link>
    ensures { result ≡ link_of c links.now }
{
    links
        .iter()
        .copied()
        .find(|link| is_same(c, link.connection))
}

/// The place of the link of a connection.
fn place_of(links: &[Link], c: Conn) -> Option<usize>
    ensures { result ≡ position (is_of c) links.now }
{
    links.iter().position(|link| is_same(c, link.connection))
}

/// Puts a link in the place of that of its connection, and says whether there was one.
pub(crate) fn replace(links: &mut Vec<Link>, link: Link) -> bool
    ensures found { result ≡ is_some (link_of link.connection links.old.items) }
    ensures changed { OnTrue result (Changes link.connection link links.old.items links.new.items) }
    ensures same { OnFalse result (links.new.items ≡ links.old.items) }
    ensures len { vec_len links.new ≡ vec_len links.old }
    ensures capacity { vec_capacity links.old ≤ vec_capacity links.new }
{
    match place_of(links, link.connection) {
        Some(place) => {
            links[place] = link;
            true
        }
        None => false,
    }
}

/// Puts a link in the place of that of its connection, or behind the others.
pub(crate) fn put(links: &mut Vec<Link>, link: Link) -> Result<(), AllocError>
    ensures changed { OnOk result (Changes link.connection link links.old.items links.new.items) }
    ensures same { OnErr result (links.new.items ≡ links.old.items) }
    ensures full { OnErr result (vec_capacity links.old ≤ vec_len links.old) }
    ensures few { vec_len links.new ≤ vec_len links.old + 1 }
    ensures capacity { vec_capacity links.old ≤ vec_capacity links.new }
{
    if !replace(links, link) {
        links.push(link)?;
    }
    Ok(())
}

/// Makes each link that of a stopped coordinator.
pub(crate) fn stop_all(links: &mut Vec<Link>)
    ensures items { links.new.items ≡ map stopped_link links.old.items }
    ensures len { vec_len links.new ≡ vec_len links.old }
    ensures capacity { vec_capacity links.old ≤ vec_capacity links.new }
{
    for link in links.iter_mut() {
        *link = link.stopped();
    }
}
