//! The pieces on the way.
ghost use Rattle.std.specs.Prelude.{◌≡◌, ◌≤◌, ◌<◌, [], ◌∷◌, IfNone, IfSome, OnSome, filter, length, min, position, take, vec_capacity, vec_len};
ghost use Rattle.std.specs.List.{list_any};
ghost use Rattle.oletx_session.specs.Queues.{AreSameElse, goes, is_on, on_way};

use crate::link::is_same;
use crate::piece::Piece;
use dtx_values::{Conn, Dir};

/// Whether the piece is on this connection in this direction.
pub(crate) fn is_on(piece: &Piece, c: Conn, d: Dir) -> bool
    ensures { result ≡ is_on c d piece.now }
{
    is_same(c, piece.connection) && d == piece.direction
}

/// Whether some piece is on this connection in this direction.
pub(crate) fn is_any_on(pieces: &[Piece], c: Conn, d: Dir) -> bool
    ensures { result ≡ list_any (is_on c d) pieces.now }
{
    pieces.iter().any(|piece| is_on(piece, c, d))
}

/// The place of the first piece on this connection in this direction.
fn first_on(pieces: &[Piece], c: Conn, d: Dir) -> Option<usize>
    ensures { result ≡ position (is_on c d) pieces.now }
{
    pieces.iter().position(|piece| is_on(piece, c, d))
}

/// Takes out the first piece on this connection in this direction.
pub(crate) fn take_first(pieces: &mut Vec<Piece>, c: Conn, d: Dir) -> Option<Piece>
    ensures none { IfNone result (on_way c d pieces.old.items ≡ []) }
    ensures unchanged { IfNone result (pieces.new ≡ pieces.old) }
    ensures first { IfSome result (λ p. on_way c d pieces.old.items ≡ p ∷ on_way c d pieces.new.items) }
    ensures others { OnSome result (AreSameElse c d pieces.old.items pieces.new.items) }
    ensures fewer { OnSome result (vec_len pieces.new < vec_len pieces.old) }
    ensures few { vec_len pieces.new ≤ vec_len pieces.old }
    ensures capacity { vec_capacity pieces.old ≤ vec_capacity pieces.new }
{
    let place = first_on(pieces, c, d)?;
    Some(pieces.remove(place))
}

/// Keeps the first pieces on this connection in this direction, so many as there are or as are to be kept.
pub(crate) fn keep_first(pieces: &mut Vec<Piece>, c: Conn, d: Dir, keep: usize)
    ensures kept { on_way c d pieces.new.items ≡ take keep (on_way c d pieces.old.items) }
    ensures others { AreSameElse c d pieces.old.items pieces.new.items }
    ensures few { vec_len pieces.new ≤ vec_len pieces.old }
    ensures capacity { vec_capacity pieces.old ≤ vec_capacity pieces.new }
{
    let mut kept = 0;
    let mut place = 0;
    while place < pieces.len() {
        if !is_on(&pieces[place], c, d) {
            place += 1;
        } else if kept < keep {
            kept += 1;
            place += 1;
        } else {
            // What is lost is dropped: nobody gets it.
            let _ = pieces.remove(place);
        }
    }
}

/// Whether the piece goes in this direction.
fn goes(piece: &Piece, d: Dir) -> bool
    ensures { result ≡ goes d piece.now }
{
    d == piece.direction
}

/// Keeps the pieces that go in this direction alone.
pub(crate) fn keep_direction(pieces: &mut Vec<Piece>, d: Dir)
    ensures kept { pieces.new.items ≡ filter (goes d) pieces.old.items }
    ensures few { vec_len pieces.new ≤ vec_len pieces.old }
    ensures capacity { vec_capacity pieces.old ≤ vec_capacity pieces.new }
{
    pieces.retain(|piece| goes(piece, d));
}
