//! Frames that cross in pieces.
ghost use Rattle.std.specs.Prelude.{◌≡◌, ◌≤◌, ◌<◌, ◌+◌, ◌++◌, ℕ, IfNone, OnErr, OnOk, length, map, min, take, vec_capacity, vec_len};
ghost use Rattle.std.specs.List.{flat_map};
ghost use Rattle.dtx_values.specs.declared.message.Message.{Message};
ghost use Rattle.oletx_session.specs.Queues.{AreSameElse, bytes_in, on_way};
ghost use Rattle.oletx_session.specs.Crossing.{AreCutUp, Begins, Takes, cut, most_pieces, pieces_of};

use crate::piece::Piece;
use crate::queue::{is_on, keep_first, take_first};
use dtx_values::{Conn, Dir, Message};
use oletx_frames::{Fed, FrameReader, FrameRefusal};
use std::alloc::AllocError;

/// The most bytes of a frame.
pub(crate) const LONGEST: u8 = 40;

/// The most pieces that a frame has.
pub(crate) fn most_pieces(size: u8) -> usize
    requires { 1 ≤ size }
    ensures value { result ≡ most_pieces size }
    ensures some { 1 ≤ result }
    ensures few { result ≤ 40 }
{
    usize::from(LONGEST).div_ceil(usize::from(size))
}

/// Puts a frame behind what is on the way, in pieces of `size` bytes; all of it, or nothing where memory for all its pieces is wanting.
pub(crate) fn put_frame(
    pieces: &mut Vec<Piece>,
    c: Conn,
    d: Dir,
    frame: &[u8],
    size: u8,
) -> Result<(), AllocError>
    requires some { 1 ≤ size }
    requires short { length frame.now ≤ 40 }
    ensures put { OnOk result (map bytes_in (on_way c d pieces.new.items) ≡ map bytes_in (on_way c d pieces.old.items) ++ cut size frame.now) }
    ensures others { AreSameElse c d pieces.old.items pieces.new.items }
    ensures same { OnErr result (pieces.new.items ≡ pieces.old.items) }
    ensures full { OnErr result (vec_capacity pieces.old < vec_len pieces.old + most_pieces size) }
    ensures few { vec_len pieces.new ≤ vec_len pieces.old + most_pieces size }
    ensures capacity { vec_capacity pieces.old ≤ vec_capacity pieces.new }
{
    pieces.reserve(most_pieces(size))?;
    // There is room now, so no push fails.
    for part in frame.chunks(usize::from(size)) {
        pieces.push(Piece::new(c, d, part))?;
    }
    Ok(())
}

/// Takes the pieces of the first frame on this connection in this direction, and gives the message that a reader makes of them. `None` where there are none.
pub(crate) fn take_message(
    pieces: &mut Vec<Piece>,
    c: Conn,
    d: Dir,
) -> Option<Result<Message, FrameRefusal>>
    // where whole frames are on the way, the first message is taken
    ensures takes { (n : ℕ) → 1 ≤ n → (whole : AreCutUp n (on_way c d pieces.old.items)) → Takes n result whole.messages (on_way c d pieces.new.items) }
    ensures unchanged { (n : ℕ) → 1 ≤ n → AreCutUp n (on_way c d pieces.old.items) → IfNone result (pieces.new.items ≡ pieces.old.items) }
    ensures others { AreSameElse c d pieces.old.items pieces.new.items }
    ensures few { vec_len pieces.new ≤ vec_len pieces.old }
    ensures capacity { vec_capacity pieces.old ≤ vec_capacity pieces.new }
{
    let mut reader = FrameReader::new();
    while let Some(piece) = take_first(pieces, c, d) {
        match reader.feed(piece.bytes()).1 {
            Fed::More => {}
            Fed::Msg(m) => return Some(Ok(m)),
            Fed::Bad(refusal) => return Some(Err(refusal)),
        }
    }
    reader.end().map(Err)
}

/// How many frames begin the pieces on this connection in this direction, at most `keep`, and how many pieces they have.
fn count_frames(pieces: &[Piece], c: Conn, d: Dir, keep: u32) -> (u32, usize)
    ensures { (n : ℕ) → 1 ≤ n → (whole : AreCutUp n (on_way c d pieces.now)) → Begins n keep whole.messages result }
{
    let mut reader = FrameReader::new();
    let mut frames = 0;
    let mut count = 0;
    for piece in pieces {
        if frames < keep && is_on(piece, c, d) {
            count += 1;
            if let Fed::Msg(_) = reader.feed(piece.bytes()).1 {
                frames += 1;
            }
        }
    }
    (frames, count)
}

/// Keeps the first frames on this connection in this direction, so many as there are or as are to be kept, and gives their number.
pub(crate) fn cut(pieces: &mut Vec<Piece>, c: Conn, d: Dir, keep: u32) -> u32
    ensures kept { (n : ℕ) → 1 ≤ n → (whole : AreCutUp n (on_way c d pieces.old.items))
        → map bytes_in (on_way c d pieces.new.items) ≡ flat_map (pieces_of n) (take keep whole.messages) }
    ensures count { (n : ℕ) → 1 ≤ n → (whole : AreCutUp n (on_way c d pieces.old.items)) → result ≡ min keep (length whole.messages) }
    ensures others { AreSameElse c d pieces.old.items pieces.new.items }
    ensures few { vec_len pieces.new ≤ vec_len pieces.old }
    ensures capacity { vec_capacity pieces.old ≤ vec_capacity pieces.new }
{
    let (frames, count) = count_frames(pieces, c, d, keep);
    keep_first(pieces, c, d, count);
    frames
}
