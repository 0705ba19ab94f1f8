//! Reads messages from frames that come in pieces.
ghost use Rattle.std.specs.Prelude.{◌≡◌, ◌≢◌, ◌↔◌, ◌<◌, ◌≤◌, ◌+◌, ◌++◌, ℕ, [], Some, None, true, length, take, IsSome, MatchOption};
ghost use Rattle.dtx_values.specs.declared.message.Message.{Message};
ghost use Rattle.oletx_frames.specs.declared.fed.Fed.{Fed};
ghost use Rattle.oletx_frames.specs.declared.refusal.FrameRefusal.{FrameRefusal};
ghost use Rattle.oletx_frames.specs.Feeding.{Completes, Continues, Feeds, Gives, IsAtFault, IsBegun, IsRefused, Spoils, holding, is_final, left_after};

use crate::fed::Fed;
use crate::reader::decode;
use crate::refusal::FrameRefusal;
use std::marker::Model;

/// Reads messages from frames that come in pieces, and takes no memory. It holds the bytes of a frame that isn't whole yet, at most 39.
///
/// A clause sees the bytes that it holds and the refusal that ended it.
#[derive(Drop)]
pub struct FrameReader {
    /// Room for the longest frame.
    bytes: [u8; 40],
    /// How many of them are held: fewer than the longest frame has.
    count: usize,
    ended: Option<FrameRefusal>,
}

impl Model for FrameReader {
    ghost use Rattle.std.specs.Prelude.{◌≡◌, ◌<◌, take, IsSome};
    ghost use Rattle.oletx_frames.specs.Feeding.{IsBegun, Reading};

    ghost Value = { Reading };

    ghost view = { λ r. record { held = take r.count r.bytes; ended = r.ended } };

    ghost invariant = { λ r. (r.count < 40) × IsBegun (take r.count r.bytes) × (IsSome r.ended → r.count ≡ 0) };
}

impl FrameReader {
    /// A reader that holds nothing.
    pub fn new() -> FrameReader
        ensures { result ≡ holding [] }
    {
        FrameReader {
            bytes: [0; 40],
            count: 0,
            ended: None,
        }
    }

    /// Takes bytes of the piece up to the end of a frame, and gives how many it took and its answer. The bytes after these have no part in the answer.
    /// They are left for the next call. Where the answer is [`Fed::More`], the whole piece was taken.
    ///
    /// [`Fed::Bad`] comes with the byte that tells the fault: a type's, a tag's, the second of a length, and for a value the last of the frame. It ends the
    /// reader: each later call answers the same and takes nothing.
    pub fn feed(&mut self, piece: &[u8]) -> (usize, Fed)
        // a message comes exactly where what is held and what is taken are its frame
        ensures message { self.old.ended ≡ None → (n : ℕ) (m : Message) → (result ≡ (n, Fed.Msg m)) ↔ Completes self.old.held piece.now n m }
        // a refusal comes exactly with the byte that tells the fault
        ensures bad { self.old.ended ≡ None → (n : ℕ) (e : FrameRefusal) → (result ≡ (n, Fed.Bad e)) ↔ Spoils self.old.held piece.now n e }
        // more is wanted exactly where what is held and the whole piece begin a frame that isn't whole yet
        ensures more { self.old.ended ≡ None → (n : ℕ) → (result ≡ (n, Fed.More)) ↔ Continues self.old.held piece.now n }
        // a refusal ends the reader
        ensures ended { (e : FrameRefusal) → self.old.ended ≡ Some e → result ≡ (0, Fed.Bad e) }
        ensures after { self.new ≡ left_after self.old piece.now result.1 }
        // all this, as one relation of which the law on pieces speaks
        ensures feeds { Feeds self.old piece.now result self.new }
    {
        if let Some(refusal) = self.ended {
            return (0, Fed::Bad(refusal));
        }
        if self.count == 0
            && let Ok((m, length)) = decode(piece)
        {
            return (length, Fed::Msg(m));
        }
        self.go_on(piece)
    }

    /// Answers to a piece behind what is held.
    #[inline(never)]
    fn go_on(&mut self, piece: &[u8]) -> (usize, Fed)
        requires { self.old.ended ≡ None }
        ensures gives { Gives self.old.held piece.now result.0 result.1 }
        ensures after { self.new ≡ left_after self.old piece.now result.1 }
    {
        let given = put(&mut self.bytes, self.count, piece);
        match given.1 {
            Fed::More => self.count += given.0,
            Fed::Msg(_) => self.count = 0,
            Fed::Bad(refusal) => {
                self.count = 0;
                self.ended = Some(refusal);
            }
        }
        given
    }

    /// What the end of the bytes means: [`FrameRefusal::Short`] with how many are held, where that is any; they begin a frame that isn't whole.
    pub fn end(&self) -> Option<FrameRefusal>
        ensures short { MatchOption result (self.now.held ≡ []) (λ e. (e ≡ FrameRefusal.Short (length self.now.held)) × (self.now.held ≢ [])) }
        ensures ended { IsSome self.now.ended → result ≡ None }
        ensures begun { IsBegun self.now.held }
        ensures few { length self.now.held < 40 }
    {
        if self.count == 0 {
            None
        } else {
            Some(FrameRefusal::Short(self.count))
        }
    }
}

/// Answers to a piece behind the bytes that are held, and puts the piece there where more is wanted.
fn put(bytes: &mut [u8; 40], held: usize, piece: &[u8]) -> (usize, Fed)
    requires room { held < 40 }
    requires begun { IsBegun (take held bytes.old) }
    ensures gives { Gives (take held bytes.old) piece.now result.0 result.1 }
    ensures kept { result.1 ≡ Fed.More → take (held + result.0) bytes.new ≡ take held bytes.old ++ piece.now }
    ensures room { result.1 ≡ Fed.More → held + result.0 < 40 }
{
    let fit = piece.len().min(40 - held);
    bytes[held..held + fit].copy_from_slice(&piece[..fit]);
    let (all, answer) = told(&bytes[..held + fit]);
    (all - held, answer)
}

/// What a new reader answers to these bytes.
fn told(b: &[u8]) -> (usize, Fed)
    ensures { Gives [] b.now result.0 result.1 }
{
    match decode(b) {
        Ok((m, length)) => (length, Fed::Msg(m)),
        Err(FrameRefusal::Short(count)) => (count, Fed::More),
        Err(refusal) => (telling(b, refusal), Fed::Bad(refusal)),
    }
}

/// How many bytes tell this refusal of them.
fn telling(b: &[u8], refusal: FrameRefusal) -> usize
    requires refused { IsRefused b.now refusal }
    requires settled { is_final refusal ≡ true }
    ensures within { result ≤ length b.now }
    ensures told { IsAtFault (take result b.now) refusal }
{
    match refusal {
        FrameRefusal::Short(count) => count,
        FrameRefusal::BadType(_) => 1,
        FrameRefusal::BadTag(_) => 2,
        FrameRefusal::BadLength(_) => 4,
        FrameRefusal::BadValue(_) => 4 + usize::from(u16::from_le_bytes([b[2], b[3]])),
    }
}
