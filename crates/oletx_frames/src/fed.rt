//! What a reader of frames answers to a piece.
use crate::refusal::FrameRefusal;
use dtx_values::Message;

/// What [`FrameReader::feed`](crate::FrameReader::feed) answers to a piece.
#[derive(Clone, Copy, PartialEq, Eq, Debug)]
pub enum Fed {
    /// The whole piece was taken, and the frame isn't whole yet.
    More,
    /// The frame of this message is whole.
    Msg(Message),
    /// The bytes aren't a frame, whatever comes after them. It is never [`FrameRefusal::Short`].
    Bad(FrameRefusal),
}
