//! Messages as the parts of their frames.
ghost use Rattle.std.specs.Prelude.{◌≡◌};
ghost use Rattle.dtx_model.specs.Frames.{frame, frame_of};
ghost use Rattle.oletx_frames.specs.Bodies.{body_bytes};

use dtx_values::{Info, Message};

/// What the body of a frame says.
#[derive(Clone, Copy)]
pub enum Body {
    Empty,
    Identifier(u128),
    Information(Info),
    Reason(u8),
}

/// The type of a message's connection, its tag and its body.
#[tactic(auto, unfolding(dtx_model::specs::Frames::frame_of))]
pub fn parts(m: &Message) -> (u8, u8, Body)
    ensures { frame_of m.now ≡ frame result.0 result.1 (body_bytes result.2) }
{
    match m {
        Message::BeginBegin => (1, 1, Body::Empty),
        Message::BeginCommit => (1, 2, Body::Empty),
        Message::BeginAbort => (1, 3, Body::Empty),
        Message::BeginBegun(id) => (1, 4, Body::Identifier(*id)),
        Message::BeginCommitted => (1, 5, Body::Empty),
        Message::BeginAborted => (1, 6, Body::Empty),
        Message::BeginCommitOne => (1, 7, Body::Empty),
        Message::BeginInDoubt => (1, 8, Body::Empty),
        Message::VoterVoter(id) => (2, 1, Body::Identifier(*id)),
        Message::VoterYes => (2, 2, Body::Empty),
        Message::VoterNo => (2, 3, Body::Empty),
        Message::VoterCreated => (2, 4, Body::Empty),
        Message::VoterRefused(cause) => (2, 5, Body::Reason(*cause)),
        Message::VoterAsk => (2, 6, Body::Empty),
        Message::VoterCommit => (2, 7, Body::Empty),
        Message::VoterAbort => (2, 8, Body::Empty),
        Message::VoterInDoubt => (2, 9, Body::Empty),
        Message::EnlistEnlist(info) => (3, 1, Body::Information(*info)),
        Message::EnlistPrepared => (3, 2, Body::Empty),
        Message::EnlistNo => (3, 3, Body::Empty),
        Message::EnlistReadonly => (3, 4, Body::Empty),
        Message::EnlistAck => (3, 5, Body::Empty),
        Message::EnlistEnlisted => (3, 6, Body::Empty),
        Message::EnlistRefused(cause) => (3, 7, Body::Reason(*cause)),
        Message::EnlistPrepare => (3, 8, Body::Empty),
        Message::EnlistCommit => (3, 9, Body::Empty),
        Message::EnlistAbort => (3, 10, Body::Empty),
        Message::EnlistSingle => (3, 11, Body::Empty),
        Message::EnlistOneCommitted => (3, 12, Body::Empty),
        Message::EnlistOneAborted => (3, 13, Body::Empty),
        Message::EnlistOneInDoubt => (3, 14, Body::Empty),
        Message::ReenlistReenlist(info) => (4, 1, Body::Information(*info)),
        Message::ReenlistAck => (4, 2, Body::Empty),
        Message::ReenlistCommitted => (4, 3, Body::Empty),
        Message::ReenlistAborted => (4, 4, Body::Empty),
    }
}
