//! What the type and the tag of a frame say: a table for each type.
ghost use Rattle.std.specs.Prelude.{◌≡◌, IfSome};
ghost use Rattle.std.specs.Option.{option_map};
ghost use Rattle.dtx_model.specs.Frames.{begin_body, body_kind, body_length, enlist_body, reenlist_body, voter_body};
ghost use Rattle.oletx_frames.specs.Shapes.{IsHead, kind_of};

use dtx_values::Message;

/// The message of a frame without a body, or which message a frame's body makes.
#[derive(Clone, Copy)]
pub enum Shape {
    Plain(Message),
    Begun,
    Voter,
    VoterRefused,
    Enlist,
    EnlistRefused,
    Reenlist,
}

/// The shape of the frame of this type and tag, where the table has it.
pub fn shape_of(connection: u8, tag: u8) -> Option<Shape>
    ensures kind { option_map kind_of result ≡ body_kind connection tag }
    ensures head { IfSome result (λ s. IsHead connection tag s) }
{
    match connection {
        1 => begin(tag),
        2 => voter(tag),
        3 => enlist(tag),
        4 => reenlist(tag),
        _ => None,
    }
}

/// The frames of type 1.
#[tactic(auto, unfolding(dtx_model::specs::Frames::frame_of))]
fn begin(tag: u8) -> Option<Shape>
    ensures kind { option_map kind_of result ≡ begin_body tag }
    ensures head { IfSome result (λ s. IsHead 1 tag s) }
{
    match tag {
        1 => Some(Shape::Plain(Message::BeginBegin)),
        2 => Some(Shape::Plain(Message::BeginCommit)),
        3 => Some(Shape::Plain(Message::BeginAbort)),
        4 => Some(Shape::Begun),
        5 => Some(Shape::Plain(Message::BeginCommitted)),
        6 => Some(Shape::Plain(Message::BeginAborted)),
        7 => Some(Shape::Plain(Message::BeginCommitOne)),
        8 => Some(Shape::Plain(Message::BeginInDoubt)),
        _ => None,
    }
}

/// The frames of type 2.
#[tactic(auto, unfolding(dtx_model::specs::Frames::frame_of))]
fn voter(tag: u8) -> Option<Shape>
    ensures kind { option_map kind_of result ≡ voter_body tag }
    ensures head { IfSome result (λ s. IsHead 2 tag s) }
{
    match tag {
        1 => Some(Shape::Voter),
        2 => Some(Shape::Plain(Message::VoterYes)),
        3 => Some(Shape::Plain(Message::VoterNo)),
        4 => Some(Shape::Plain(Message::VoterCreated)),
        5 => Some(Shape::VoterRefused),
        6 => Some(Shape::Plain(Message::VoterAsk)),
        7 => Some(Shape::Plain(Message::VoterCommit)),
        8 => Some(Shape::Plain(Message::VoterAbort)),
        9 => Some(Shape::Plain(Message::VoterInDoubt)),
        _ => None,
    }
}

/// The frames of type 3.
#[tactic(auto, unfolding(dtx_model::specs::Frames::frame_of))]
fn enlist(tag: u8) -> Option<Shape>
    ensures kind { option_map kind_of result ≡ enlist_body tag }
    ensures head { IfSome result (λ s. IsHead 3 tag s) }
{
    match tag {
        1 => Some(Shape::Enlist),
        2 => Some(Shape::Plain(Message::EnlistPrepared)),
        3 => Some(Shape::Plain(Message::EnlistNo)),
        4 => Some(Shape::Plain(Message::EnlistReadonly)),
        5 => Some(Shape::Plain(Message::EnlistAck)),
        6 => Some(Shape::Plain(Message::EnlistEnlisted)),
        7 => Some(Shape::EnlistRefused),
        8 => Some(Shape::Plain(Message::EnlistPrepare)),
        9 => Some(Shape::Plain(Message::EnlistCommit)),
        10 => Some(Shape::Plain(Message::EnlistAbort)),
        11 => Some(Shape::Plain(Message::EnlistSingle)),
        12 => Some(Shape::Plain(Message::EnlistOneCommitted)),
        13 => Some(Shape::Plain(Message::EnlistOneAborted)),
        14 => Some(Shape::Plain(Message::EnlistOneInDoubt)),
        _ => None,
    }
}

/// The frames of type 4.
#[tactic(auto, unfolding(dtx_model::specs::Frames::frame_of))]
fn reenlist(tag: u8) -> Option<Shape>
    ensures kind { option_map kind_of result ≡ reenlist_body tag }
    ensures head { IfSome result (λ s. IsHead 4 tag s) }
{
    match tag {
        1 => Some(Shape::Reenlist),
        2 => Some(Shape::Plain(Message::ReenlistAck)),
        3 => Some(Shape::Plain(Message::ReenlistCommitted)),
        4 => Some(Shape::Plain(Message::ReenlistAborted)),
        _ => None,
    }
}

impl Shape {
    /// The length of the body of its frames.
    pub fn body_length(self) -> usize
        ensures { result ≡ body_length (kind_of self) }
    {
        match self {
            Shape::Plain(_) => 0,
            Shape::Begun | Shape::Voter => 16,
            Shape::Enlist | Shape::Reenlist => 36,
            Shape::VoterRefused | Shape::EnlistRefused => 1,
        }
    }
}
