//! The laws of frames, as the contracts of functions with an empty body, so that what calls one has the law.
ghost use Rattle.std.specs.Prelude.{◌≡◌, ◌≢◌, ◌++◌, ℕ, List, [], true};
ghost use Rattle.std.specs.List.{concat, flat_map};
ghost use Rattle.dtx_values.specs.declared.message.Message.{Message};
ghost use Rattle.dtx_model.specs.Frames.{frame_of, is_valid};
ghost use Rattle.dtx_model.specs.Words.{each};
ghost use Rattle.oletx_frames.specs.declared.fed.Fed.{Fed};
ghost use Rattle.oletx_frames.specs.declared.refusal.FrameRefusal.{FrameRefusal};
ghost use Rattle.oletx_frames.specs.Feeding.{Feeding, IsBegun, IsRefused, Reading, holding, is_final, left_by, message_in};

/// No frame of a valid message begins the frame of another, whatever is after both. A law: the body is empty, and who calls this has the law in its
/// proof.
pub fn no_frame_begins_another()
    ensures { (m n : Message) (x y : List ℕ) → frame_of m ++ x ≡ frame_of n ++ y → is_valid m ≡ true → is_valid n ≡ true → m ≡ n }
{}

/// A part of the frame of a valid message begins a frame that isn't whole, and any refusal but Short stays, whatever bytes come after. A law: the body is
/// empty.
pub fn only_a_whole_frame_is_told()
    ensures part { (m : Message) (b rest : List ℕ) → is_valid m ≡ true → frame_of m ≡ b ++ rest → rest ≢ [] → IsBegun b }
    ensures stays { (b rest : List ℕ) (e : FrameRefusal) → IsRefused b e → is_final e ≡ true → IsRefused (b ++ rest) e }
{}

/// However the frames of valid messages and a rest that [`decode`](crate::decode) refuses are cut into pieces, a new reader that is fed these gives the
/// messages in order, and no others. In the end it holds the rest, where that is too short, and else the refusal ended it. A law: the body is empty.
pub fn pieces_give_the_messages()
    ensures in_order { (ms : List Message) (rest : List ℕ) (e : FrameRefusal) (pieces : List (List ℕ)) (calls : List (ℕ × Fed)) (end : Reading) → each is_valid ms ≡ true → IsRefused rest e
        → concat pieces ≡ flat_map frame_of ms ++ rest → Feeding (holding []) pieces calls end → (flat_map message_in calls ≡ ms) × (end ≡ left_by rest e) }
{}
