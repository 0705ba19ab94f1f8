//! Reads messages from frames.
ghost use Rattle.std.specs.Prelude.{◌≡◌, ◌≤◌, ◌+◌, ◌++◌, ℕ, List, Some, Ok, true, length, take, drop, slice_index, IfErr, IfOk};
ghost use Rattle.std.specs.Int.{w16, to_le_bytes};
ghost use Rattle.dtx_values.specs.declared.message.Message.{Message};
ghost use Rattle.dtx_model.specs.Frames.{IsFrame, bad_place, body_fault, body_length, field_fault, frame_fault, frame_of, is_valid};
ghost use Rattle.oletx_frames.specs.Refusals.{IsPlaced, fault_of};
ghost use Rattle.oletx_frames.specs.Shapes.{IsHead, kind_of};

use crate::refusal::FrameRefusal;
use crate::shape::{Shape, shape_of};
use dtx_values::Message;

/// Reads the message whose frame the bytes begin with, and gives the length of the frame.
///
/// # Errors
///
/// The first fault of the bytes, looked for from the left: no type, no tag, another length than the body's, too few bytes, or a bad field.
pub fn decode(b: &[u8]) -> Result<(Message, usize), FrameRefusal>
    ensures frame { IfOk result (λ r. (r.1 ≤ length b.now) × IsFrame (take r.1 b.now) r.0) }
    ensures read { (m : Message) (rest : List ℕ) → is_valid m ≡ true → b.now ≡ frame_of m ++ rest → result ≡ Ok (m, length (frame_of m)) }
    ensures refused { IfErr result (λ e. frame_fault b.now ≡ Some (fault_of e)) }
    ensures places { IfErr result (λ e. IsPlaced e) }
{
    let shape = shape(b)?;
    let body = body(b, shape)?;
    match shape.message(body) {
        Ok(m) => Ok((m, 4 + shape.body_length())),
        Err(place) => Err(FrameRefusal::BadValue(4 + place)),
    }
}

/// The shape of the frame that the bytes begin with, by its type and tag.
fn shape(b: &[u8]) -> Result<Shape, FrameRefusal>
    ensures long { IfOk result (λ s. 2 ≤ length b.now) }
    ensures head { IfOk result (λ s. IsHead (slice_index b.now 0) (slice_index b.now 1) s) }
    ensures next { IfOk result (λ s. frame_fault b.now ≡ body_fault b.now (kind_of s)) }
    ensures refused { IfErr result (λ e. frame_fault b.now ≡ Some (fault_of e)) }
    ensures places { IfErr result (λ e. IsPlaced e) }
{
    if b.is_empty() {
        return Err(FrameRefusal::Short(0));
    }
    if !(1..=4).contains(&b[0]) {
        return Err(FrameRefusal::BadType(0));
    }
    if b.len() == 1 {
        return Err(FrameRefusal::Short(1));
    }
    shape_of(b[0], b[1]).ok_or(FrameRefusal::BadTag(1))
}

/// The body of the frame of this shape that the bytes begin with, whose fields may still be bad.
fn body(b: &[u8], shape: Shape) -> Result<&[u8], FrameRefusal>
    ensures length { IfOk result (λ body. length body.now ≡ body_length (kind_of shape)) }
    ensures long { IfOk result (λ body. 4 + body_length (kind_of shape) ≤ length b.now) }
    ensures counted { IfOk result (λ body. take 2 (drop 2 b.now) ≡ to_le_bytes w16 (body_length (kind_of shape))) }
    ensures cut { IfOk result (λ body. body.now ≡ take (body_length (kind_of shape)) (drop 4 b.now)) }
    ensures next { IfOk result (λ body. body_fault b.now (kind_of shape) ≡ field_fault (bad_place (kind_of shape) body.now)) }
    ensures refused { IfErr result (λ e. body_fault b.now (kind_of shape) ≡ Some (fault_of e)) }
    ensures places { IfErr result (λ e. IsPlaced e) }
{
    if b.len() < 4 {
        return Err(FrameRefusal::Short(b.len()));
    }
    let length = shape.body_length();
    if usize::from(u16::from_le_bytes([b[2], b[3]])) != length {
        return Err(FrameRefusal::BadLength(2));
    }
    if b.len() < 4 + length {
        return Err(FrameRefusal::Short(b.len()));
    }
    Ok(&b[4..4 + length])
}
