//! Writes messages as frames.
ghost use Rattle.std.specs.Prelude.{◌≡◌, ◌≤◌, ◌+◌, ◌++◌, length, take, drop};
ghost use Rattle.dtx_model.specs.Frames.{frame_of};
ghost use Rattle.oletx_frames.specs.Bodies.{body_bytes};

use crate::parts::{Body, parts};
use dtx_values::{Message, write_info};

/// Writes the frame of a message, and gives its length: the type of its connection, its tag, the length of its body (2 bytes, the lowest first)
/// and its body. The bytes after it stay.
pub fn encode(m: &Message, into: &mut [u8; 40]) -> usize
    ensures length { result ≡ length (frame_of m.now) }
    ensures frame { take result into.new ≡ frame_of m.now }
    ensures behind { drop result into.new ≡ drop result into.old }
{
    let (connection, tag, body) = parts(m);
    let length = write_body(&body, into);
    into[0] = connection;
    into[1] = tag;
    into[2..4].copy_from_slice(&length.to_le_bytes());
    4 + usize::from(length)
}

/// Writes a body after the four bytes of a frame's head, and gives its length.
#[tactic(auto, unfolding(dtx_values::specs::RecoveryInfo::info_bytes, dtx_values::specs::RecoveryInfo::pair_bytes))]
fn write_body(body: &Body, into: &mut [u8; 40]) -> u16
    ensures length { result ≡ length (body_bytes body.now) }
    ensures small { result ≤ 36 }
    ensures written { into.new ≡ take 4 into.old ++ body_bytes body.now ++ drop (4 + result) into.old }
{
    match body {
        Body::Empty => 0,
        Body::Identifier(id) => {
            into[4..20].copy_from_slice(&id.to_be_bytes());
            16
        }
        Body::Information(info) => {
            into[4..].copy_from_slice(&write_info(info));
            36
        }
        Body::Reason(cause) => {
            into[4] = *cause;
            1
        }
    }
}
