//! The connections between the local side and the coordinator of one transaction: frames on the way, losses and ends.
//!
//! Each connection has a queue of bytes in each direction. They cross in pieces of a frame. What is got is what was sent, in order, up to what a loss keeps; after a loss
//! comes its end, once in each direction. A stop of the coordinator loses each connection; it keeps what goes down, and the coordinator sees no end. (A definition of this
//! project, after the connections of the coordinator's protocol.)
#![tactic(auto)]

mod crossing;
mod law;
mod link;
mod piece;
mod queue;
mod refusal;
mod session;

pub use law::{Answer, Call, perform, same_answers};
pub use oletx_frames::{FrameRefusal, is_valid};
pub use refusal::SessionRefusal;
pub use session::{Delivered, Session};
