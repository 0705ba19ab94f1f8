//! The bytes of the messages between the local side and the coordinator.
#![tactic(auto)]

mod body;
mod fed;
mod frame_reader;
mod law;
mod parts;
mod reader;
mod refusal;
mod shape;
mod valid;
mod writer;

pub use fed::Fed;
pub use frame_reader::FrameReader;
pub use law::{no_frame_begins_another, only_a_whole_frame_is_told, pieces_give_the_messages};
pub use reader::decode;
pub use refusal::FrameRefusal;
pub use valid::is_valid;
pub use writer::encode;
