//! Resource managers that vote yes and acknowledge.
use dtx_values::{Note, Reply, Vote};
use transactions::{Enlistment, ResourceManager};

/// Resource managers that vote yes and acknowledge.
#[derive(Drop)]
pub struct Willing;

impl ResourceManager for Willing {
    ghost gives = { λ old e n r new. Unit {0} };

    fn on(&mut self, _: Enlistment, n: Note) -> Option<Reply> {
        match n {
            Note::Prepare => Some(Reply::Vote(Vote::Yes)),
            Note::Commit => Some(Reply::Ack),
            _ => None,
        }
    }
}
