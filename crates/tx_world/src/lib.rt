//! The whole of one transaction: its local side, its coordinator, the connections between them, and its history.
#![tactic(auto)]

mod refusal;
mod world;

pub use local_half::Right;
pub use refusal::WorldError;
pub use world::TxWorld;
