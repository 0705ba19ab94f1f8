//! A transactional map in memory, for a volatile enlistment: a resource whose writes are seen at once, go into its base at Commit, and are undone at Rollback.
//!
//! An enlistment is named by its transaction and its number: its *pair*. A write is *live* from its [`TxMap::put`] until the pair hears Commit or Rollback. A key has at most
//! one live write, so no two pairs write one key at a time. What is live is lost where the process ends: the map is no durable store.
//!
//! A put finds its pair and its key by halving, and a Commit is one pass over the base.
//!
//! [`commits_are_folded`] and [`rollback_undoes`] are what it is for. The rules are a definition of this project.
#![tactic(auto)]

mod laws;
mod live;
mod map;
mod merge;
mod order;
mod pairs;
mod refusal;
#[cfg(test)]
mod tests;
mod write;

pub use laws::{commits_are_folded, rollback_undoes};
pub use map::TxMap;
pub use refusal::{KEYS, MapRefusal};
pub use write::MapEntry;
