//! A line `put`.
use dtx_values::{EnlNo, TxNo};

/// A value that an enlistment puts for a key, before its script runs.
#[derive(Clone, Copy, PartialEq, Eq, Debug)]
pub struct Put {
    pub transaction: TxNo,
    pub enlistment: EnlNo,
    pub key: u32,
    pub value: u64,
}
