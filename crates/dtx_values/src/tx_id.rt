//! Transactions for good: a number within an epoch, and the epoch.
ghost use Rattle.std.specs.Prelude.{◌≡◌, nat_lt, true};

use crate::number::TxNo;

mod naming;

/// A transaction for good: its number within an epoch, and the epoch.
#[derive(Clone, Copy, PartialEq, Eq, Debug)]
pub struct TxId {
    epoch: u32,
    t: TxNo,
    pub ghost in_range: { nat_lt epoch 4294967296 ≡ true },
}

impl TxId {
    /// The transaction of this number in an epoch.
    pub fn new(epoch: u32, t: TxNo) -> Self
        ensures epoch { result.epoch ≡ epoch }
        ensures t { result.t ≡ t }
    {
        TxId { epoch, t }
    }

    /// Its epoch.
    pub fn epoch(self) -> u32
        ensures { result ≡ self.epoch }
    {
        self.epoch
    }

    /// Its number within the epoch.
    pub fn t(self) -> TxNo
        ensures { result ≡ self.t }
    {
        self.t
    }
}
