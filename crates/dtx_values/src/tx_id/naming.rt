//! The number for good and the identifier of a transaction.
ghost use Rattle.std.specs.Prelude.{◌≡◌, ◌≢◌, ◌<◌, ◌^◌, IfSome, None, true};
ghost use Rattle.dtx_values.specs.RecoveryInfo.{is_id};
ghost use Rattle.dtx_values.specs.TxIds.{first_id, identifier_of_id, number_of};
ghost use Rattle.dtx_values.specs.declared.tx_id.TxId.{TxId};

use super::TxId;
use crate::number::TxNo;

impl TxId {
    /// The transaction of this number in epoch 0, that of a run by itself.
    pub fn first(t: TxNo) -> Self
        ensures { result ≡ first_id t }
    {
        TxId { epoch: 0, t }
    }

    /// Its number for good: in epoch 0 the number within that, and else 65,536 times the epoch more. No two transactions have the same one.
    pub fn number(self) -> u64
        ensures number { result ≡ number_of self }
        ensures within { result < 2 ^ 48 }
        ensures own { (x : TxId) → number_of x ≡ result → x ≡ self }
    {
        65_536 * u64::from(self.epoch) + u64::from(self.t.get())
    }

    /// Its identifier at the coordinator: the node 1 in the upper 64 bits, and its number for good in the lower. No two transactions have the same one.
    pub fn identifier(self) -> u128
        ensures identifier { result ≡ identifier_of_id self }
        ensures valid { is_id result ≡ true }
        ensures own { (x : TxId) → identifier_of_id x ≡ result → x ≡ self }
    {
        (1 << 64) + u128::from(self.number())
    }

    /// The transaction of this identifier; `None` exactly where it is that of none.
    pub fn of_identifier(id: u128) -> Option<Self>
        ensures found { IfSome result (λ x. identifier_of_id x ≡ id) }
        ensures none { result ≡ None → (x : TxId) → identifier_of_id x ≢ id }
    {
        let number = id.checked_sub(1 << 64)?;
        if number >= 1 << 48 {
            return None;
        }
        let t = TxNo::new((number % 65_536) as u32)?;
        Some(TxId {
            epoch: (number / 65_536) as u32,
            t,
        })
    }
}
