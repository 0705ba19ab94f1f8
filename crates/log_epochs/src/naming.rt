//! The identifier of an epoch, and the epoch of a record.
ghost use Rattle.std.specs.Prelude.{◌≡◌, ◌≤◌, ◌↔◌, None, IfSome, IsFalse, true, unwrap_or};
ghost use Rattle.dtx_values.specs.RecoveryInfo.{is_id};
ghost use Rattle.dtx_model.specs.Log.{record_of};
ghost use Rattle.log_epochs.specs.Epochs.{epoch_of_record, epoch_record, identifier_of_epoch, is_epoch, is_epoch_record};

use dtx_values::LogRecord;

/// The identifier of an epoch's record: the node 1 in the upper 64 bits, and 65,536 times the epoch in the lower.
pub fn identifier_of_epoch(n: u32) -> u128
    ensures identifier { result ≡ identifier_of_epoch n }
    ensures valid { 1 ≤ n → is_id result ≡ true }
{
    (1 << 64) + 65_536 * u128::from(n)
}

/// The epoch that a record is the record of; `None` exactly where it is that of none.
pub fn epoch_in(r: &LogRecord) -> Option<u32>
    ensures some { IfSome result (λ n. (1 ≤ n) × (record_of r.now ≡ epoch_record n)) }
    ensures none { (result ≡ None) ↔ IsFalse (is_epoch_record (record_of r.now)) }
    ensures epoch { unwrap_or result 0 ≡ epoch_of_record (record_of r.now) }
{
    if !r.pairs().is_empty() {
        return None;
    }
    epoch_at(r.id)
}

// The epoch that has this identifier.
fn epoch_at(id: u128) -> Option<u32>
    ensures some { IfSome result (λ n. (1 ≤ n) × (id ≡ identifier_of_epoch n)) }
    ensures none { (result ≡ None) ↔ IsFalse (is_epoch id) }
{
    let number = id.checked_sub(1 << 64)?;
    let n = number / 65_536;
    if number % 65_536 == 0 && 1 <= n && n < 1 << 32 {
        Some(n as u32)
    } else {
        None
    }
}
