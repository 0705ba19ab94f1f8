//! The law of identifiers, as the contract of a function with an empty body, so that what calls it has the law.
ghost use Rattle.std.specs.Prelude.{◌≡◌, ◌≢◌, ◌+◌, ◌^◌, ℕ, IsFalse};
ghost use Rattle.dtx_values.specs.TxIds.{identifier_of_id, number_in};
ghost use Rattle.dtx_values.specs.declared.tx_id.TxId.{TxId};
ghost use Rattle.dtx_model.specs.Log.{CommitRecord};
ghost use Rattle.log_epochs.specs.Epochs.{identifier_of_epoch, is_epoch, is_epoch_record};

/// No identifier of a transaction is that of an epoch, and no record of a transaction is that of an epoch, whatever its enlistments: a transaction's number within its epoch
/// is from 1 on.
pub fn no_transaction_is_an_epoch()
    ensures place { (n : ℕ) → identifier_of_epoch n ≡ 2 ^ 64 + number_in n 0 }
    ensures identifier { (x : TxId) (n : ℕ) → identifier_of_id x ≢ identifier_of_epoch n }
    ensures test { (x : TxId) → IsFalse (is_epoch (identifier_of_id x)) }
    ensures record { (x : TxId) (r : CommitRecord) → r.id ≡ identifier_of_id x → IsFalse (is_epoch_record r) }
{}
