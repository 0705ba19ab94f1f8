//! What the manager's calls came to, by numbers.
ghost use Rattle.std.specs.Prelude.{◌≡◌};
ghost use Rattle.host_manager.specs.Results.{begun_in, clone_in, ended_in, number_in, replied_in, taken_in};

use crate::error::HostError;
use dtx_values::{CloneNo, EnlNo};
use transactions::{CommittableTransaction, DependentTransaction, Enlistment, TxError};

/// The number of an enlistment that was made.
pub(crate) fn number_in(r: Result<Enlistment, TxError>) -> Result<EnlNo, TxError>
    ensures { result ≡ number_in r }
{
    match r {
        Ok(e) => Ok(e.number()),
        Err(x) => Err(x),
    }
}

/// The number of an enlistment that was made, or none.
pub(crate) fn taken_in(r: Result<Option<Enlistment>, TxError>) -> Result<Option<EnlNo>, TxError>
    ensures { result ≡ taken_in r }
{
    match r {
        Ok(Some(e)) => Ok(Some(e.number())),
        Ok(None) => Ok(None),
        Err(x) => Err(x),
    }
}

/// The number of a clone that was made.
pub(crate) fn clone_in(r: Result<DependentTransaction, TxError>) -> Result<CloneNo, TxError>
    ensures { result ≡ clone_in r }
{
    match r {
        Ok(d) => Ok(d.into_number()),
        Err(x) => Err(x),
    }
}

/// The number of a transaction that began; where none did, first the disk has work to do.
pub(crate) fn begun_in(r: Result<Option<CommittableTransaction>, TxError>) -> Result<u64, HostError>
    ensures { result ≡ begun_in r }
{
    match r {
        Ok(Some(tx)) => Ok(tx.into_number()),
        Ok(None) => Err(HostError::Disk),
        Err(x) => Err(HostError::Call(x)),
    }
}

/// Whether a reply was done, as an error where it wasn't.
pub(crate) fn replied_in(r: Result<bool, TxError>) -> Result<(), HostError>
    ensures { result ≡ replied_in r }
{
    match r {
        Ok(true) => Ok(()),
        Ok(false) => Err(HostError::Unasked),
        Err(x) => Err(HostError::Call(x)),
    }
}

/// Whether a transaction was ended, as an error where it wasn't: it goes on, and its handle is given up for its number.
pub(crate) fn ended_in(r: Result<(), CommittableTransaction>) -> Result<(), HostError>
    ensures { result ≡ ended_in r }
{
    match r {
        Ok(()) => Ok(()),
        Err(tx) => {
            let _ = tx.into_number();
            Err(HostError::Live)
        }
    }
}
