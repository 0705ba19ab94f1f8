//! Whether an enlistment comes back by its recovery information.
ghost use Rattle.std.specs.Prelude.{◌≡◌, ◌≢◌, ◌↔◌, Err, true};
ghost use Rattle.dtx_values.specs.declared.info.BadInfo.{BadInfo};
ghost use Rattle.dtx_values.specs.declared.message.Info.{Info};
ghost use Rattle.dtx_values.specs.RecoveryInfo.{IsInfo};
ghost use Rattle.reenlist_recovery.specs.declared.refusal.ReenlistRefusal.TheVariants.{BadInfo as Unreadable, WrongTransaction};
ghost use Rattle.reenlist_recovery.specs.Recovery.{IsBad, IsSomeInfo, answered, was_read};

use crate::refusal::ReenlistRefusal;
use crate::standing::standing_of;
use dtx_values::{Info, parse_info};
use entry_lists::Entries;

/// Checks what a resource manager hands in when it comes back, the bytes of an enlistment's recovery information, against the history of the transaction
/// whose identifier is `wanted` (its upper 64 bits are the node, its lower 64 bits the count). Gives the information where the enlistment may come back.
/// Reads the history alone, takes no memory and changes nothing.
///
/// The manager that the information names isn't compared: what counts is the one that enlisted it at the coordinator.
///
/// # Errors
///
/// The first of these that holds, in this order. From `NoSuch` on they are those of a script's call `reenlist`, on the same history.
///
/// - [`ReenlistRefusal::BadInfo`]: the bytes are no recovery information, as `parse_info` of `dtx_values` refuses them.
/// - [`ReenlistRefusal::WrongTransaction`]: the information is of the first identifier, and the second is the one wanted.
/// - [`ReenlistRefusal::NoSuch`]: the coordinator never accepted the enlistment.
/// - [`ReenlistRefusal::Finished`]: the enlistment acknowledged the commit, was told the abort, or voted no or done.
/// - [`ReenlistRefusal::RecoveryOver`]: the recovery of its manager is over.
/// - [`ReenlistRefusal::Connected`]: one of its connections stands, or something is left to deliver on it.
/// - [`ReenlistRefusal::Stopped`]: the coordinator stands stopped.
pub fn check(history: &Entries, wanted: u128, info: &[u8]) -> Result<Info, ReenlistRefusal>
    ensures bad { (b : BadInfo) → (result ≡ Err (Unreadable b)) ↔ IsBad info.now b }
    ensures read { was_read result ≡ true → IsSomeInfo info.now }
    ensures wrong { (i : Info) → IsInfo info.now i → i.id ≢ wanted → result ≡ Err (WrongTransaction i.id wanted) }
    ensures answered { (i : Info) → IsInfo info.now i → i.id ≡ wanted → result ≡ answered history.now.items i }
{
    let found = match parse_info(info) {
        Ok(found) => found,
        Err(bad) => return Err(ReenlistRefusal::BadInfo(bad)),
    };
    if found.id != wanted {
        return Err(ReenlistRefusal::WrongTransaction(found.id, wanted));
    }
    match standing_of(history, found.enl).refusal(found.enl) {
        Some(refusal) => Err(refusal),
        None => Ok(found),
    }
}
