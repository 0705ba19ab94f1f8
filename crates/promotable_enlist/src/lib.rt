//! Promotable enlistments: whether one may own the transaction. (`EnlistPromotableSinglePhase` of System.Transactions.)
#![tactic(auto)]

ghost use Rattle.std.specs.Prelude.{◌≡◌};
ghost use Rattle.dtx_values.specs.Owners.{may_own};

use enlist_table::EnlistTable;

/// Whether a promotable enlistment may own the transaction: false exactly where it is promoted or promoting, or it has a durable or promotable
/// enlistment.
#[tactic(auto, unfolding(dtx_values::specs::Owners::may_own))]
pub fn try_own(t: &EnlistTable, promoted_or_promoting: bool) -> bool
    ensures { result ≡ may_own t.now promoted_or_promoting }
{
    !promoted_or_promoting && !t.has_lasting()
}
