//! Who owns the commit, and when a durable call promotes.
ghost use Rattle.std.specs.Prelude.{◌≡◌};
ghost use Rattle.dtx_values.specs.Owners.{cause_of, owner_of};

use dtx_values::{Cause, EnlNo};
use enlist_table::EnlistTable;

/// The owner: the one durable or promotable enlistment; `None` exactly where there isn't exactly one. (Single-phase commit of
/// System.Transactions.)
pub fn owner_of(t: &EnlistTable) -> Option<EnlNo>
    ensures { result ≡ owner_of t.now }
{
    t.owner()
}

/// Why a durable call promotes the transaction: it has a durable enlistment, or a promotable one, or the new one has no single-phase support.
/// `None` where it needn't.
#[tactic(auto, unfolding(dtx_values::specs::Owners::cause_of))]
pub fn cause_of(t: &EnlistTable, single: bool) -> Option<Cause>
    ensures { result ≡ cause_of t.now single }
{
    if t.has_durable() {
        return Some(Cause::Second);
    }
    if t.has_promotable() {
        return Some(Cause::Beside);
    }
    if single { None } else { Some(Cause::Two) }
}
