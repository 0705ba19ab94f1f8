//! Who is asked next, and who hears the outcome.
ghost use Rattle.std.specs.Prelude.{◌≡◌};
ghost use Rattle.dtx_values.specs.Vote.{still_hears};
ghost use Rattle.dtx_values.specs.Waves.{hears, next_ask};

use dtx_values::{EnlNo, Vote};
use enlist_table::EnlistTable;

/// The lowest enlistment of the class that wasn't asked to prepare and may be: a Zero one (`zero`) where each that was asked before it was added
/// voted, a One always.
pub fn next_ask(t: &EnlistTable, zero: bool) -> Option<EnlNo>
    ensures { result ≡ next_ask t.now zero }
{
    t.next_ask(zero)
}

/// Whether such a vote, or none, leaves the enlistment to hear the outcome.
fn still_hears(v: Option<Vote>) -> bool
    ensures { result ≡ still_hears v }
{
    matches!(v, None | Some(Vote::Yes))
}

/// Whether the enlistment is volatile and voted neither No nor Done.
#[tactic(auto, unfolding(dtx_values::specs::Waves::hears))]
pub fn hears(t: &EnlistTable, e: EnlNo) -> bool
    ensures { result ≡ hears t.now e.value }
{
    t.rows().iter().any(|x| x.number == e && x.class.is_volatile() && still_hears(x.vote))
}
