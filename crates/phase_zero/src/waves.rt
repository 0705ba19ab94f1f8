//! The waves in which the enlistments of phase zero are asked to prepare.
ghost use Rattle.std.specs.Prelude.{◌≡◌, not, true};
ghost use Rattle.std.specs.List.{list_any};
ghost use Rattle.dtx_values.specs.Clones.{is_open_block};
ghost use Rattle.dtx_values.specs.Waves.{is_over, next_ask};

use dependent_clones::Clones;
use dtx_values::EnlNo;
use enlist_table::EnlistTable;

/// Whether no blocking clone is open.
fn is_free(c: &Clones) -> bool
    ensures { result ≡ not (list_any is_open_block c.now) }
{
    c.blocking_left() == 0
}

/// The waves of phase zero. A wave asks those that were enlisted before it; who is enlisted while a wave prepares waits until all that
/// were asked before voted. The table keeps all that this needs.
#[derive(Clone, Copy, PartialEq, Eq, Debug)]
pub struct Waves;

impl Waves {
    /// The waves of a transaction.
    pub fn new() -> Waves {
        Waves
    }

    /// The lowest Zero enlistment that wasn't asked to prepare and may be.
    pub fn next_wave(&mut self, t: &EnlistTable) -> Option<EnlNo>
        ensures { result ≡ next_ask t.now true }
    {
        t.next_ask(true)
    }

    /// Whether phase zero is over: each Zero enlistment voted, no blocking clone is open, and nothing is under way.
    #[tactic(auto, unfolding(dtx_values::specs::Waves::is_over))]
    pub fn is_over(&self, t: &EnlistTable, c: &Clones, under_way: u8) -> bool
        ensures { result ≡ is_over t.now c.now under_way }
    {
        t.zeros_voted() && is_free(c) && under_way == 0
    }
}
