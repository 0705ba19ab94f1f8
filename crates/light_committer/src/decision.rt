//! What is done with the commit.
ghost use Rattle.std.specs.Prelude.{◌≡◌, ◌≤◌, true, false};
ghost use Rattle.dtx_values.specs.Table.{how_many};
ghost use Rattle.dtx_model.specs.Words.{has};
ghost use Rattle.dtx_values.specs.Owners.{is_evident};
ghost use Rattle.dtx_values.specs.Waves.{all_voted};
ghost use Rattle.dtx_values.specs.Row.{is_lasting, voted_no};
ghost use Rattle.light_committer.specs.declared.decision.LightAct.TheVariants.{CommitNow};
ghost use Rattle.light_committer.specs.LightAct.{light_act};
ghost use Rattle.dtx_model.specs.Facts.{lost_outcome};

use dtx_values::{EnlNo, Outcome};
use enlist_table::EnlistTable;

/// What is done with the commit of a transaction that is sealed and isn't promoted.
#[derive(Clone, Copy, PartialEq, Eq, Debug)]
pub enum LightAct {
    Nothing,
    /// The commit is handed to the owner. (SinglePhaseCommit of System.Transactions.)
    HandTo(EnlNo),
    /// It is committed: evidence by the seal stands.
    CommitNow,
}

/// What is done with the commit after the seal: nothing while a volatile enlistment hasn't voted or once it was handed over; else it is handed to the
/// owner, or committed where there is none. Evidence by the seal stands then, unless a volatile voted No.
#[tactic(auto, using(crate::proofs::Alone::evident_unowned))]
pub fn decide(t: &EnlistTable, handed: bool) -> LightAct
    requires { how_many is_lasting t.now ≤ 1 }
    ensures act { result ≡ light_act t.now handed }
    ensures evident { result ≡ CommitNow → has voted_no t.now ≡ false → is_evident true t.now ≡ true }
{
    if handed || !t.volatiles_voted() {
        return LightAct::Nothing;
    }
    match t.owner() {
        Some(e) => LightAct::HandTo(e),
        None => LightAct::CommitNow,
    }
}

/// How the transaction ends whose owner is lost: in doubt where it was handed the commit, else aborted.
pub fn owner_lost(handed: bool) -> Outcome
    ensures { result ≡ lost_outcome handed }
{
    if handed {
        Outcome::InDoubt
    } else {
        Outcome::Aborted
    }
}
