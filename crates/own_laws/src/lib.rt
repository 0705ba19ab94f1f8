//! The laws over the histories of a program that gives a transaction its own calls, and has no script, as they come to an end.
//!
//! Each law is a public function with an empty body, as those of `outcome_law`: it does nothing when it runs, and a caller calls it for its contract.
#![tactic(auto)]

ghost use Rattle.std.specs.Prelude.{◌≡◌, ◌||◌, ℕ, true, [], is_some};
ghost use Rattle.dtx_model.specs.Words.{has, latest};
ghost use Rattle.dtx_model.specs.Entries.{client_told_of, is_commit};
ghost use Rattle.dtx_model.specs.Tied.{tied};
ghost use Rattle.dtx_model.specs.Plans.{plan_of};
ghost use Rattle.dtx_model.specs.Steps.{pending};
ghost use Rattle.dtx_model.specs.World.{World};
ghost use Rattle.dtx_model.specs.Caused.{AreMadeOnce, IsIn, IsOwnRun};
ghost use Rattle.own_laws.specs.Waiting.{is_waiting_by};

/// A settled transaction of a program that gives its own calls, whatever was lost, stopped and started again, where each restart found what may be found: if commit was
/// asked, the client was told some outcome, or a blocking clone is open, or an enlistment whose reply is needed plans none. Of the calls it needs that no two make the
/// same enlistment or the same clone; and settled is that no step is pending.
pub fn own_completeness()
    ensures told { (t : ℕ) (w : World) → AreMadeOnce (IsIn w.calls) → IsOwnRun t w → tied w.past ≡ true → pending w ≡ [] → has is_commit w.past ≡ true
        → (is_some (latest client_told_of w.past) || is_waiting_by (plan_of w.calls) w.past) ≡ true }
{}
