//! The laws that each run of a script keeps, a replay and one on threads alike.
ghost use Rattle.std.specs.Prelude.{ℕ, ◌≡◌, Bool, IsTrue, List, false, true};
ghost use Rattle.dtx_values.specs.declared.number.TxNo.{TxNo};
ghost use Rattle.dtx_values.specs.declared.script.Line.{Line};
ghost use Rattle.dtx_model.specs.AtLog.{at_log};
ghost use Rattle.dtx_model.specs.Caused.{FreelyCaused, IsCallOf, Settled};
ghost use Rattle.dtx_model.specs.Grammar.{are_named_well};
ghost use Rattle.dtx_model.specs.Traces.{Placed, history};
ghost use Rattle.dtx_model.specs.Words.{has, past_of};
ghost use Rattle.turn_parts.specs.Runs.{AreTied, IsNeverFull};
ghost use Rattle.turn_parts.specs.Reopening.{is_no_log_answer};
ghost use Rattle.replay_runs.specs.Lawful.{IsLawful};

use outcome_law::{appends, completeness, one_outcome, stops};
use world_laws::{rights, untried};

/// A trace keeps the laws where each transaction's history is one that the script's lines cause, and is settled where each restart found what may be found; on an honest disk each restart did, and found a log, and where the log had no
/// record, it was never full. It does nothing when it runs: a caller's proof asks for it.
pub fn lawful()
    ensures { (honest is_fresh : Bool) (s : List Line) (T : List Placed) → are_named_well s ≡ true → ((t : TxNo) → FreelyCaused (IsCallOf s t.value) t.value (history t.value (past_of T)))
        → (AreTied T → (t : TxNo) → Settled s (history t.value (past_of T))) → (IsTrue honest → AreTied T) → (IsTrue honest → has is_no_log_answer (at_log (past_of T)) ≡ false)
        → (IsTrue honest → IsTrue is_fresh → IsNeverFull T) → IsLawful honest is_fresh s T }
{
    one_outcome();
    completeness();
    rights();
    appends();
    untried();
    stops();
}
