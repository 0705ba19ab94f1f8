//! That no run is found bad.
ghost use Rattle.std.specs.Prelude.{ℕ, ◌≡◌, ◌≤◌, List, length, true};
ghost use Rattle.dtx_values.specs.declared.script.Line.{Line};
ghost use Rattle.dtx_model.specs.History.{HasOneOutcome};
ghost use Rattle.dtx_model.specs.TraceText.{IsTextOf, trace_text};
ghost use Rattle.dtx_model.specs.Traces.{Placed};
ghost use Rattle.dtx_model.specs.Words.{each};
ghost use Rattle.program_io.specs.TraceRead.{IsBadTraceLine, IsTraceWithin};
ghost use Rattle.trace_checker.specs.Keeps.{IsChecked};
ghost use Rattle.trace_checker.specs.declared.checked.Checked.{Checked};
ghost use Rattle.trace_lines.specs.OneTrace.{is_carried_at, is_typed_at};
ghost use Rattle.turn_parts.specs.Runs.{IsRunHistory};

use fine_texts::{each_text_is_read, one_verdict, same_text_keeps};
use program_io::checks_exactly;

/// The text that a run prints, a replay and one on threads alike, is found fine where it isn't too long: no line of it is bad, and of each trace that is read from it nothing else is said. So it is of each run with one outcome in each transaction, as those have in which each restart found what may
/// be found. A law: it does nothing when it runs, and who calls it has the law in its proof.
pub fn each_run_is_found_fine()
    ensures read { (most : ℕ) (T : List Placed) (n : ℕ) → each is_typed_at T ≡ true → each is_carried_at T ≡ true
        → length (trace_text T) ≤ most → IsBadTraceLine most (trace_text T) n → ⊥ }
    ensures fine { (s : List Line) (k rise most : ℕ) (T S : List Placed) (v : Checked) → IsRunHistory s k rise T → HasOneOutcome T
        → each is_typed_at T ≡ true → each is_carried_at T ≡ true
        → IsTraceWithin most (trace_text T) S → IsChecked S v → v ≡ Checked.Fine }
{
    same_text_keeps();
    each_text_is_read();
    one_verdict();
    checks_exactly();
}
