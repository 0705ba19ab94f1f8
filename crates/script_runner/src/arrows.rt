//! What the pictures of a run show.
ghost use Rattle.std.specs.Prelude.{ℕ, List};
ghost use Rattle.dtx_model.specs.Traces.{Placed};
ghost use Rattle.dtx_model.specs.Words.{past_of};
ghost use Rattle.dtx_values.specs.declared.script.Line.{Line};
ghost use Rattle.script_runner.specs.Arrows.{HaveArrows};
ghost use Rattle.turn_parts.specs.Runs.{IsRunHistory};

/// In the pictures of a run, a replay and one on threads alike, each message that comes is drawn as one arrow, from the row in which that very message was sent. A law: the body is
/// empty, and who calls this has the law in its proof.
pub fn each_run_has_its_arrows()
    ensures arrows { (s : List Line) (k rise : ℕ) (T : List Placed) → IsRunHistory s k rise T → HaveArrows s (past_of T) }
{}
