//! What a page tells of its trace.
ghost use Rattle.std.specs.Prelude.{◌≡◌, List};
ghost use Rattle.dtx_model.specs.Traces.{Placed};
ghost use Rattle.dtx_model.specs.TraceText.{trace_text};
ghost use Rattle.dtx_values.specs.declared.script.Line.{Line};
ghost use Rattle.trace_page.specs.Page.{page};

/// A page has the text of one trace, whatever its script. What a text tells of its trace, `one_trace` of the crate `trace_lines` says. A law: the body is empty, and who calls this
/// has the law in its proof.
pub fn one_page()
    ensures one { (s r : List Line) (S T : List Placed) → page s S ≡ page r T → trace_text S ≡ trace_text T }
{}
