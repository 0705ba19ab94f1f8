//! What is checked of a trace, and its text.
#![tactic(auto)]

ghost use Rattle.std.specs.Prelude.{◌≡◌, List, true};
ghost use Rattle.dtx_model.specs.Traces.{Placed};
ghost use Rattle.dtx_model.specs.TraceText.{IsTextOf, is_fit, trace_text};
ghost use Rattle.dtx_model.specs.Words.{each};
ghost use Rattle.trace_checker.specs.Keeps.{IsChecked, Keeps};
ghost use Rattle.trace_checker.specs.declared.checked.Checked.{Checked};
ghost use Rattle.trace_lines.specs.OneTrace.{is_carried_at, is_typed_at};

/// A trace that keeps what is checked is found fine by its text: each trace with that text whose messages have what their places say keeps
/// it too. A message's line leaves out an identifier and recovery information. Who reads the text puts in the identifier of the place and r1
/// as every manager, and by none of these is a trace found bad. A law: the body is empty, and who calls this has the law in its proof.
pub fn same_text_keeps()
    ensures keeps { (S T : List Placed) → Keeps T → each is_typed_at T ≡ true → each is_carried_at T ≡ true → each is_fit S ≡ true
        → trace_text S ≡ trace_text T → Keeps S }
{}

/// The text of a trace, whose numbers are those of their types and each of whose messages is one that its connection carries, is read: it has no bad line. A law: the body is empty, and who calls this has the law in its proof.
pub fn each_text_is_read()
    ensures read { (T : List Placed) → each is_typed_at T ≡ true → each is_carried_at T ≡ true
        → (S : List Placed) × IsTextOf (trace_text T) S }
{}

/// What is said of a checked trace is one thing. A law: the body is empty, and who calls this has the law in its proof.
pub fn one_verdict()
    ensures one { (T : List Placed) (v w : Checked) → IsChecked T v → IsChecked T w → v ≡ w }
{}
