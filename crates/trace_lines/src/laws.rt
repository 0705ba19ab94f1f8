//! What a text tells of its trace.
ghost use Rattle.std.specs.Prelude.{◌≡◌, ℕ, List, map, true};
ghost use Rattle.dtx_values.specs.declared.message.Info.{Info};
ghost use Rattle.dtx_model.specs.Traces.{Placed};
ghost use Rattle.dtx_model.specs.TraceText.{trace_text};
ghost use Rattle.dtx_model.specs.Words.{each};
ghost use Rattle.trace_lines.specs.Forms.{json_text, wire_text};
ghost use Rattle.trace_lines.specs.OneTrace.{framed_at, is_carried_at, is_frame_typed_at, is_got_carried_at, is_typed_at, named_at, told_at, wired_at};

use dtx_values::{Entry, Place};
use entry_lists::Trace;

/// A text has one trace, up to what a message's line leaves out: two traces of one text are the same trace once any one identifier and any
/// one recovery information stand in all their messages. That is so where each message is one that its connection carries (`one`); a line
/// doesn't tell another from those of its name (`names`). The forms JSON and wire tell as much (`json`, `wire`). In the form wire a message
/// that is sent has its frame, which tells which message it is, whatever its connection carries (`wire_names`), and tells it whole
/// (`wire_frames`). A law: the body is empty, and who calls this has the law in its proof.
pub fn one_trace()
    ensures one { (S T : List Placed) (u : ℕ) (i : Info) → each is_typed_at S ≡ true → each is_typed_at T ≡ true
        → each is_carried_at S ≡ true → each is_carried_at T ≡ true → trace_text S ≡ trace_text T → map (told_at u i) S ≡ map (told_at u i) T }
    ensures names { (S T : List Placed) (u : ℕ) (i : Info) → each is_typed_at S ≡ true → each is_typed_at T ≡ true
        → trace_text S ≡ trace_text T → map (named_at u i) S ≡ map (named_at u i) T }
    ensures json { (S T : List Placed) (u : ℕ) (i : Info) → each is_typed_at S ≡ true → each is_typed_at T ≡ true
        → each is_carried_at S ≡ true → each is_carried_at T ≡ true → json_text S ≡ json_text T → map (told_at u i) S ≡ map (told_at u i) T }
    ensures json_names { (S T : List Placed) (u : ℕ) (i : Info) → each is_typed_at S ≡ true → each is_typed_at T ≡ true
        → json_text S ≡ json_text T → map (named_at u i) S ≡ map (named_at u i) T }
    ensures wire { (S T : List Placed) (u : ℕ) (i : Info) → each is_typed_at S ≡ true → each is_typed_at T ≡ true
        → each is_got_carried_at S ≡ true → each is_got_carried_at T ≡ true → wire_text S ≡ wire_text T → map (told_at u i) S ≡ map (told_at u i) T }
    ensures wire_names { (S T : List Placed) (u : ℕ) (i : Info) → each is_typed_at S ≡ true → each is_typed_at T ≡ true
        → wire_text S ≡ wire_text T → map (wired_at u i) S ≡ map (wired_at u i) T }
    ensures wire_frames { (S T : List Placed) (u : ℕ) (i : Info) → each is_typed_at S ≡ true → each is_typed_at T ≡ true
        → each is_frame_typed_at S ≡ true → each is_frame_typed_at T ≡ true → wire_text S ≡ wire_text T → map (framed_at u i) S ≡ map (framed_at u i) T }
{}

/// The numbers of an entry are those of their types.
#[inline(always)]
fn typed_entry(x: (Place, Entry))
    ensures typed { is_typed_at x ≡ true }
    ensures frame_typed { is_frame_typed_at x ≡ true }
{}

/// The numbers of a trace are those of their types: those that its lines show, and the identifiers of the messages that are sent, which its
/// frames show. So each trace that the program has meets these premises of [`one_trace`], whatever form its text has. It gives nothing and
/// changes nothing: who calls this has it of the trace in its proof.
pub fn typed_trace(t: &Trace)
    ensures typed { each is_typed_at t.now ≡ true }
    ensures frame_typed { each is_frame_typed_at t.now ≡ true }
{
    for index in 0..t.len() {
        typed_entry(t.at(index));
    }
}
