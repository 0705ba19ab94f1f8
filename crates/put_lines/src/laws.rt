//! Bytes are one input, or are refused.
ghost use Rattle.std.specs.Prelude.{ℕ, ◌≡◌, ◌+◌, List, take};
ghost use Rattle.dtx_values.specs.declared.limits.TheConstants.{SCRIPT_BYTES};
ghost use Rattle.dtx_values.specs.declared.script.BadCause.{BadCause};
ghost use Rattle.dtx_values.specs.declared.script.Line.{Line};
ghost use Rattle.dtx_model.specs.Caused.{Of};
ghost use Rattle.heard_notes.specs.declared.put.Put.{Put};
ghost use Rattle.put_lines.specs.Input.{IsRefused, ReadsInput};

/// Bytes are one input, of these puts and this script alone, or are refused at one line for one cause, and never both. What is refused by the first 1,048,577
/// bytes is refused as a whole, for the same cause; where those are an input, they are the whole. A law: the body is empty, and who calls this has the law in
/// its proof.
pub fn reads_one_input()
    ensures one { (most : ℕ) (o : Of) (b : List ℕ) (ps qs : List Put) (s r : List Line) → ReadsInput most o b ps s → ReadsInput most o b qs r → (ps ≡ qs) × (s ≡ r) }
    ensures either { (most : ℕ) (o : Of) (b : List ℕ) (ps : List Put) (s : List Line) (n : ℕ) (c : BadCause) → ReadsInput most o b ps s → IsRefused most o b n c → ⊥ }
    ensures first { (most : ℕ) (o : Of) (b : List ℕ) (n m : ℕ) (c d : BadCause) → IsRefused most o b n c → IsRefused most o b m d → (n ≡ m) × (c ≡ d) }
    ensures longer { (most : ℕ) (o : Of) (b : List ℕ) (n : ℕ) (c : BadCause) → IsRefused most o (take (SCRIPT_BYTES + 1) b) n c → IsRefused most o b n c }
    ensures whole { (most : ℕ) (o : Of) (b : List ℕ) (ps : List Put) (s : List Line) → ReadsInput most o (take (SCRIPT_BYTES + 1) b) ps s → ReadsInput most o b ps s }
{}
