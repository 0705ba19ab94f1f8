//! Bytes are one script, or are bad.
ghost use Rattle.std.specs.Prelude.{ℕ, ◌≡◌, ◌+◌, ◌⊎◌, List, take};
ghost use Rattle.dtx_values.specs.declared.limits.TheConstants.{SCRIPT_BYTES};
ghost use Rattle.dtx_values.specs.declared.script.BadCause.{BadCause};
ghost use Rattle.dtx_values.specs.declared.script.Line.{Line};
ghost use Rattle.dtx_model.specs.Grammar.{Reads};
ghost use Rattle.dtx_model.specs.Faults.{Bad};

/// Bytes are one script, or have one first bad line with one first cause, and never both. What is bad in the first 1,048,577 bytes is bad
/// in the whole, for the same cause. A law: the body is empty, and who calls this has the law in its proof.
pub fn reads_exactly()
    ensures one { (b : List ℕ) (s r : List Line) → Reads b s → Reads b r → s ≡ r }
    ensures either { (b : List ℕ) (s : List Line) (n : ℕ) (c : BadCause) → Reads b s → Bad b n c → ⊥ }
    ensures first { (b : List ℕ) (n m : ℕ) (c d : BadCause) → Bad b n c → Bad b m d → (n ≡ m) × (c ≡ d) }
    ensures some { (b : List ℕ) → ((s : List Line) × Reads b s) ⊎ ((n : ℕ) × (c : BadCause) × Bad b n c) }
    ensures longer { (b : List ℕ) (n : ℕ) (c : BadCause) → Bad (take (SCRIPT_BYTES + 1) b) n c → Bad b n c }
{}
