//! The law of the places of the right to commit.
ghost use Rattle.std.specs.Prelude.{ℕ, ◌≡◌, ◌∷◌, List, true, false};
ghost use Rattle.dtx_values.specs.declared.entry.Entry.{Entry};
ghost use Rattle.dtx_values.specs.declared.number.TxNo.{TxNo};
ghost use Rattle.dtx_values.specs.declared.script.Line.{Line};
ghost use Rattle.dtx_model.specs.Words.{has, onto};
ghost use Rattle.dtx_model.specs.Observed.{observe};
ghost use Rattle.dtx_model.specs.Tied.{tied};
ghost use Rattle.dtx_model.specs.Grammar.{are_named_well};
ghost use Rattle.dtx_model.specs.Caused.{FreelyCaused, IsCallOf};
ghost use Rattle.history_table.specs.Appended.{is_abort_decision, stopped_at_append};
ghost use Rattle.local_half.specs.Rights.{is_in_one_place, right_after, right_of, right_seen};

/// The law of the right to commit, a function that does nothing when it runs: a caller's proof asks for it. In a history that a script's lines freely cause the right
/// is in exactly one place, and the local side knows it. While it is in flight it isn't handed over, nor sent with COMMIT; where it was sent with COMMIT and handed over,
/// the coordinator had let the one enlistment decide, with SINGLE. And each entry moves it as `right_after` says: only the promotion, the handing of the commit, the
/// sending of COMMIT and the decision move it.
pub fn rights()
    ensures placed { (s : List Line) (t : TxNo) (h : List Entry) → are_named_well s ≡ true → FreelyCaused (IsCallOf s t.value) t.value h → right_seen (observe h) ≡ right_of h }
    ensures one { (s : List Line) (t : ℕ) (h : List Entry) → are_named_well s ≡ true → FreelyCaused (IsCallOf s t) t h → tied h ≡ true → is_in_one_place h ≡ true }
    ensures moves { (s : List Line) (t : ℕ) (past es : List Entry) (x : Entry) → are_named_well s ≡ true → FreelyCaused (IsCallOf s t) t (onto past (x ∷ es))
        → tied (onto past (x ∷ es)) ≡ true → right_of (x ∷ past) ≡ right_after x (right_of past) }
{}

/// The law of appends that were tried, a function that does nothing when it runs: where an abort is decided, no append was tried, also none that the log's first stop
/// cut short. (That nothing was logged, and none may be appended, is in `appends` of the crate `outcome_law`.)
pub fn untried()
    ensures { (s : List Line) (t : TxNo) (h : List Entry) → are_named_well s ≡ true → FreelyCaused (IsCallOf s t.value) t.value h → tied h ≡ true
        → has is_abort_decision h ≡ true → stopped_at_append h ≡ false }
{}
