//! The laws over histories: one outcome, completeness, what a replay is, and that the tables are the history's.
//!
//! Each law is a public function with an empty body. It does nothing when it runs. A caller calls it for its contract: after the call the
//! proof of the caller has the law. Where a law is of histories in which each restart found what may be found, its clause says so by `tied`; where it is
//! of those in which nothing is promoted, by the scan `is_unpromoted`, or `is_local_trace` of a whole trace, in which
//! nothing stands at the log either; and where it is of those in which the log did each append and each free, by `is_log_sound`.
#![tactic(auto)]

ghost use Rattle.std.specs.Prelude.{◌≡◌, ◌||◌, ℕ, suc, true, false, List, ◌∷◌, ◌++◌, Bool, Some, length, slice_get};
ghost use Rattle.dtx_values.specs.declared.call.Call.{Call};
ghost use Rattle.dtx_values.specs.declared.entry.Entry.{Entry};
ghost use Rattle.dtx_values.specs.declared.number.ActorNo.{ActorNo};
ghost use Rattle.dtx_values.specs.declared.number.CloneNo.{CloneNo};
ghost use Rattle.dtx_values.specs.declared.number.EnlNo.{EnlNo};
ghost use Rattle.dtx_values.specs.declared.number.TxNo.{TxNo};
ghost use Rattle.dtx_values.specs.declared.row.CloneRow.{CloneRow};
ghost use Rattle.dtx_values.specs.declared.script.Line.{Line};
ghost use Rattle.dtx_values.specs.declared.words.Class.{Class};
ghost use Rattle.dtx_values.specs.declared.words.CloneKind.{CloneKind};
ghost use Rattle.dtx_values.specs.declared.words.Outcome.TheVariants.{Committed};
ghost use Rattle.dtx_values.specs.declared.row.Row.{Row};
ghost use Rattle.dtx_model.specs.declared.listener.Listener.{Listener};
ghost use Rattle.dtx_model.specs.Words.{has, each, always, ever, all_of, past_of};
ghost use Rattle.dtx_model.specs.Entries.{is_call, is_sealed, is_decision, is_promoted, is_client_told, clone_of};
ghost use Rattle.dtx_model.specs.Outcome.{enlisted, evidence, justified, agree};
ghost use Rattle.dtx_model.specs.Learned.{Learned};
ghost use Rattle.dtx_model.specs.Tied.{is_stop, tied};
ghost use Rattle.dtx_model.specs.Observed.{observe, rows, clone_rows, listeners};
ghost use Rattle.dtx_model.specs.Promotes.{promotes};
ghost use Rattle.dtx_model.specs.Wires.{WireRun};
ghost use Rattle.dtx_model.specs.Seen.{IsSeen, IsCloneSeen, IsHeard, is_timely};
ghost use Rattle.dtx_values.specs.Owners.{is_evident};
ghost use Rattle.dtx_model.specs.Calls.{call_of};
ghost use Rattle.dtx_model.specs.Contexts.{context};
ghost use Rattle.dtx_model.specs.declared.waiting.EnteredCall.{EnteredCall};
ghost use Rattle.dtx_model.specs.World.{World};
ghost use Rattle.dtx_model.specs.Caused.{IsCallOf, is_new, AreMadeOnce, CausedBy, FreelyCaused, IsIn, IsOwnRun, Settled, is_as_planned, is_unpromoted, plans_of};
ghost use Rattle.dtx_model.specs.AtLog.{follow_log, is_local_trace, is_restart};
ghost use Rattle.dtx_model.specs.Traces.{Placed, history, at_context, calls};
ghost use Rattle.dtx_model.specs.Replay.{IsReplayed, LinesRan, due_calls};
ghost use Rattle.dtx_model.specs.History.{AreAnswered, CanCommit, IsHistory, IsReplay, IsToldOrWaits};
ghost use Rattle.dtx_model.specs.Grammar.{are_named_well};
ghost use Rattle.history_table.specs.Appended.{backs_append, has_append, is_abort_decision, is_barred, stopped_at_append};
ghost use Rattle.script_histories.specs.LogQuiet.{is_log_sound};
ghost use Rattle.settled_histories.specs.Stopped.{is_outcome_withheld, restarts_without_evidence};
ghost use Rattle.history_table.specs.Waited.{AreCallsAnswered};

/// The law of one outcome: in a history that a script's lines freely cause, what is told is just, and no two are told opposite outcomes, promoted or not.
/// (Presumed abort: a commit is told on evidence alone.) Freely: whatever each reply is. Of the script it needs that names are made once, before they are
/// used; and of the log that each restart found what may be found there.
pub fn one_outcome()
    ensures just { (s : List Line) (t : ℕ) (h : List Entry) → are_named_well s ≡ true → FreelyCaused (IsCallOf s t) t h → tied h ≡ true → justified h ≡ true }
    ensures agrees { (s : List Line) (t : ℕ) (h : List Entry) → are_named_well s ≡ true → FreelyCaused (IsCallOf s t) t h → tied h ≡ true → agree h ≡ true }
    ensures learned { (s : List Line) (t : ℕ) (h : List Entry) → are_named_well s ≡ true → FreelyCaused (IsCallOf s t) t h → tied h ≡ true → Learned h }
{}

/// The same law for a program that gives a transaction its own calls, and has no script: of these it needs that no two make the same enlistment
/// or the same clone. Where no promotion begins no restart comes, so the log needs no word.
pub fn own_outcome()
    ensures just { (t : ℕ) (w : World) → AreMadeOnce (IsIn w.calls) → IsOwnRun t w → tied w.past ≡ true → justified w.past ≡ true }
    ensures agrees { (t : ℕ) (w : World) → AreMadeOnce (IsIn w.calls) → IsOwnRun t w → tied w.past ≡ true → agree w.past ≡ true }
    ensures learned { (t : ℕ) (w : World) → AreMadeOnce (IsIn w.calls) → IsOwnRun t w → tied w.past ≡ true → Learned w.past }
    ensures tied { (t : ℕ) (w : World) → IsOwnRun t w → is_unpromoted w.past ≡ true → tied w.past ≡ true }
{}

/// What appends to the log have to do with the outcome, whatever was cut, stopped and started again. Where an abort is decided, nothing was logged, there is no
/// record, and none may be appended; nor will one be, since the local side said no yes, the coordinator aborted or let one decide, or the vote of one whose ENLIST it got never
/// comes; and no owner answered committed, nor will one. Where an append may be tried, was done, or may have been tried where the log stopped first, and where there is a record, the
/// transaction is ready, and the coordinator got COMMIT, YES, and the vote of each whose ENLIST it got.
pub fn appends()
    ensures unlogged { (s : List Line) (t : ℕ) (h : List Entry) → are_named_well s ≡ true → FreelyCaused (IsCallOf s t) t h → tied h ≡ true → has is_abort_decision h ≡ true
        → has_append h ≡ false }
    ensures barred { (s : List Line) (t : ℕ) (h : List Entry) → are_named_well s ≡ true → FreelyCaused (IsCallOf s t) t h → tied h ≡ true → has is_abort_decision h ≡ true
        → is_barred h ≡ true }
    ensures backed { (s : List Line) (t : ℕ) (h : List Entry) → are_named_well s ≡ true → FreelyCaused (IsCallOf s t) t h → tied h ≡ true
        → (has_append h || stopped_at_append h) ≡ true → backs_append h ≡ true }
{}

/// What stops of the log do to the outcome, whatever was cut, stopped and started again. From a stop where an append may have been tried to the restart after it, nobody is
/// told committed or aborted, neither is decided, and no owner answers so. And where a restart found no record, and before it there was no evidence and nobody was let decide,
/// there is never evidence.
/// Where no restart came, there is none that found what may not be found.
pub fn stops()
    ensures withheld { (s : List Line) (t : ℕ) (h : List Entry) → are_named_well s ≡ true → FreelyCaused (IsCallOf s t) t h → tied h ≡ true → always is_outcome_withheld h ≡ true }
    ensures never { (s : List Line) (t : ℕ) (h : List Entry) → are_named_well s ≡ true → FreelyCaused (IsCallOf s t) t h → tied h ≡ true
        → ever restarts_without_evidence h ≡ true → evidence h ≡ false }
    ensures unrestarted { (h : List Entry) → has is_restart h ≡ false → tied h ≡ true }
{}

/// What is caused over calls that were entered is caused over a script whose lines give these calls; and a script in which names are made once gives
/// each transaction calls that make each name once.
pub fn lifting()
    ensures lifted { (s : List Line) (t : ℕ) (ks : List EnteredCall) (h : List Entry) → ((n : ℕ) (a : ActorNo) (c : Call) → IsIn ks n a c → IsCallOf s t n a c)
        → FreelyCaused (IsIn ks) t h → FreelyCaused (IsCallOf s t) t h }
    ensures once { (s : List Line) (t : ℕ) → are_named_well s ≡ true → AreMadeOnce (IsCallOf s t) }
{}

/// A history that a script's lines cause is promoted in order, where it is promoted at all; and what it gets over a connection was sent there in that order.
pub fn crossings()
    ensures promotes { (s : List Line) (t : ℕ) (h : List Entry) → are_named_well s ≡ true → FreelyCaused (IsCallOf s t) t h → tied h ≡ true → promotes s t h ≡ true }
    ensures wires { (s : List Line) (t : ℕ) (h : List Entry) → FreelyCaused (IsCallOf s t) t h → WireRun h }
{}

/// A settled transaction that can commit is committed, promoted or not: its client was told so. Whatever was lost, enlistments and connections, and however often the
/// coordinator stopped and was started again, where each restart found what may be found: if commit was asked, the client was told some outcome, or a blocking clone is
/// open, or an enlistment whose reply is needed plans none; each enlistment that came back was told, unless that was broken off, or nothing is decided at the coordinator;
/// and each call that had to wait was answered, or an enlistment that was asked to promote plans no reply to that. Freely: whatever each reply is.
pub fn completeness()
    ensures told { (s : List Line) (t : ℕ) (h : List Entry) → are_named_well s ≡ true → FreelyCaused (IsCallOf s t) t h → tied h ≡ true → IsToldOrWaits s h }
    ensures committed { (s : List Line) (t : ℕ) (h : List Entry) → are_named_well s ≡ true → FreelyCaused (IsCallOf s t) t h → Settled s h → CanCommit s h
        → has (is_client_told Committed) h ≡ true }
    ensures answered { (s : List Line) (t : ℕ) (h : List Entry) → are_named_well s ≡ true → FreelyCaused (IsCallOf s t) t h → tied h ≡ true → AreAnswered s h }
    ensures waited { (s : List Line) (t : ℕ) (h : List Entry) → are_named_well s ≡ true → FreelyCaused (IsCallOf s t) t h → tied h ≡ true → AreCallsAnswered s h }
{}

/// What a replay does in its order, promoted or not, whatever stops of the log and restarts come, is caused by its script in each transaction where its
/// replies are as planned, is at each context what its actor's lines write there, has each line's call exactly once at each of its places and in order, and
/// its transactions follow the log. Where the lines before it ran, a line was called nowhere, and what its call makes is new. Promoted or not, a script has one trace
/// in which the log is sound: it was never stopped, nor opened again, and no append found it full. And so it is where nothing is promoted and nothing stands at the
/// log. The trace is read newest first, but for the last two clauses.
pub fn replay()
    ensures caused { (s : List Line) (T : List Placed) → IsReplayed s T → (free : ℕ → Bool)
        → ((t : TxNo) → always (is_as_planned (plans_of s) free) (history t.value T) ≡ true) → (t : TxNo) → CausedBy s free t.value (history t.value T) }
    ensures contexts { (s : List Line) (T : List Placed) → IsReplayed s T → (a : ActorNo) → at_context a.value T ≡ context a.value (past_of s) }
    ensures called { (s : List Line) (T : List Placed) → IsReplayed s T → calls T ≡ due_calls s (past_of s) }
    ensures followed { (s : List Line) (T : List Placed) → IsReplayed s T → follow_log T ≡ true }
    ensures uncalled { (s xs ys : List Line) (l : Line) (T : List Placed) → s ≡ xs ++ l ∷ ys → LinesRan s (past_of xs) T → (t : TxNo)
        → has (is_call (suc (length xs))) (history t.value T) ≡ false }
    ensures fresh { (s xs ys : List Line) (l : Line) (T : List Placed) (t : TxNo) (c : Call) → s ≡ xs ++ l ∷ ys → are_named_well s ≡ true → LinesRan s (past_of xs) T
        → call_of s l.body ≡ Some (t, c) → is_new (observe (history t.value T)) c ≡ true }
    ensures determined { (s : List Line) (T U : List Placed) (rise : ℕ) (honest : Bool) → IsHistory s 0 rise T → IsReplay s rise honest T
        → IsHistory s 0 rise U → IsReplay s rise honest U → is_log_sound T ≡ true → is_log_sound U ≡ true → T ≡ U }
    ensures sound { (s : List Line) (k rise : ℕ) (T : List Placed) → IsHistory s k rise T → is_local_trace T ≡ true → is_log_sound T ≡ true }
{}

/// The tables of a history that a script's lines cause say what its entries say, promoted or not: of each enlistment, whether it was told and is lost, and of
/// each clone; and while nothing is promoted or decided, whether evidence stands. And a timeout comes once, at the first tick that reaches it.
pub fn tables()
    ensures enlisted { (h : List Entry) (f : EnlNo → Class → Bool) → each (λ x. f x.number x.class) (rows h) ≡ each (λ x. f x.0 x.1) (enlisted h) }
    ensures cloned { (h : List Entry) (f : CloneNo → CloneKind → Bool) → each (λ r. f r.clone r.kind) (clone_rows h) ≡ each (λ c. f c.0 c.1) (all_of clone_of h) }
    ensures rows { (s : List Line) (t : ℕ) (h : List Entry) → are_named_well s ≡ true → FreelyCaused (IsCallOf s t) t h → tied h ≡ true
        → (k : ℕ) (x : Row) → slice_get (rows h) k ≡ Some x → IsSeen h x }
    ensures clones { (s : List Line) (t : ℕ) (h : List Entry) → are_named_well s ≡ true → FreelyCaused (IsCallOf s t) t h → tied h ≡ true
        → (k : ℕ) (r : CloneRow) → slice_get (clone_rows h) k ≡ Some r → IsCloneSeen h r }
    ensures listeners { (s : List Line) (t : ℕ) (h : List Entry) → are_named_well s ≡ true → FreelyCaused (IsCallOf s t) t h → tied h ≡ true
        → (k : ℕ) (l : Listener) → slice_get (listeners h) k ≡ Some l → IsHeard h l }
    ensures counted { (h : List Entry) → length (rows h) ≡ length (enlisted h) }
    ensures evidence { (s : List Line) (t : ℕ) (h : List Entry) → are_named_well s ≡ true → FreelyCaused (IsCallOf s t) t h → tied h ≡ true → has is_promoted h ≡ false
        → has is_decision h ≡ false → is_evident (has is_sealed h) (rows h) ≡ evidence h }
    ensures timed { (s : List Line) (t : ℕ) (h : List Entry) → FreelyCaused (IsCallOf s t) t h → always is_timely h ≡ true }
{}
