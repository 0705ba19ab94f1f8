//! The laws of the order of calls, where each actor of a script goes on in a thread of its own.
//!
//! The calls of two actors on one transaction may come in either order, as two threads that call one `CommittableTransaction` may. Those of one actor
//! come in the order of its lines, at each transaction, at its own stack of scopes, and at the log. So a trace of threads need not be a replay's, which has
//! all calls in the order of lines; but each actor's share of it at each place is the same.
//!
//! Each law is a public function with an empty body. It does nothing when it runs. A caller calls it for its contract: after the call the proof of the caller
//! has the law.
#![tactic(auto)]

ghost use Rattle.std.specs.Prelude.{◌≡◌, ℕ, true, false, List, [], map};
ghost use Rattle.dtx_values.specs.declared.call.Call.{Call};
ghost use Rattle.dtx_values.specs.declared.entry.Entry.{Entry};
ghost use Rattle.dtx_values.specs.declared.number.ActorNo.{ActorNo};
ghost use Rattle.dtx_values.specs.declared.number.TxNo.{TxNo};
ghost use Rattle.dtx_values.specs.declared.script.Line.{Line};
ghost use Rattle.dtx_values.specs.declared.trace.Place.{Place};
ghost use Rattle.dtx_values.specs.Table.{how_many};
ghost use Rattle.dtx_model.specs.AtLog.{at_log};
ghost use Rattle.dtx_model.specs.Caused.{IsOwnRun};
ghost use Rattle.dtx_model.specs.Contexts.{context};
ghost use Rattle.dtx_model.specs.Grammar.{IsScript, OfTransaction, is_made};
ghost use Rattle.dtx_model.specs.History.{is_call_at};
ghost use Rattle.dtx_model.specs.Replay.{due_calls};
ghost use Rattle.dtx_model.specs.Traces.{Placed, at_context, calls, history};
ghost use Rattle.dtx_model.specs.Words.{past_of};
ghost use Rattle.dtx_model.specs.World.{World};
ghost use Rattle.script_calls.specs.declared.calls.LogCall.{LogCall};
ghost use Rattle.script_calls.specs.Due.{calls_at, log_calls_at};
ghost use Rattle.script_calls.specs.Prefix.{IsLogPrefix, IsPrefix, entered_by, lines_by};
ghost use Rattle.script_calls.specs.Rows.{are_entered};
ghost use Rattle.script_calls.specs.SeenRow.{SeenRow};
ghost use Rattle.call_order.specs.InOrder.{AreInActorOrder, lines_of};

/// What a transaction's history has of each actor: the lines of the calls that the actor entered there, and no others. Once each actor entered all calls that the
/// script gives it there, they are the lines of these, in order; and so it is at the log. A script gives no call to a transaction that it doesn't make.
pub fn entered_calls()
    ensures entered { (t : ℕ) (w : World) → IsOwnRun t w → (a : ℕ) → lines_by a w.past ≡ map (λ d. d.line) (entered_by a w.calls) }
    ensures whole { (s : List Line) (t : ℕ) (rows : List (SeenRow Call)) (w : World) → IsOwnRun t w → IsPrefix s t rows w.calls → are_entered rows ≡ true
        → (a : ActorNo) → lines_by a.value w.past ≡ lines_of (calls_at s a.value t) }
    ensures whole_log { (s : List Line) (rows : List (SeenRow LogCall)) (h : List Entry) → IsLogPrefix s rows h → are_entered rows ≡ true
        → (a : ActorNo) → lines_by a.value h ≡ lines_of (log_calls_at s a.value) }
    ensures unnamed { (s : List Line) (t : ℕ) → IsScript s → is_made s (OfTransaction t) ≡ false → (a : ℕ) → calls_at s a t ≡ [] }
{}

/// The order on threads. Where at each transaction and at the log each actor's calls are those that its lines make there, in order, and each actor's scopes are
/// those of its lines, the trace has this order at every place. In it each call stands exactly once at each of its places. A replay has it too.
pub fn call_order()
    ensures ordered { (s : List Line) (T : List Placed) → ((t : TxNo) (a : ActorNo) → lines_by a.value (history t.value (past_of T)) ≡ lines_of (calls_at s a.value t.value))
        → ((a : ActorNo) → at_context a.value (past_of T) ≡ context a.value (past_of s))
        → ((a : ActorNo) → lines_by a.value (at_log (past_of T)) ≡ lines_of (log_calls_at s a.value)) → AreInActorOrder s T }
    ensures called { (s : List Line) (T : List Placed) → AreInActorOrder s T
        → (p : Place) (n a : ℕ) → how_many (is_call_at p n a) (calls (past_of T)) ≡ how_many (is_call_at p n a) (due_calls s (past_of s)) }
    ensures replayed { (s : List Line) (T : List Placed) → calls (past_of T) ≡ due_calls s (past_of s) → AreInActorOrder s T }
{}
