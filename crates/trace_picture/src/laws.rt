//! What a picture shows of the messages.
ghost use Rattle.std.specs.Prelude.{◌≡◌, ◌∷◌, false, ℕ, List};
ghost use Rattle.dtx_model.specs.AtLog.{at_log};
ghost use Rattle.dtx_model.specs.Traces.{Placed, history};
ghost use Rattle.dtx_model.specs.Wires.{WireRun};
ghost use Rattle.dtx_model.specs.Words.{has};
ghost use Rattle.dtx_values.specs.declared.entry.Entry.{Entry as HistoryEntry};
ghost use Rattle.dtx_values.specs.declared.message.Conn.{Conn};
ghost use Rattle.dtx_values.specs.declared.message.Dir.{Dir};
ghost use Rattle.dtx_values.specs.declared.message.Message.{Message};
ghost use Rattle.dtx_values.specs.declared.script.Line.{Line};
ghost use Rattle.trace_picture.specs.OwnSent.{HasOwnArrow, is_message};
ghost use Rattle.trace_picture.specs.Rows.{rows};

use dtx_values::Entry;

/// In the picture of a transaction whose messages cross as its connections carry them, each message that is got is drawn as one arrow, from the row in which that very message was
/// sent, and no other message that comes is drawn from there. Entries at the log may come between, as they are of no message. A law: the body is empty, and who calls this has the law
/// in its proof.
pub fn each_got_has_its_arrow()
    ensures own { (s : List Line) (came : List ℕ) (t : ℕ) (T : List Placed) (c : Conn) (d : Dir) (m : Message) → WireRun (HistoryEntry.Got c d m ∷ history t T) → has is_message (at_log T) ≡ false → HasOwnArrow s came (rows t T).entries c d m }
{}
