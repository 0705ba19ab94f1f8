//! Objects that hear the notes of a manager's enlistments.
use crate::note::{Note, Reply};
use crate::number::{EnlNo, TxNo};

/// A resource manager's object. Its meaning is the relation `gives`: the object before, the transaction, the
/// enlistment, the note, the answer, and the object after. No answer means that the script's plan replies.
pub trait Resource: Drop {
    ghost use Rattle.std.specs.Prelude.{Option};
    ghost use Rattle.dtx_values.specs.declared.note.Note.{Note};
    ghost use Rattle.dtx_values.specs.declared.note.Reply.{Reply};
    ghost use Rattle.dtx_values.specs.declared.number.EnlNo.{EnlNo};
    ghost use Rattle.dtx_values.specs.declared.number.TxNo.{TxNo};

    ghost gives: { Self → TxNo → EnlNo → Note → Option Reply → Self → Type 0 };

    /// Hears a note, and may reply to it.
    fn on(&mut self, t: TxNo, e: EnlNo, n: Note) -> Option<Reply>
        ensures { gives self.old t e n result self.new };
}
