//! Objects that hear what comes of the transactions that they are enlisted in.
use crate::enlistment::Enlistment;
use dtx_values::{Note, Reply};

/// The object of the resource managers of a program. Its meaning is the relation `gives`: the object before, the enlistment, the note, the reply, and the object after.
/// (`IEnlistmentNotification`, `ISinglePhaseNotification` and `IPromotableSinglePhaseNotification` of System.Transactions, in one.)
///
/// | note | what it asks | reply |
/// |---|---|---|
/// | `Init` | a promotable is the first of its transaction | none |
/// | `Prepare` | can it commit? | `Vote` |
/// | `Promote` | hand the transaction to the coordinator | `Promote` |
/// | `Hand` | decide the outcome alone | `Owner` |
/// | `Single` | a promoted promotable: is it to commit? | `Owner`: aborted is no |
/// | `Commit` | make the work last | `Ack`, where it is durable |
/// | `Rollback` | undo the work | none |
/// | `InDoubt` | the outcome isn't known | none |
pub trait ResourceManager: Drop {
    ghost use Rattle.std.specs.Prelude.{Option};
    ghost use Rattle.dtx_values.specs.declared.note.Note.{Note};
    ghost use Rattle.dtx_values.specs.declared.note.Reply.{Reply};
    ghost use Rattle.resource_managers.specs.declared.enlistment.Enlistment.{Enlistment};

    ghost gives: { Self → Enlistment → Note → Option Reply → Self → Type 0 };

    /// Hears a note. No reply to a question puts it off: `TransactionManager::reply` gives it later. A reply that doesn't fit the note, or that isn't due, counts as none.
    fn on(&mut self, e: Enlistment, n: Note) -> Option<Reply>
        ensures { gives self.old e n result self.new };
}
