//! What happened to the transaction as a whole.
ghost use Rattle.std.specs.Prelude.{◌≡◌, ◌||◌};
ghost use Rattle.dtx_model.specs.Entries.{same_outcome};
ghost use Rattle.dtx_values.specs.declared.words.Outcome.TheVariants.{Committed, Aborted};

use dtx_values::{Conn, Dir, Entry, Message, Outcome};

/// What happened to the transaction as a whole. Each flag says whether such an entry stands in the history.
#[derive(Clone, Copy, PartialEq, Eq, Debug)]
pub struct Marks {
    pub commit: bool,
    pub sealed: bool,
    pub promoted: bool,
    /// The record was logged, or found again.
    pub recorded: bool,
    /// The local side said yes.
    pub yes: bool,
    /// The commit was handed to some enlistment.
    pub handed: bool,
    /// The coordinator let some enlistment decide.
    pub single: bool,
    pub decided: bool,
    /// Somebody was told it, it was decided, or an owner answered it.
    pub committed: bool,
    pub aborted: bool,
}

impl Marks {
    ghost use Rattle.trace_checker.specs.Marks.{marks_after};

    /// Nothing happened.
    pub const NONE: Marks = Marks {
        commit: false,
        sealed: false,
        promoted: false,
        recorded: false,
        yes: false,
        handed: false,
        single: false,
        decided: false,
        committed: false,
        aborted: false,
    };

    /// Notes an outcome that is told, decided or answered.
    fn note_outcome(&mut self, o: Outcome)
        ensures { self.new ≡ record self.old { committed = same_outcome Committed o || self.old.committed; aborted = same_outcome Aborted o || self.old.aborted } }
    {
        match o {
            Outcome::Committed => self.committed = true,
            Outcome::Aborted => self.aborted = true,
            Outcome::InDoubt => {}
        }
    }

    /// Notes the entry.
    #[inline(always)]
    pub fn follow(&mut self, x: &Entry)
        ensures { self.new ≡ marks_after x.now self.old }
    {
        match *x {
            Entry::CommitAsked => self.commit = true,
            Entry::Sealed => self.sealed = true,
            Entry::Promoted(_, _) => self.promoted = true,
            Entry::Logged => self.recorded = true,
            Entry::Restarted(found) => self.recorded |= found,
            Entry::LocalYes => self.yes = true,
            Entry::Handed(_) => self.handed = true,
            Entry::Sent(Conn::Enl(_), Dir::Down, Message::EnlistSingle) => self.single = true,
            Entry::Decided(o) => {
                self.decided = true;
                self.note_outcome(o);
            }
            Entry::Told(_, o) | Entry::OwnerAnswered(_, o) => self.note_outcome(o),
            _ => {}
        }
    }
}
