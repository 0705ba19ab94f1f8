//! Who hasn't voted yes or done yet, and which clones aren't complete.
ghost use Rattle.std.specs.Prelude.{◌≡◌, List, [], ◌∷◌, ◌&&◌, not, OnOk};
ghost use Rattle.dtx_values.specs.declared.entry.Entry.{Entry};
ghost use Rattle.dtx_model.specs.Entries.{is_good_vote};
ghost use Rattle.dtx_model.specs.Outcome.{durables, is_complete, is_rollback, volatiles};
ghost use Rattle.dtx_model.specs.Words.{each, has};

use crate::left::Left;
use dtx_values::{CloneKind, Entry};
use std::alloc::{AllocError, Global};

/// Who was enlisted and hasn't voted yes or done yet, and which clones aren't complete.
#[derive(Drop)]
pub struct Voters {
    volatiles: Left,
    /// The durables and promotables.
    durables: Left,
    clones: Left,
    /// The clones that make a commit a veto while they aren't complete.
    rollbacks: Left,
}

impl Voters {
    ghost use Rattle.trace_checker.specs.Voters.{IsVotersOf, clones};

    /// Nobody was enlisted.
    pub fn new(alloc: Global) -> Voters
        ensures { IsVotersOf [] result }
    {
        Voters {
            volatiles: Left::new(alloc),
            durables: Left::new(alloc),
            clones: Left::new(alloc),
            rollbacks: Left::new(alloc),
        }
    }

    /// Whether each volatile voted yes or done.
    pub fn have_volatiles_voted(&self) -> bool
        ensures { (h : List Entry) → IsVotersOf h self.now → result ≡ each (λ x. has (is_good_vote x.0.value) h) (volatiles h) }
    {
        self.volatiles.is_none()
    }

    /// Whether each durable and promotable voted yes or done.
    pub fn have_durables_voted(&self) -> bool
        ensures { (h : List Entry) → IsVotersOf h self.now → result ≡ each (λ x. has (is_good_vote x.0.value) h) (durables h) }
    {
        self.durables.is_none()
    }

    /// Whether each clone is complete.
    pub fn are_clones_complete(&self) -> bool
        ensures { (h : List Entry) → IsVotersOf h self.now → result ≡ each (λ c. is_complete h c) (clones h) }
    {
        self.clones.is_none()
    }

    /// Whether each rollback clone is complete.
    pub fn are_rollbacks_complete(&self) -> bool
        ensures { (h : List Entry) → IsVotersOf h self.now → result ≡ not (has (λ c. is_rollback c.1 && not (is_complete h c)) (clones h)) }
    {
        self.rollbacks.is_none()
    }

    /// Notes the entry.
    #[inline(always)]
    pub fn follow(&mut self, x: &Entry) -> Result<(), AllocError>
        ensures { OnOk result ((h : List Entry) → IsVotersOf h self.old → IsVotersOf (x.now ∷ h) self.new) }
    {
        match *x {
            Entry::Enlisted(e, c) => {
                if c.is_volatile() {
                    self.volatiles.add(e.get())
                } else {
                    self.durables.add(e.get())
                }
            }
            Entry::Voted(e, v) => {
                if v.is_good() {
                    self.volatiles.settle(e.get())?;
                    self.durables.settle(e.get())?;
                }
                Ok(())
            }
            Entry::Cloned(c, CloneKind::Block) => self.clones.add(c.get()),
            Entry::Cloned(c, CloneKind::Rollback) => {
                self.clones.add(c.get())?;
                self.rollbacks.add(c.get())
            }
            Entry::Completed(c) => {
                self.clones.settle(c.get())?;
                self.rollbacks.settle(c.get())
            }
            _ => Ok(()),
        }
    }
}
