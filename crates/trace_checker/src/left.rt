//! Names that wait for something.
ghost use Rattle.std.specs.Prelude.{◌≡◌, ℕ, Bool, ◌==◌, ◌&&◌, ◌||◌, not, true, false, OnOk};
ghost use Rattle.std.specs.List.{count_by};
ghost use Rattle.trace_checker.specs.Waiting.{is_waiting};

use crate::table::reach;
use std::alloc::{AllocError, Global};

/// What is known of a name.
#[derive(Clone, Copy, PartialEq, Eq, Debug)]
pub enum Waiting {
    /// It neither came nor is done.
    Unknown,
    /// It came, and isn't done.
    Waits,
    /// It is done, whether it came or not.
    Done,
}

/// Which names are done, and which of those that came are left: they aren't done.
#[derive(Drop)]
pub struct Left {
    /// What is known of each, by number.
    names: Vec<Waiting>,
    /// How many are left, so that it needs no search to see that none is.
    count: usize,
    ghost counted: { count ≡ count_by is_waiting names.items },
}

impl Left {
    ghost use Rattle.trace_checker.specs.Left.{IsLeft};

    /// None came, and none is done.
    pub fn new(alloc: Global) -> Left
        ensures { IsLeft (λ n. false) (λ n. false) result }
    {
        Left {
            names: Vec::new(alloc),
            count: 0,
        }
    }

    /// This name came.
    #[inline(always)]
    pub fn add(&mut self, n: u32) -> Result<(), AllocError>
        ensures { OnOk result ((came done : ℕ → Bool) → IsLeft came done self.old → IsLeft (λ k. (k == n) || came k) done self.new) }
    {
        reach(&mut self.names, n, Waiting::Unknown)?;
        match self.names[n as usize] {
            Waiting::Unknown => {
                self.names[n as usize] = Waiting::Waits;
                self.count += 1;
            }
            Waiting::Waits | Waiting::Done => {}
        }
        Ok(())
    }

    /// This name is done, whether it came or not.
    #[inline(always)]
    pub fn settle(&mut self, n: u32) -> Result<(), AllocError>
        ensures { OnOk result ((came done : ℕ → Bool) → IsLeft came done self.old → IsLeft came (λ k. (k == n) || done k) self.new) }
    {
        reach(&mut self.names, n, Waiting::Unknown)?;
        match self.names[n as usize] {
            Waiting::Unknown => self.names[n as usize] = Waiting::Done,
            Waiting::Waits => {
                self.names[n as usize] = Waiting::Done;
                self.count -= 1;
            }
            Waiting::Done => {}
        }
        Ok(())
    }

    /// Whether none is left.
    pub fn is_none(&self) -> bool
        ensures none { result ≡ true → (came done : ℕ → Bool) → IsLeft came done self.now → (k : ℕ) → (came k && not (done k)) ≡ false }
        ensures some { result ≡ false → (came done : ℕ → Bool) → IsLeft came done self.now → (k : ℕ) × ((came k && not (done k)) ≡ true) }
    {
        self.count == 0
    }
}
