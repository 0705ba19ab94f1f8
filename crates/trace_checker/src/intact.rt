//! Which connections are intact.
ghost use Rattle.std.specs.Prelude.{◌≡◌, ℕ, ◌≤◌, ◌==◌, ◌&&◌, ◌||◌, not, true, false, OnOk, slice_index_or};

use crate::table::{item_at, put_at};
use std::alloc::{AllocError, Global};

/// The connections that aren't lost since they were opened, by number.
#[derive(Drop)]
pub struct Intact {
    /// The run of the coordinator in which each was opened; 0 where it is lost by itself, or was never opened.
    runs: Vec<u32>,
    /// The run that goes on, from 1. The next one begins at a stop, so that each connection is lost with no work for each.
    run: u32,
    ghost begun: { 1 ≤ run },
    ghost past: { (k : ℕ) → slice_index_or runs.items k 0 ≤ run },
}

impl Intact {
    ghost use Rattle.trace_checker.specs.Intact.{is_intact_at};

    /// None was opened.
    pub fn new(alloc: Global) -> Intact
        ensures { (k : ℕ) → is_intact_at k result ≡ false }
    {
        Intact {
            runs: Vec::new(alloc),
            run: 1,
        }
    }

    /// Whether connection k is intact.
    #[inline(always)]
    pub fn contains(&self, k: u32) -> bool
        ensures { result ≡ is_intact_at k self.now }
    {
        item_at(&self.runs, k, 0) == self.run
    }

    /// Connection k is opened.
    pub fn add(&mut self, k: u32) -> Result<(), AllocError>
        ensures { OnOk result ((q : ℕ) → is_intact_at q self.new ≡ ((q == k) || is_intact_at q self.old)) }
    {
        put_at(&mut self.runs, k, 0, self.run)
    }

    /// Connection k is lost.
    pub fn remove(&mut self, k: u32)
        ensures { (q : ℕ) → is_intact_at q self.new ≡ (not (q == k) && is_intact_at q self.old) }
    {
        if self.contains(k) {
            self.runs[k as usize] = 0;
        }
    }

    /// Each connection is lost.
    pub fn clear(&mut self)
        ensures { (k : ℕ) → is_intact_at k self.new ≡ false }
    {
        if self.run == u32::MAX {
            self.runs.clear();
            self.run = 0;
        }
        self.run += 1;
    }
}
