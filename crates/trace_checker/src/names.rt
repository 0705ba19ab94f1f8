//! Sets of names, by number.
ghost use Rattle.std.specs.Prelude.{◌≡◌, ℕ, ◌==◌, ◌||◌, false, OnOk};

use crate::table::{item_at, put_at};
use std::alloc::{AllocError, Global};

/// A set of names, by number.
#[derive(Drop)]
pub struct Names {
    /// Whether each is there.
    there: Vec<bool>,
}

impl Names {
    ghost use Rattle.trace_checker.specs.Names.{has_name};

    /// No names.
    pub fn new(alloc: Global) -> Names
        ensures { (n : ℕ) → has_name n result ≡ false }
    {
        Names {
            there: Vec::new(alloc),
        }
    }

    /// Whether it has this name.
    #[inline(always)]
    pub fn contains(&self, n: u32) -> bool
        ensures { result ≡ has_name n self.now }
    {
        item_at(&self.there, n, false)
    }

    /// Adds this name.
    pub fn add(&mut self, n: u32) -> Result<(), AllocError>
        ensures { OnOk result ((k : ℕ) → has_name k self.new ≡ ((k == n) || has_name k self.old)) }
    {
        put_at(&mut self.there, n, false, true)
    }
}
