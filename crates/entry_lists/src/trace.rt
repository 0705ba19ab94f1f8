//! Traces. Their form is this project's own.
ghost use Rattle.std.specs.Prelude.{◌≡◌, ◌<◌, length, slice_index_or};

use crate::placed::PlacedEntries;
use dtx_values::{Entry, Place};
use std::marker::Model;

/// A trace: entries with their places, oldest first, which contracts see as a list.
#[derive(Drop)]
pub struct Trace {
    entries: PlacedEntries,
}

impl Model for Trace {
    ghost use Rattle.std.specs.Prelude.{List};
    ghost use Rattle.dtx_values.specs.declared.trace.Place.{Place};
    ghost use Rattle.dtx_values.specs.declared.entry.Entry.{Entry};

    ghost Value = { List (Place × Entry) };

    ghost view = { λ t. t.entries.items };
}

impl Trace {
    /// The trace of these entries.
    pub fn new(entries: PlacedEntries) -> Trace
        ensures { result ≡ entries.items }
    {
        Trace { entries }
    }

    /// How many entries there are.
    pub fn len(&self) -> usize
        ensures { result ≡ length self.now }
    {
        self.entries.len()
    }

    /// The i-th entry with its place, from 0.
    #[inline(always)]
    pub fn at(&self, i: usize) -> (Place, Entry)
        requires { i < length self.now }
        ensures { result ≡ slice_index_or self.now i result }
    {
        self.entries.at(i)
    }
}
