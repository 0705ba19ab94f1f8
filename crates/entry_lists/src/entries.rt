//! Entries of one history.
ghost use Rattle.std.specs.Prelude.{◌≡◌, ◌≤◌, ◌<◌, ◌+◌, ◌++◌, ◌∷◌, [], IfOk, OnErr, OnOk, length, slice_index_or};
ghost use Rattle.entry_lists.specs.Held.{entry_in};

use crate::brief::{Brief, entry_in, keep, make_room};
use dtx_values::Entry;
use std::alloc::{AllocError, Global};
use std::marker::Model;

/// A list of entries that takes little room. Contracts see the entries, and for how many more there is room.
#[derive(Drop)]
pub struct Entries {
    briefs: Vec<Brief>,
    wholes: Vec<Entry>,
    room: usize,
}

impl Model for Entries {
    ghost use Rattle.std.specs.Prelude.{◌≡◌, ◌≤◌, ◌+◌, ◌^◌, length, map, true, vec_capacity, vec_len};
    ghost use Rattle.dtx_model.specs.Words.{each};
    ghost use Rattle.entry_lists.specs.Held.{Held, entry_in, is_within};

    ghost Value = { Held };

    ghost view = { λ h. record { items = map (entry_in h.wholes.items) h.briefs.items; room = h.room } };

    ghost invariant = { λ h. (each (is_within (length h.wholes.items)) h.briefs.items ≡ true)
        × (vec_len h.briefs + h.room ≤ vec_capacity h.briefs) × (vec_len h.wholes + h.room ≤ vec_capacity h.wholes) × (vec_len h.wholes + h.room ≤ 2 ^ 32) };
}

impl Entries {
    /// No entry, with room for so many, if they have few bytes.
    pub fn with_capacity(alloc: Global, n: usize) -> Result<Entries, AllocError>
        ensures { IfOk result (λ h. h.items ≡ []) }
    {
        Ok(Entries {
            briefs: Vec::with_capacity(alloc, n)?,
            wholes: Vec::new(alloc),
            room: 0,
        })
    }

    /// Makes room for so many more entries.
    pub fn reserve(&mut self, n: usize) -> Result<(), AllocError>
        ensures items { self.new.items ≡ self.old.items }
        ensures room { OnOk result (n ≤ self.new.room) }
        ensures grows { self.old.room ≤ self.new.room }
    {
        self.room = make_room(&mut self.briefs, &mut self.wholes, self.room, n)?;
        Ok(())
    }

    /// Puts an entry after the others.
    #[inline(always)]
    pub fn push_reserved(&mut self, e: &Entry)
        requires { 0 < self.old.room }
        ensures items { self.new.items ≡ self.old.items ++ e.now ∷ [] }
        ensures room { self.old.room ≡ self.new.room + 1 }
    {
        let brief = keep(&mut self.wholes, e);
        self.briefs.push_reserved(brief);
        self.room -= 1;
    }

    /// How many entries there are.
    pub fn len(&self) -> usize
        ensures { result ≡ length self.now.items }
    {
        self.briefs.len()
    }

    /// The entries that stand whole, and the i-th entry in few bytes or as its place among them.
    #[inline(always)]
    pub(crate) fn kept_at(&self, i: usize) -> (&[Entry], Brief)
        requires { i < length self.now.items }
        ensures { let e = entry_in result.0.now result.1 in e ≡ slice_index_or self.now.items i e }
    {
        (self.wholes.as_slice(), self.briefs[i])
    }

    /// The entry at a place, from 0.
    #[inline(always)]
    pub fn at(&self, i: usize) -> Entry
        requires { i < length self.now.items }
        ensures { result ≡ slice_index_or self.now.items i result }
    {
        let (wholes, brief) = self.kept_at(i);
        entry_in(wholes, brief)
    }
}
