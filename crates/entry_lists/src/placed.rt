//! Entries with their places.
ghost use Rattle.std.specs.Prelude.{◌≡◌, ◌≤◌, ◌<◌, ◌+◌, ◌^◌, ◌++◌, ◌∷◌, [], IfOk, OnErr, OnOk, drop, length, map, slice_index_or};
ghost use Rattle.entry_lists.specs.Held.{entry_in};

use crate::brief::{Brief, entry_in, keep, keep_from, make_room};
use crate::entries::Entries;
use crate::short::{ShortPlace, place_of, short_place};
use dtx_values::{Entry, Place};
use std::alloc::{AllocError, Global};
use std::marker::Model;

const _: () = prove!(std::mem::size_of::<(ShortPlace, Brief)>() == 12);

/// A list of entries with their places that takes little room. Contracts see the entries with their places, and for how many more there is room.
#[derive(Drop)]
pub struct PlacedEntries {
    briefs: Vec<(ShortPlace, Brief)>,
    wholes: Vec<Entry>,
    room: usize,
}

impl Model for PlacedEntries {
    ghost use Rattle.std.specs.Prelude.{◌≡◌, ◌≤◌, ◌+◌, ◌^◌, length, map, true, vec_capacity, vec_len};
    ghost use Rattle.dtx_model.specs.Words.{each};
    ghost use Rattle.entry_lists.specs.Held.{HeldPlaced, placed_in, is_placed_within};

    ghost Value = { HeldPlaced };

    ghost view = { λ h. record { items = map (placed_in h.wholes.items) h.briefs.items; room = h.room } };

    ghost invariant = { λ h. (each (is_placed_within (length h.wholes.items)) h.briefs.items ≡ true)
        × (vec_len h.briefs + h.room ≤ vec_capacity h.briefs) × (vec_len h.wholes + h.room ≤ vec_capacity h.wholes) × (vec_len h.wholes + h.room ≤ 2 ^ 32) };
}

impl PlacedEntries {
    /// No entry, and no room.
    pub fn new(alloc: Global) -> PlacedEntries
        ensures { result.items ≡ [] }
    {
        PlacedEntries {
            briefs: Vec::new(alloc),
            wholes: Vec::new(alloc),
            room: 0,
        }
    }

    /// No entry, with room for so many, if they have few bytes.
    pub fn with_capacity(alloc: Global, n: usize) -> Result<PlacedEntries, AllocError>
        ensures { IfOk result (λ h. h.items ≡ []) }
    {
        Ok(PlacedEntries {
            briefs: Vec::with_capacity(alloc, n)?,
            wholes: Vec::new(alloc),
            room: 0,
        })
    }

    /// Makes room for so many more entries.
    pub fn reserve(&mut self, n: usize) -> Result<(), AllocError>
        ensures items { self.new.items ≡ self.old.items }
        ensures room { OnOk result (n ≤ self.new.room) }
    {
        self.room = make_room(&mut self.briefs, &mut self.wholes, self.room, n)?;
        Ok(())
    }

    /// Puts an entry with its place after the others.
    pub fn push_reserved(&mut self, x: (Place, Entry))
        requires { 0 < self.old.room }
        ensures items { self.new.items ≡ self.old.items ++ x ∷ [] }
        ensures room { self.old.room ≡ self.new.room + 1 }
    {
        let brief = keep(&mut self.wholes, &x.1);
        self.briefs.push_reserved((short_place(x.0), brief));
        self.room -= 1;
    }

    /// Puts an entry with its place after the others.
    pub fn push(&mut self, x: (Place, Entry)) -> Result<(), AllocError>
        ensures items { OnOk result (self.new.items ≡ self.old.items ++ x ∷ []) }
        ensures memory { OnErr result (self.new.items ≡ self.old.items) }
    {
        self.reserve(1)?;
        self.push_reserved(x);
        Ok(())
    }

    /// Puts after the others an entry that stands in few bytes, or whole among those of another list.
    #[inline(always)]
    fn push_kept(&mut self, place: Place, list: &[Entry], b: Brief)
        requires { 0 < self.old.room }
        ensures items { self.new.items ≡ self.old.items ++ (place, entry_in list.now b) ∷ [] }
        ensures room { self.old.room ≡ self.new.room + 1 }
    {
        let brief = keep_from(&mut self.wholes, list, b);
        self.briefs.push_reserved((short_place(place), brief));
        self.room -= 1;
    }

    /// Puts after the others, each at this place, the entries from the place `from` on.
    pub fn push_from(&mut self, place: Place, entries: &Entries, from: usize)
        requires room { length (drop from entries.now.items) ≤ self.old.room }
        ensures items { self.new.items ≡ self.old.items ++ map (λ e. (place, e)) (drop from entries.now.items) }
    {
        for i in from..entries.len() {
            let (list, brief) = entries.kept_at(i);
            self.push_kept(place, list, brief);
        }
    }

    /// How many entries there are.
    pub fn len(&self) -> usize
        ensures count { result ≡ length self.now.items }
        ensures few { result < 2 ^ 63 }
    {
        self.briefs.len()
    }

    /// The i-th entry with its place, from 0.
    #[inline(always)]
    pub fn at(&self, i: usize) -> (Place, Entry)
        requires { i < length self.now.items }
        ensures { result ≡ slice_index_or self.now.items i result }
    {
        let (place, brief) = self.briefs[i];
        (place_of(place), entry_in(&self.wholes, brief))
    }
}
