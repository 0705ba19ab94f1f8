//! The map.
ghost use Rattle.std.specs.Prelude.{◌≡◌, ◌≤◌, false, [], None, IfErr, OnErr, OnOk, length, vec_capacity};
ghost use Rattle.std.specs.List.{insert};
ghost use Rattle.tx_map.specs.Live.{base_at, entry_key, get_at};
ghost use Rattle.tx_map.specs.Room.{HasRoom};
ghost use Rattle.tx_map.specs.Notes.{after_note, vote_of};
ghost use Rattle.tx_map.specs.Order.{IsRising};
ghost use Rattle.tx_map.specs.Pairs.{AreTallied};
ghost use Rattle.tx_map.specs.Puts.{after_put, has_voted, put_error, put_refusal};

use crate::live::{forget, mark, place};
use crate::merge::merge;
use crate::order::find_by_key;
use crate::pairs::{Tallies, forget_tally, keep_tally, mark_tally, tally};
use crate::refusal::MapRefusal;
use crate::write::{LiveWrite, MapEntry};
use dtx_values::{EnlNo, Note, Reply, Resource, TxNo, Vote};
use std::alloc::{AllocError, Global};
use std::collections::BTreeMap;
use std::marker::Model;
use std::mem;

/// A transactional map from `u32` to `u64` in memory. Contracts see its base and its live writes, both in order of key.
#[derive(Drop)]
pub struct TxMap {
    base: Vec<MapEntry>,
    live: Vec<LiveWrite>,
    /// What a put has to know of a pair's live writes.
    pairs: Tallies,
    /// Empty, with room for the next base: Commit takes no memory.
    spare: Vec<MapEntry>,
}

impl Model for TxMap {
    ghost use Rattle.tx_map.specs.Live.{MapState};

    ghost Value = { MapState };

    ghost use Rattle.tx_map.specs.Kept.{IsKept, state_of};

    ghost view = { state_of };

    ghost invariant = { IsKept };
}

/// Adds the write at its place, and counts it, once there is room for a base with all live writes, and for the next one.
fn add(
    base: &mut Vec<MapEntry>,
    spare: &mut Vec<MapEntry>,
    live: &mut Vec<LiveWrite>,
    pairs: &mut Tallies,
    at: usize,
    write: LiveWrite,
) -> Result<(), AllocError>
    requires at { at ≤ length live.old.items }
    requires tallied { AreTallied live.old.items pairs.old }
    requires not_voted { has_voted (write.transaction, write.enlistment) live.old.items ≡ false }
    requires new { write.voted ≡ false }
    ensures base { base.new.items ≡ base.old.items }
    ensures spare { spare.new.items ≡ spare.old.items }
    ensures base_room { vec_capacity base.old ≤ vec_capacity base.new }
    ensures spare_room { vec_capacity spare.old ≤ vec_capacity spare.new }
    ensures live { OnOk result (live.new.items ≡ insert live.old.items at write) }
    ensures unchanged { OnErr result (live.new.items ≡ live.old.items) }
    ensures tallied { AreTallied live.new.items pairs.new }
    ensures made { OnOk result (HasRoom base.new.items live.new.items (vec_capacity base.new)) }
    ensures next { OnOk result (HasRoom base.new.items live.new.items (vec_capacity spare.new)) }
{
    let writes = live.len() + 1;
    base.reserve(writes)?;
    spare.reserve(base.len() + writes)?;
    live.reserve(1)?;
    let keys = tally(pairs, write.transaction, write.enlistment).keys + 1;
    keep_tally(pairs, write.transaction, write.enlistment, keys)?;
    match live.insert(at, write) {
        Ok(()) => Ok(()),
        Err(_) => unreachable!(),
    }
}

impl TxMap {
    /// The empty map. Its puts take memory from this allocator.
    pub fn new(alloc: Global) -> Self
        ensures base { result.base ≡ [] }
        ensures live { result.live ≡ [] }
    {
        TxMap {
            base: Vec::new(alloc),
            live: Vec::new(alloc),
            pairs: BTreeMap::new(alloc),
            spare: Vec::new(alloc),
        }
    }

    /// The key's value in the base: what was committed last.
    pub fn base(&self, key: u32) -> Option<u64>
        ensures { result ≡ base_at self.now key }
    {
        find_by_key(&self.base, key).map(|x| x.value)
    }

    /// The key's value in the base with the live writes laid over it.
    pub fn get(&self, key: u32) -> Option<u64>
        ensures { result ≡ get_at self.now key }
    {
        match find_by_key(&self.live, key) {
            Some(w) => w.value,
            None => self.base(key),
        }
    }

    /// The base, in order of key.
    pub fn entries(&self) -> &[MapEntry]
        ensures entries { result.now ≡ self.now.base }
        ensures rising { IsRising entry_key self.now.base }
    {
        &self.base
    }

    /// Writes a key for a pair: a value, or none to remove the key. The write is live, in place of the pair's earlier one of the key, and isn't voted.
    ///
    /// # Errors
    ///
    /// Nothing changes where one is given; the first that applies is.
    ///
    /// - [`MapRefusal::Over`] exactly where a live write of the pair is marked as voted.
    /// - [`MapRefusal::Busy`] exactly where another pair has a live write of the key: that pair.
    /// - [`MapRefusal::TooMany`] of 1,000 exactly where the pair has live writes of 1,000 other keys.
    /// - [`MapRefusal::Memory`] where memory ran out.
    pub fn put(&mut self, t: TxNo, e: EnlNo, key: u32, value: Option<u64>) -> Result<(), MapRefusal>
        ensures refused { IfErr result (λ r. r ≡ put_error (t, e) key self.old.live) }
        ensures unchanged { OnErr result (self.new ≡ self.old) }
        ensures allowed { OnOk result (put_refusal (t, e) key self.old.live ≡ None) }
        ensures written { OnOk result (self.new ≡ after_put (t, e) key value self.old) }
    {
        let at = place(&self.live, &self.pairs, t, e, key)?;
        let write = LiveWrite {
            transaction: t,
            enlistment: e,
            key,
            value,
            voted: false,
        };
        match at {
            Ok(at) => self.live[at] = write,
            Err(at) => match add(
                &mut self.base,
                &mut self.spare,
                &mut self.live,
                &mut self.pairs,
                at,
                write,
            ) {
                Ok(()) => {}
                Err(_) => return Err(MapRefusal::Memory),
            },
        }
        Ok(())
    }

    /// The pair's vote: done where it has no live write, else yes, and its live writes are marked.
    fn vote(&mut self, t: TxNo, e: EnlNo) -> Vote
        ensures vote { result ≡ vote_of (t, e) self.old }
        ensures marked { self.new ≡ after_note self.old (t, e) Note.Prepare }
    {
        mark(&mut self.live, t, e);
        if mark_tally(&mut self.pairs, t, e) {
            Vote::Yes
        } else {
            Vote::Done
        }
    }

    /// Moves the pair's live writes into the base.
    fn commit(&mut self, t: TxNo, e: EnlNo)
        ensures { self.new ≡ after_note self.old (t, e) Note.Commit }
    {
        merge(&self.base, &self.live, t, e, &mut self.spare);
        mem::swap(&mut self.base, &mut self.spare);
        self.spare.clear();
        forget(&mut self.live, t, e);
        forget_tally(&mut self.pairs, t, e);
    }

    /// Drops the pair's live writes.
    fn roll_back(&mut self, t: TxNo, e: EnlNo)
        ensures { self.new ≡ after_note self.old (t, e) Note.Rollback }
    {
        forget(&mut self.live, t, e);
        forget_tally(&mut self.pairs, t, e);
    }
}

/// Prepare asks for the pair's vote, Commit moves its live writes into the base, voted or not, and Rollback drops them. No other note changes anything: after InDoubt they
/// stay live. Only Prepare is answered.
impl Resource for TxMap {
    ghost use Rattle.tx_map.specs.Notes.{GivesNote};

    ghost gives = { GivesNote };

    fn on(&mut self, t: TxNo, e: EnlNo, n: Note) -> Option<Reply> {
        match n {
            Note::Prepare => Some(Reply::Vote(self.vote(t, e))),
            Note::Commit => {
                self.commit(t, e);
                None
            }
            Note::Rollback => {
                self.roll_back(t, e);
                None
            }
            _ => None,
        }
    }
}
