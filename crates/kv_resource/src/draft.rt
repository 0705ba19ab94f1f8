//! What an enlistment wrote.
ghost use Rattle.std.specs.Prelude.{◌≡◌, ◌≤◌, ◌<◌, ◌⊎◌, [], ◌∷◌, length, nat_lt, ◌||◌, true, None, IsTrue};
ghost use Rattle.arrayvec.specs.ArrayVec.{array_vec_len};
ghost use Rattle.dtx_values.specs.TxIds.{number_of};
ghost use Rattle.kv_resource.specs.Bytes.{are_spelled};
ghost use Rattle.kv_resource.specs.Store.{is_draft_of, place_in, with_write, wrote_key};

use crate::layout::KEYS;
use arrayvec::ArrayVec;
use dtx_values::{EnlNo, TxId};
use std::marker::Model;

/// The writes of an enlistment, at least one: keys with their values, the keys rising.
///
/// A clause sees it as a `KvDraft`.
#[derive(Drop)]
pub struct Draft {
    t: TxId,
    e: EnlNo,
    writes: ArrayVec<(u32, u64), KEYS>,
}

impl Model for Draft {
    ghost use Rattle.std.specs.Prelude.{◌≡◌, ◌≤◌, length, None, true};
    ghost use Rattle.dtx_values.specs.TxIds.{number_of};
    ghost use Rattle.kv_resource.specs.Bytes.{are_spelled};
    ghost use Rattle.kv_resource.specs.Store.{KvDraft};

    ghost Value = { KvDraft };

    ghost view = { λ d. record { transaction = number_of d.t; enlistment = d.e.value; writes = d.writes.items } };

    ghost invariant = { λ d. (1 ≤ length d.writes.items) × (are_spelled None d.writes.items ≡ true) };
}

impl Draft {
    /// A first write.
    pub fn new(t: TxId, e: EnlNo, key: u32, value: u64) -> Draft
        ensures { result ≡ record { transaction = number_of t; enlistment = e.value; writes = (key, value) ∷ [] } }
    {
        let mut writes = ArrayVec::new();
        writes.push((key, value));
        Draft { t, e, writes }
    }

    /// These writes.
    pub fn of(t: TxId, e: EnlNo, writes: ArrayVec<(u32, u64), KEYS>) -> Draft
        requires some { 1 ≤ array_vec_len writes }
        requires spelled { are_spelled None writes.items ≡ true }
        ensures { result ≡ record { transaction = number_of t; enlistment = e.value; writes = writes.items } }
    {
        Draft { t, e, writes }
    }

    /// Its transaction.
    pub fn transaction(&self) -> TxId
        ensures { number_of result ≡ self.now.transaction }
    {
        self.t
    }

    /// Its enlistment.
    pub fn enlistment(&self) -> EnlNo
        ensures { result.value ≡ self.now.enlistment }
    {
        self.e
    }

    /// The writes, the keys rising.
    pub fn writes(&self) -> &[(u32, u64)]
        ensures writes { result.now ≡ self.now.writes }
        ensures some { 1 ≤ length self.now.writes }
        ensures few { length self.now.writes ≤ KEYS }
        ensures spelled { are_spelled None self.now.writes ≡ true }
    {
        self.writes.as_slice()
    }

    /// Whether it is of this enlistment.
    pub fn is_of(&self, t: TxId, e: EnlNo) -> bool
        ensures { result ≡ is_draft_of (number_of t, e.value) self.now }
    {
        t.number() == self.t.number() && e.get() == self.e.get()
    }

    /// Whether it wrote the key.
    pub fn has(&self, key: u32) -> bool
        ensures { result ≡ wrote_key key self.now.writes }
    {
        self.writes.as_slice().iter().any(|w| key == w.0)
    }

    /// Whether it wrote the key, or has room for one more.
    pub fn takes(&self, key: u32) -> bool
        ensures { result ≡ (wrote_key key self.now.writes || nat_lt (length self.now.writes) KEYS) }
    {
        self.has(key) || self.writes.len() < KEYS
    }

    /// Puts a write to the others, or in place of that to the same key.
    pub fn put(&mut self, key: u32, value: u64)
        requires { (length self.old.writes < KEYS) ⊎ IsTrue (wrote_key key self.old.writes) }
        ensures { self.new ≡ record { transaction = self.old.transaction; enlistment = self.old.enlistment; writes = with_write key value self.old.writes } }
    {
        put_write(&mut self.writes, key, value);
    }
}

// Puts a write to others whose keys rise.
fn put_write(writes: &mut ArrayVec<(u32, u64), KEYS>, key: u32, value: u64)
    requires room { (array_vec_len writes.old < KEYS) ⊎ IsTrue (wrote_key key writes.old.items) }
    requires spelled { are_spelled None writes.old.items ≡ true }
    ensures { writes.new.items ≡ with_write key value writes.old.items }
{
    let at = place_of(writes.as_slice(), key);
    if at < writes.len() && writes[at].0 == key {
        writes[at] = (key, value);
    } else {
        writes.insert(at, (key, value));
    }
}

// How many keys come before this one.
fn place_of(writes: &[(u32, u64)], key: u32) -> usize
    ensures place { result ≡ place_in key writes.now }
    ensures within { result ≤ length writes.now }
{
    for (i, w) in writes.iter().enumerate() {
        if w.0 >= key {
            return i;
        }
    }
    writes.len()
}
