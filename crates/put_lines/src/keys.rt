//! Who has which key.
ghost use Rattle.std.specs.Prelude.{◌≡◌, List, None, [], ◌∷◌, IfOk, OnOk, length};
ghost use Rattle.std.specs.BTreeMap.{get};
ghost use Rattle.std.specs.Ordering.{nat_cmp};
ghost use Rattle.heard_notes.specs.declared.put.Put.{Put};
ghost use Rattle.put_lines.specs.Keys.{AreKeys, is_it, key_fault};

use dtx_values::{BadCause, EnlNo};
use heard_notes::Put;
use std::alloc::{AllocError, Global};
use std::collections::BTreeMap;

/// The enlistment of each key, and how many keys each enlistment has, at the place of its number.
#[derive(Drop)]
pub struct Keys {
    owners: BTreeMap<u32, EnlNo>,
    counts: Vec<usize>,
}

impl Keys {
    /// No key.
    pub fn new(alloc: Global) -> Result<Keys, AllocError>
        ensures { IfOk result (λ k. AreKeys [] k) }
    {
        let mut counts = Vec::new(alloc);
        counts.resize(EnlNo::MAX as usize, 0)?;
        Ok(Keys {
            owners: BTreeMap::new(alloc),
            counts,
        })
    }

    /// The enlistment that has the key.
    fn owner(&self, key: u32) -> Option<EnlNo>
        ensures { result ≡ get nat_cmp self.now.owners key }
    {
        self.owners.get(&key).copied()
    }

    /// Whether the enlistment has the key.
    fn has(&self, key: u32, e: EnlNo) -> bool
        ensures { result ≡ is_it e.value (get nat_cmp self.now.owners key) }
    {
        self.owner(key) == Some(e)
    }

    /// Adds a put where its key may be added: the enlistment has it or has fewer than `most`, and no other has it. Else the first fault.
    pub fn add(&mut self, put: &Put, most: usize) -> Result<Option<BadCause>, AllocError>
        requires { length self.old.counts.items ≡ EnlNo.MAX }
        ensures long { length self.new.counts.items ≡ EnlNo.MAX }
        ensures fault { IfOk result (λ f. (before : List Put) → AreKeys before self.old → f ≡ key_fault most before put.now) }
        ensures kept { IfOk result (λ f. (before : List Put) → AreKeys before self.old → f ≡ None → AreKeys (put.now ∷ before) self.new) }
    {
        if self.has(put.key, put.enlistment) {
            return Ok(None);
        }
        let place = put.enlistment.index();
        let count = self.counts[place];
        if most <= count {
            return Ok(Some(BadCause::TooManyPuts));
        }
        if self.owner(put.key).is_some() {
            return Ok(Some(BadCause::KeyTaken));
        }
        self.owners.insert(put.key, put.enlistment)?;
        self.counts[place] = count + 1;
        Ok(None)
    }
}
