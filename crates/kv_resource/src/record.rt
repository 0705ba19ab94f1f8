//! A record: a draft that is on the disk.
ghost use Rattle.std.specs.Prelude.{◌≡◌, ◌+◌, ◌≤◌, ◌&&◌, not, true, vec_capacity, vec_len};
ghost use Rattle.dtx_values.specs.TxIds.{number_of};
ghost use Rattle.resource_managers.specs.Holding.{holding_of};
ghost use Rattle.kv_resource.specs.Bytes.{with_mark};
ghost use Rattle.kv_resource.specs.Held.{record_held};
ghost use Rattle.kv_resource.specs.Notes.{record_with};
ghost use Rattle.kv_resource.specs.Store.{is_busy_record, is_record_of, is_unmarked_of};
ghost use Rattle.kv_resource.specs.Table.{IsRising, is_marked_write, with_writes_under};

use crate::draft::Draft;
use crate::layout::KEYS;
use crate::rows::put_rows;
use dtx_values::{EnlNo, TxId};
use resource_managers::{Enlistment, Held};
use std::marker::Model;

/// A record of the disk: what an enlistment wrote, and whether it is marked as committed.
///
/// A clause sees it as a `KvRecord`.
#[derive(Drop)]
pub struct Record {
    draft: Draft,
    marked: bool,
}

impl Model for Record {
    ghost use Rattle.kv_resource.specs.Bytes.{KvRecord};
    ghost use Rattle.kv_resource.specs.Notes.{record_with};

    ghost Value = { KvRecord };

    ghost view = { λ r. record_with r.marked r.draft };
}

impl Record {
    /// The record of a draft.
    pub fn new(draft: Draft, marked: bool) -> Record
        ensures { result ≡ record_with marked draft }
    {
        Record { draft, marked }
    }

    /// Marks it as committed.
    pub fn mark(&mut self)
        ensures { self.new ≡ with_mark true self.old }
    {
        self.marked = true;
    }

    /// Whether it is marked as committed.
    pub fn is_marked(&self) -> bool
        ensures { result ≡ self.now.marked }
    {
        self.marked
    }

    /// Its transaction and enlistment.
    pub fn pair(&self) -> (TxId, EnlNo)
        ensures transaction { number_of result.0 ≡ self.now.transaction }
        ensures enlistment { result.1.value ≡ self.now.enlistment }
    {
        (self.draft.transaction(), self.draft.enlistment())
    }

    /// What it holds, by whether a call of this process wrote it.
    pub fn held(&self, here: bool) -> Held
        ensures { holding_of result ≡ record_held here self.now }
    {
        Held {
            enlistment: Enlistment::new(self.draft.transaction(), self.draft.enlistment()),
            marked: self.marked,
            prepared_here: here,
        }
    }

    /// Whether it is of this enlistment.
    pub fn is_of(&self, t: TxId, e: EnlNo) -> bool
        ensures { result ≡ is_record_of (number_of t, e.value) self.now }
    {
        self.draft.is_of(t, e)
    }

    /// Whether it is of this enlistment, and isn't marked.
    pub fn is_unmarked_of(&self, t: TxId, e: EnlNo) -> bool
        ensures { result ≡ is_unmarked_of (number_of t, e.value) self.now }
    {
        self.draft.is_of(t, e) && !self.marked
    }

    /// Whether it is another enlistment's, which wrote the key and hasn't committed.
    pub fn is_busy(&self, t: TxId, e: EnlNo, key: u32) -> bool
        ensures { result ≡ is_busy_record (number_of t, e.value) key self.now }
    {
        !self.marked && !self.draft.is_of(t, e) && self.draft.has(key)
    }

    /// Whether it is marked, and wrote the key.
    pub fn is_marked_write(&self, key: u32) -> bool
        ensures { result ≡ is_marked_write key self.now }
    {
        self.marked && self.draft.has(key)
    }

    /// Puts what it wrote to the rows, but for keys that a marked record of the later slots wrote. There is room for it.
    pub fn put_rows(&self, rows: &mut Vec<(u32, u64)>, later: &[Option<Record>])
        requires rises { IsRising rows.old.items }
        requires room { vec_len rows.old + KEYS ≤ vec_capacity rows.old }
        ensures items { rows.new.items ≡ with_writes_under later.now self.now.writes rows.old.items }
        ensures rises { IsRising rows.new.items }
        ensures few { vec_len rows.new ≤ vec_len rows.old + KEYS }
        ensures capacity { vec_capacity rows.old ≤ vec_capacity rows.new }
    {
        put_rows(rows, self.draft.writes(), later);
    }
}
