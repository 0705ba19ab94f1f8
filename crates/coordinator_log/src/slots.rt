//! The slots in memory.
ghost use Rattle.std.specs.Prelude.{◌≡◌, ◌≤◌, ◌<◌, [], None, Some, length, set, slice_index_or, vec_capacity, IfNone, IfOk, IfSome, IsSome, count_by, is_none, is_some, map, position};
ghost use Rattle.std.specs.List.{filter_map};
ghost use Rattle.std.specs.Option.{option_map};
ghost use Rattle.dtx_model.specs.Log.{first_of, record_of, without_first_of};
ghost use Rattle.coordinator_log.specs.Slots.{has_record_of, lowest_closed, open_records, with_closed};

use crate::layout::SLOTS;
use dtx_values::LogRecord;
use std::alloc::{AllocError, Global};
use std::marker::Model;

/// The 1,024 slots of a log. Contracts see the list of their records, with none where the gate is closed.
#[derive(Drop)]
pub struct Slots {
    // The first slots, up to the last that was ever used, in room for all; the gates of the others are closed. So a log of few records takes little memory,
    // and is looked through in little time.
    records: Vec<Option<LogRecord>>,
}

impl Model for Slots {
    ghost use Rattle.std.specs.Prelude.{◌≤◌, List, Option, length, map, vec_capacity};
    ghost use Rattle.std.specs.Option.{option_map};
    ghost use Rattle.dtx_model.specs.Log.{CommitRecord, record_of};
    ghost use Rattle.coordinator_log.specs.Slots.{with_closed};

    ghost Value = { List (Option CommitRecord) };

    ghost view = { λ s. map (option_map record_of) (with_closed 1024 s.records.items) };

    ghost invariant = { λ s. (length s.records.items ≤ 1024) × (1024 ≤ vec_capacity s.records) };
}

impl Slots {
    /// All gates are closed.
    pub fn new(alloc: Global) -> Result<Slots, AllocError>
        ensures empty { IfOk result (λ s. open_records s ≡ []) }
        ensures many { IfOk result (λ s. length s ≡ SLOTS) }
    {
        Ok(Slots {
            records: Vec::with_capacity(alloc, SLOTS)?,
        })
    }

    /// The lowest slot whose gate is closed.
    pub fn lowest_closed(&self) -> Option<usize>
        ensures some { IfSome result (λ k. (k < SLOTS) × (slice_index_or self.now k None ≡ None) × (lowest_closed self.now ≡ k)) }
        ensures none { IfNone result (lowest_closed self.now ≡ SLOTS) }
        ensures many { length self.now ≡ SLOTS }
    {
        match first_closed(&self.records) {
            Some(k) => Some(k),
            None if self.records.len() < SLOTS => Some(self.records.len()),
            None => None,
        }
    }

    /// The lowest slot with a record of this identifier.
    pub fn found(&self, id: u128) -> Option<usize>
        ensures some { IfSome result (λ k. (k < SLOTS) × IsSome (slice_index_or self.now k None) × (first_of id (open_records self.now) ≡ slice_index_or self.now k None)) }
        ensures rest { IfSome result (λ k. open_records (set self.now k None) ≡ without_first_of id (open_records self.now)) }
        ensures none { IfNone result (first_of id (open_records self.now) ≡ None) }
        ensures many { length self.now ≡ SLOTS }
    {
        first_with(&self.records, id)
    }

    /// The record of slot k.
    pub fn record(&self, k: usize) -> Option<&LogRecord>
        requires { k < SLOTS }
        ensures { option_map (λ r. record_of r.now) result ≡ slice_index_or self.now k None }
    {
        match self.records.get(k) {
            Some(slot) => slot.as_ref(),
            None => None,
        }
    }

    /// The records of the first slots; the gates of those after them are closed.
    pub fn records(&self) -> &[Option<LogRecord>]
        ensures slots { map (option_map record_of) (with_closed 1024 result.now) ≡ self.now }
        ensures open { filter_map (option_map record_of) result.now ≡ open_records self.now }
    {
        &self.records
    }

    /// Puts a record into slot k, or takes it out.
    pub fn set(&mut self, k: usize, r: Option<LogRecord>)
        requires { k < SLOTS }
        ensures slots { self.new ≡ set self.old k (option_map record_of r) }
        ensures many { length self.new ≡ SLOTS }
    {
        if r.is_none() && self.records.len() <= k {
            return;
        }
        reach(&mut self.records, k + 1);
        self.records[k] = r;
    }

    /// How many records there are.
    pub fn count(&self) -> u16
        ensures { result ≡ length (open_records self.now) }
    {
        open_gates(&self.records) as u16
    }
}

// Makes the slots that are kept at least so many, by closed ones.
fn reach(slots: &mut Vec<Option<LogRecord>>, n: usize)
    requires within { n ≤ SLOTS }
    requires room { SLOTS ≤ vec_capacity slots.old }
    requires few { length slots.old.items ≤ SLOTS }
    ensures same { with_closed SLOTS slots.new.items ≡ with_closed SLOTS slots.old.items }
    ensures reached { n ≤ length slots.new.items }
    ensures few { length slots.new.items ≤ SLOTS }
    ensures room { SLOTS ≤ vec_capacity slots.new }
{
    while slots.len() < n {
        slots.push_reserved(None);
    }
}

// The first slot whose gate is closed.
fn first_closed(slots: &[Option<LogRecord>]) -> Option<usize>
    ensures { result ≡ position is_none slots.now }
{
    slots.iter().position(|s| s.is_none())
}

// The first slot with a record of this identifier.
fn first_with(slots: &[Option<LogRecord>], id: u128) -> Option<usize>
    ensures { result ≡ position (has_record_of id) slots.now }
{
    slots.iter().position(|s| has_record(s, id))
}

// Whether a slot has a record of this identifier.
fn has_record(slot: &Option<LogRecord>, id: u128) -> bool
    ensures { result ≡ has_record_of id slot.now }
{
    match slot {
        Some(r) => r.id == id,
        None => false,
    }
}

// How many gates are open.
fn open_gates(slots: &[Option<LogRecord>]) -> usize
    ensures { result ≡ count_by is_some slots.now }
{
    slots.iter().filter(|s| s.is_some()).count()
}
