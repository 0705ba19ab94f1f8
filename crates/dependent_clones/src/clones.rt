//! The clones.
ghost use Rattle.std.specs.Prelude.{◌≡◌, ◌≤◌, ◌==◌, [], length, map, vec_capacity, IfErr, IfOk, OnErr, OnOk, None, Some};
ghost use Rattle.std.specs.List.{list_any};
ghost use Rattle.dtx_values.specs.Table.{how_many};
ghost use Rattle.dtx_values.specs.Clones.{is_clone, is_complete_clone, is_open_block, is_open_rollback, with_clone, with_complete};
ghost use Rattle.dependent_clones.specs.Refusals.{clone_refusal, complete_refusal, kind_of};
ghost use Rattle.dependent_clones.specs.Distinct.{complete_in};

use crate::refusal::CloneRefusal;
use dtx_values::{CLONES, CloneKind, CloneNo, CloneRow};
use std::alloc::{AllocError, Global};
use std::marker::Model;

/// The dependent clones of one transaction. Contracts see the list of (clone, kind, complete), in the order in which they were made.
#[derive(Drop)]
pub struct Clones {
    rows: Vec<CloneRow>,
}

impl Model for Clones {
    ghost use Rattle.std.specs.Prelude.{List, ◌≡◌, ◌≤◌, true, vec_capacity, length};
    ghost use Rattle.dtx_values.specs.declared.limits.TheConstants.{CLONES};
    ghost use Rattle.dtx_values.specs.declared.row.CloneRow.{CloneRow};
    ghost use Rattle.dependent_clones.specs.Distinct.{distinct};

    ghost Value = { List CloneRow };

    ghost view = { λ c. c.rows.items };

    ghost invariant = { λ c. (CLONES ≤ vec_capacity c.rows) × (length c.rows.items ≤ CLONES) × (distinct c.rows.items ≡ true) };
}

/// Completes the row, where it is this clone's.
fn complete_in(r: &mut CloneRow, c: CloneNo)
    ensures { r.new ≡ complete_in c.value r.old }
{
    if r.clone == c {
        r.complete = true;
    }
}

/// Completes a clone's row.
fn complete(rows: &mut Vec<CloneRow>, c: CloneNo)
    ensures items { rows.new.items ≡ map (λ r. complete_in c.value r) rows.old.items }
    ensures capacity { vec_capacity rows.old ≤ vec_capacity rows.new }
{
    for r in rows.iter_mut() {
        complete_in(r, c);
    }
}

impl Clones {
    /// No clone, with room for 32.
    ///
    /// # Errors
    ///
    /// [`AllocError`] where memory ran out.
    pub fn new(alloc: Global) -> Result<Self, AllocError>
        ensures { IfOk result (λ c. c ≡ []) }
    {
        Ok(Clones {
            rows: Vec::with_capacity(alloc, CLONES)?,
        })
    }

    /// How many clones there are.
    pub fn len(&self) -> usize
        ensures { result ≡ length self.now }
    {
        self.rows.len()
    }

    /// Whether there is no clone.
    pub fn is_empty(&self) -> bool
        ensures { result ≡ (length self.now == 0) }
    {
        self.rows.is_empty()
    }

    /// Whether this clone stands.
    pub fn stands(&self, c: CloneNo) -> bool
        ensures { result ≡ list_any (is_clone c.value) self.now }
    {
        self.rows.iter().any(|r| r.clone == c)
    }

    /// Whether this clone is complete.
    pub fn is_complete(&self, c: CloneNo) -> bool
        ensures { result ≡ list_any (is_complete_clone c.value) self.now }
    {
        self.rows.iter().any(|r| r.clone == c && r.complete)
    }

    /// Makes a clone. It blocks a commit until it is complete, or makes a call of commit before that a veto (`DependentCloneOption`).
    ///
    /// # Errors
    ///
    /// - [`CloneRefusal::TooLate`] exactly where commit was asked.
    /// - [`CloneRefusal::Twice`] exactly where the clone stands.
    /// - [`CloneRefusal::Many`] exactly where 32 stand.
    pub fn clone_of(
        &mut self,
        c: CloneNo,
        block: bool,
        commit_asked: bool,
    ) -> Result<(), CloneRefusal>
        ensures refused { IfErr result (λ r. clone_refusal c commit_asked self.old ≡ Some r) }
        ensures unchanged { OnErr result (self.new ≡ self.old) }
        ensures allowed { OnOk result (clone_refusal c commit_asked self.old ≡ None) }
        ensures made { OnOk result (self.new ≡ with_clone c (kind_of block) self.old) }
    {
        if commit_asked {
            return Err(CloneRefusal::TooLate);
        }
        if self.stands(c) {
            return Err(CloneRefusal::Twice(c));
        }
        if self.rows.len() >= CLONES {
            return Err(CloneRefusal::Many(CLONES as u8));
        }
        let kind = if block {
            CloneKind::Block
        } else {
            CloneKind::Rollback
        };
        self.rows.push_reserved(CloneRow {
            clone: c,
            kind,
            complete: false,
        });
        Ok(())
    }

    /// Completes a clone.
    ///
    /// # Errors
    ///
    /// - [`CloneRefusal::NoSuch`] exactly where no such clone stands.
    /// - [`CloneRefusal::Already`] exactly where it is complete.
    pub fn complete(&mut self, c: CloneNo) -> Result<(), CloneRefusal>
        ensures refused { IfErr result (λ r. complete_refusal c self.old ≡ Some r) }
        ensures unchanged { OnErr result (self.new ≡ self.old) }
        ensures allowed { OnOk result (complete_refusal c self.old ≡ None) }
        ensures completed { self.new ≡ with_complete c.value self.old }
    {
        if !self.stands(c) {
            return Err(CloneRefusal::NoSuch(c));
        }
        if self.is_complete(c) {
            return Err(CloneRefusal::Already(c));
        }
        complete(&mut self.rows, c);
        Ok(())
    }

    /// How many blocking clones aren't complete.
    pub fn blocking_left(&self) -> u8
        ensures { result ≡ how_many is_open_block self.now }
    {
        self.rows.iter().filter(|r| r.is_open_block()).count() as u8
    }

    /// How many rollback clones aren't complete.
    pub fn rollback_left(&self) -> u8
        ensures { result ≡ how_many is_open_rollback self.now }
    {
        self.rows.iter().filter(|r| r.is_open_rollback()).count() as u8
    }
}
