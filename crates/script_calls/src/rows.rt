//! The calls of each actor at one place, and how many of them were entered.
ghost use Rattle.std.specs.Prelude.{◌≡◌, ◌≢◌, [], ◌∷◌, None, replicate, true, IfOk, IsSome, OnErr, OnOk};
ghost use Rattle.dtx_values.specs.declared.number.ActorNo.{ActorNo};
ghost use Rattle.script_calls.specs.Rows.{are_entered, further, is_entered, next_in, no_calls, row_at, with_calls};

use dtx_values::ActorNo;
use std::alloc::{AllocError, Global};
use std::marker::Model;

/// A call that is to be entered at a place: the line that gives it, from 1, and what it is.
#[derive(Clone, Copy, PartialEq, Eq, Debug)]
pub struct Due<C> {
    pub line: u32,
    pub call: C,
}

/// The calls of one actor at a place, in order of lines, and how many of them were entered, the first ones first.
#[derive(Drop)]
pub struct Row<C: Copy + Drop> {
    calls: Vec<Due<C>>,
    entered: usize,
}

impl<C: Copy + Drop> Model for Row<C> {
    ghost use Rattle.std.specs.Prelude.{◌≤◌, length};
    ghost use Rattle.script_calls.specs.SeenRow.{SeenRow};

    ghost Value = { SeenRow C };

    ghost view = { λ r. record { calls = r.calls.items; entered = r.entered } };

    ghost invariant = { λ r. r.entered ≤ length r.calls.items };
}

/// The calls of each actor at one place, with how many of them were entered. Contracts see a row for each actor, by number.
#[derive(Drop)]
pub struct Rows<C: Copy + Drop> {
    rows: Vec<Row<C>>,
}

impl<C: Copy + Drop> Model for Rows<C> {
    ghost use Rattle.std.specs.Prelude.{◌≡◌, List, length};
    ghost use Rattle.dtx_values.specs.declared.number.TheConstants.ActorNo.{MAX};
    ghost use Rattle.script_calls.specs.SeenRow.{SeenRow};

    ghost Value = { List (SeenRow C) };

    ghost view = { λ r. r.rows.items };

    ghost invariant = { λ r. length r.rows.items ≡ MAX };
}

impl<C: Copy + Drop> Row<C> {
    /// No call.
    fn new(alloc: Global) -> Self
        ensures { result ≡ no_calls }
    {
        Row {
            calls: Vec::new(alloc),
            entered: 0,
        }
    }

    /// Puts a call after the others.
    fn add(&mut self, due: Due<C>) -> Result<(), AllocError>
        ensures added { OnOk result (self.new ≡ with_calls (due ∷ []) self.old) }
        ensures memory { OnErr result (self.new ≡ self.old) }
    {
        self.calls.reserve(1)?;
        self.calls.push_reserved(due);
        Ok(())
    }

    /// The first call that wasn't entered; `None` where each was.
    fn next(&self) -> Option<Due<C>>
        ensures { result ≡ next_in self.now }
    {
        self.calls.get(self.entered).copied()
    }

    /// The next call was entered.
    fn advance(&mut self)
        requires { IsSome (next_in self.old) }
        ensures { self.new ≡ further self.old }
    {
        self.entered += 1;
    }

    /// Whether each call was entered.
    fn is_entered(&self) -> bool
        ensures { result ≡ is_entered self.now }
    {
        self.calls.len() <= self.entered
    }
}

impl<C: Copy + Drop> Rows<C> {
    /// Rows with no call.
    pub(crate) fn new(alloc: Global) -> Result<Self, AllocError>
        ensures { IfOk result (λ r. r ≡ replicate ActorNo.MAX no_calls) }
    {
        let actors = ActorNo::MAX as usize;
        let mut rows = Vec::with_capacity(alloc, actors)?;
        for _a in 0..actors {
            rows.push_reserved(Row::new(alloc));
        }
        Ok(Rows { rows })
    }

    /// Puts a call at the end of its actor's row.
    pub(crate) fn add(&mut self, a: ActorNo, due: Due<C>) -> Result<(), AllocError>
        ensures here { OnOk result (row_at a self.new ≡ with_calls (due ∷ []) (row_at a self.old)) }
        ensures others { (b : ActorNo) → b ≢ a → row_at b self.new ≡ row_at b self.old }
        ensures memory { OnErr result (row_at a self.new ≡ row_at a self.old) }
    {
        self.rows[a.index()].add(due)
    }

    /// The next call of this actor here; `None` where none is left.
    pub fn next(&self, a: ActorNo) -> Option<Due<C>>
        ensures { result ≡ next_in (row_at a self.now) }
    {
        self.rows[a.index()].next()
    }

    /// The actor's next call here, which there is, was entered.
    pub fn advance(&mut self, a: ActorNo)
        requires { IsSome (next_in (row_at a self.old)) }
        ensures here { row_at a self.new ≡ further (row_at a self.old) }
        ensures others { (b : ActorNo) → b ≢ a → row_at b self.new ≡ row_at b self.old }
    {
        self.rows[a.index()].advance();
    }

    /// Whether each call here was entered.
    pub fn are_all_entered(&self) -> bool
        ensures value { result ≡ are_entered self.now }
        ensures none { ((a : ActorNo) → next_in (row_at a self.now) ≡ None) → are_entered self.now ≡ true }
    {
        self.rows.iter().all(|r| r.is_entered())
    }
}
