//! What is told on the board of a transaction, which is seen without a lock.
ghost use Rattle.std.specs.Prelude.{◌≡◌, Some, IfOk};
ghost use Rattle.dtx_model.specs.Words.{latest, past_of};
ghost use Rattle.dtx_model.specs.Entries.{client_told_of};
ghost use Rattle.dtx_model.specs.Caused.{Caused};
ghost use Rattle.tx_cells.specs.Board.{IsPosted};

use crate::run::Run;
use dtx_values::{Outcome, TxNo};
use entry_lists::Entries;
use once_cell::race::Note;
use std::alloc::{AllocError, Global};
use std::marker::{Model, PhantomData};

/// A transaction, what its client was told, and its history up to there.
///
/// A clause sees it as a `Post`. Whatever the board has is of this type, and so the history is one that the script of the run causes, in which the client was told this
/// outcome.
#[derive(Drop)]
pub struct Posted<N: Run> {
    t: TxNo,
    outcome: Outcome,
    history: Entries,
    of: PhantomData<N>,
}

impl<N: Run> Model for Posted<N> {
    ghost use Rattle.dtx_model.specs.Words.{past_of};
    ghost use Rattle.tx_cells.specs.Board.{IsPosted, Post};

    ghost Value = { Post };

    ghost view = { λ p. record { transaction = p.t; outcome = p.outcome; past = past_of p.history.items } };

    ghost invariant = { λ p. IsPosted N.script N.objects (record { transaction = p.t; outcome = p.outcome; past = past_of p.history.items }) };
}

impl<N: Run> Posted<N> {
    /// A copy of the history of transaction `t`, whose client was told the outcome.
    ///
    /// # Errors
    ///
    /// Where memory ran out.
    pub fn new(
        alloc: Global,
        t: TxNo,
        outcome: Outcome,
        history: &Entries,
    ) -> Result<Self, AllocError>
        requires caused { Caused N.script N.objects t.value (past_of history.now.items) }
        requires told { latest client_told_of (past_of history.now.items) ≡ Some outcome }
        ensures { IfOk result (λ p. p ≡ record { transaction = t; outcome = outcome; past = past_of history.now.items }) }
    {
        let n = history.len();
        let mut copied = Entries::with_capacity(alloc, n)?;
        copied.reserve(n)?;
        for i in 0..n {
            copied.push_reserved(&history.at(i));
        }
        Ok(Posted {
            t,
            outcome,
            history: copied,
            of: PhantomData,
        })
    }

    /// The transaction.
    pub fn t(&self) -> TxNo
        ensures { result ≡ self.now.transaction }
    {
        self.t
    }

    /// What the client was told. The history has that, and is caused by the script of the run.
    pub fn outcome(&self) -> Outcome
        ensures value { result ≡ self.now.outcome }
        ensures posted { IsPosted N.script N.objects self.now }
    {
        self.outcome
    }

    /// The history up to there, oldest entry first.
    pub fn history(&self) -> &Entries
        ensures { past_of result.now.items ≡ self.now.past }
    {
        &self.history
    }
}

/// What one thread knows of the board of a transaction.
///
/// A clause sees it as a `Noted`: the name of the board cell, and what is known to be in it. A cell gets a value once and keeps it, so what is known of it stays true, and two
/// notes of one cell never know different values.
#[derive(Drop)]
pub struct BoardNote<N: Run> {
    pub(crate) note: Note<Posted<N>>,
}

impl<N: Run> Model for BoardNote<N> {
    ghost use Rattle.tx_cells.specs.Board.{Noted};

    ghost Value = { Noted };

    ghost view = { λ n. record { cell = n.note.cell; known = n.note.known } };
}
