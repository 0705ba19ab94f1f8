//! What lies under a transaction's lock.
ghost use Rattle.std.specs.Prelude.{◌≡◌, [], None, true, IfErr, IfOk, IsTrue, Some};
ghost use Rattle.dtx_values.specs.declared.call.Call.{Call};
ghost use Rattle.dtx_values.specs.TxIds.{first_id, number_of};
ghost use Rattle.dtx_values.specs.declared.number.ActorNo.{ActorNo};
ghost use Rattle.dtx_model.specs.Caused.{Caused, IsCallOf};
ghost use Rattle.dtx_model.specs.Grammar.{OfTransaction, is_made};
ghost use Rattle.dtx_model.specs.Learned.{Learned};
ghost use Rattle.dtx_model.specs.Outcome.{agree, justified};
ghost use Rattle.dtx_model.specs.Promotes.{promotes};
ghost use Rattle.dtx_model.specs.Tied.{tied};
ghost use Rattle.dtx_model.specs.Wires.{WireRun};
ghost use Rattle.dtx_model.specs.Words.{past_of};
ghost use Rattle.dtx_model.specs.World.{half};
ghost use Rattle.script_calls.specs.Prefix.{IsInOrder, IsPrefix};
ghost use Rattle.script_calls.specs.Rows.{are_entered};
ghost use Rattle.script_calls.specs.declared.rows.Due.{Due};
ghost use Rattle.tx_cells.specs.Cell.{Cell, IsThreadable, untouched};
ghost use Rattle.tx_cells.specs.Entering.{next_of};

use crate::error::TurnError;
use crate::run::Run;
use dtx_values::{ActorNo, Call, EnlNo, Note, Outbox, Outcome, TxId, TxNo};
use entry_lists::Entries;
use outcome_law::{crossings, lifting, one_outcome};
use script_calls::{Due, Rows};
use std::alloc::Global;
use std::marker::{Model, PhantomData};
use tx_world::TxWorld;

mod asking;
mod entering;
mod following;
mod kept;
mod stepping;
mod tying;

/// What lies under a transaction's lock: the transaction, the calls of each actor there, and the replies that are out.
#[derive(Drop)]
pub struct CellState<N: Run> {
    t: TxNo,
    world: TxWorld,
    rows: Rows<Call>,
    /// The enlistments that were asked outside the lock, each with its note.
    out: Vec<(EnlNo, Note)>,
    outbox: Outbox,
    of: PhantomData<N>,
}

impl<N: Run> Model for CellState<N> {
    ghost use Rattle.std.specs.Prelude.{◌≡◌};
    ghost use Rattle.tx_cells.specs.Cell.{Cell, IsKept};

    ghost Value = { Cell };

    ghost view = { λ c. record { tx = c.world; rows = c.rows; out = c.out.items } };

    ghost invariant = { λ c. (c.t ≡ c.world.transaction.t) × IsKept N.script N.objects N.honest c.world c.rows };
}

impl<N: Run> CellState<N> {
    /// The state of this transaction, to which nothing came yet, with the calls of each actor there.
    ///
    /// # Errors
    ///
    /// [`TurnError::Memory`] where memory ran out.
    pub fn new(alloc: Global, t: TxNo, rows: Rows<Call>) -> Result<Self, TurnError>
        requires script { IsThreadable N.script }
        requires named { is_made N.script (OfTransaction t.value) ≡ true }
        requires rows { IsPrefix N.script t.value rows [] }
        ensures blank { IfOk result (λ c. c ≡ record { tx = untouched t; rows = rows; out = [] }) }
        ensures memory { IfErr result (λ e. e ≡ TurnError.Memory) }
    {
        Ok(CellState {
            t,
            world: TxWorld::new(alloc, TxId::first(t))?,
            rows,
            out: Vec::new(alloc),
            outbox: Outbox::with_room(alloc)?,
            of: PhantomData,
        })
    }

    /// What each lock of a transaction gives, as the type knows it: the history is one that the run's script causes, with as many objects as the run has; the calls of each actor in it are the first
    /// ones of its calls there, in order; it gets over each connection what was sent there; and over an honest disk each restart of the log found what may be found, and so it is promoted in order, what is told is just, no two are told opposite outcomes, and
    /// nobody learns what wasn't decided. The latter hold also over another disk, where the history itself says what the restarts found. It does nothing when it runs; a caller's proof asks for it.
    pub fn is_caused(&self)
        ensures caused { Caused N.script N.objects (number_of self.now.tx.transaction) self.now.tx.world.past }
        ensures in_order { IsInOrder N.script (number_of self.now.tx.transaction) self.now.tx.world.calls }
        ensures wires { WireRun self.now.tx.world.past }
        ensures sound { IsTrue N.honest → tied self.now.tx.world.past ≡ true }
        ensures promotes { IsTrue N.honest → promotes N.script (number_of self.now.tx.transaction) self.now.tx.world.past ≡ true }
        ensures just { IsTrue N.honest → justified self.now.tx.world.past ≡ true }
        ensures agrees { IsTrue N.honest → agree self.now.tx.world.past ≡ true }
        ensures learned { IsTrue N.honest → Learned self.now.tx.world.past }
        ensures tied_promotes { tied self.now.tx.world.past ≡ true → promotes N.script (number_of self.now.tx.transaction) self.now.tx.world.past ≡ true }
        ensures tied_just { tied self.now.tx.world.past ≡ true → justified self.now.tx.world.past ≡ true }
        ensures tied_agrees { tied self.now.tx.world.past ≡ true → agree self.now.tx.world.past ≡ true }
        ensures tied_learned { tied self.now.tx.world.past ≡ true → Learned self.now.tx.world.past }
    {
        self.world.is_own_run();
        lifting();
        one_outcome();
        crossings();
    }

    /// The script names the transaction, which is of epoch 0. It does nothing when it runs; a caller's proof asks for it.
    pub fn is_named(&self)
        ensures first { self.now.tx.transaction.epoch ≡ 0 }
        ensures named { is_made N.script (OfTransaction (number_of self.now.tx.transaction)) ≡ true }
    {
        let _ = &self.world;
    }

    /// The transaction.
    pub fn t(&self) -> TxNo
        ensures t { result ≡ self.now.tx.transaction.t }
        ensures first { first_id result ≡ self.now.tx.transaction }
    {
        self.t
    }

    /// The actor's next call here; `None` where none is left. It is one that its line of the script gives the transaction.
    pub fn next(&self, a: ActorNo) -> Option<Due<Call>>
        ensures next { result ≡ next_of a self.now }
        ensures ours { (d : Due Call) → result ≡ Some d → IsCallOf N.script (number_of self.now.tx.transaction) d.line a d.call }
    {
        self.rows.next(a)
    }

    /// Whether each call here was entered.
    pub fn are_entered(&self) -> bool
        ensures value { result ≡ are_entered self.now.rows }
        ensures none { ((a : ActorNo) → next_of a self.now ≡ None) → are_entered self.now.rows ≡ true }
    {
        self.rows.are_all_entered()
    }

    /// The history of the transaction, oldest entry first.
    pub fn history(&self) -> &Entries
        ensures { past_of result.now.items ≡ self.now.tx.world.past }
    {
        self.world.history()
    }

    /// What the client was told.
    pub fn told(&self) -> Option<Outcome>
        ensures { result ≡ (half self.now.tx.world).seen.told_client }
    {
        self.world.told()
    }
}
