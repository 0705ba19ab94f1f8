//! The transaction manager of one program.
ghost use Rattle.std.specs.Prelude.{ℕ, ◌≡◌, ◌≢◌, ◌⊎◌, ◌≤◌, ◌<◌, ◌+◌, ◌-◌, ◌^◌, ◌∷◌, List, [], Option, Some, None, Ok, Err, IfOk, IfErr, OnOk, OnErr, IfSome, IsTrue, true, false, is_some, length, slice_get};
ghost use Rattle.std.specs.Option.{option_map};
ghost use Rattle.dtx_values.specs.TxIds.{identifier_of_id};
ghost use Rattle.dtx_values.specs.declared.entry.Answer.TheVariants.{NoSuch};
ghost use Rattle.dtx_model.specs.Caused.{made_by};
ghost use Rattle.dtx_model.specs.Learned.{Learned};
ghost use Rattle.dtx_model.specs.Outcome.{agree, justified};
ghost use Rattle.dtx_model.specs.World.{half};
ghost use Rattle.tx_world.specs.OwnCalls.{status_of};
ghost use Rattle.transactions.specs.Counting.{is_plain};
ghost use Rattle.transactions.specs.Doing.{AdvancesAt, CallsAt, Enters, HasRunAt, MayFail, is_done};
ghost use Rattle.transactions.specs.Hearing.{Advances, heard_in};
ghost use Rattle.transactions.specs.Logged.{KeepsRecords};
ghost use Rattle.transactions.specs.Slots.{AreSame, KeepsRest, KeepsTime, live_at, standing_at};
ghost use Rattle.transactions.specs.State.{LiveState, past};
ghost use Rattle.transactions.specs.Waiting.{AllAsked};
ghost use Rattle.transactions.specs.declared.event.Advance.TheVariants.{Did, Idle};

use crate::error::TxError;
use crate::event::{Advance, Event};
use crate::handle::CommittableTransaction;
use crate::live::Live;
use coordinator_log::Log;
use dtx_values::{ActorNo, Answer, Call, Outbox, Outcome, Status, TxId, TxNo};
use log_epochs::no_transaction_is_an_epoch;
use outside::{Clock, Disk};
use std::alloc::Global;
use std::marker::Model;

mod beginning;
mod driving;
mod ending;
mod enlisting;
mod opening;
mod polling;
mod recovering;
mod scoping;

/// The upper half of each identifier of a transaction.
const NODE: u128 = 1 << 64;

/// A transaction manager over a log on a disk.
///
/// A clause sees it as its log, its transactions by place, the number for good of the last one that it began, its clock, and the greatest reading of that.
///
/// At most 256 transactions go on at once: one of number t within its epoch has place t. No number comes twice in the life of a log, whichever process has it
/// ([`TransactionManager::numbers_last`]).
#[derive(Drop)]
pub struct TransactionManager<D: Disk + Drop, C: Clock + Drop> {
    alloc: Global,
    log: Log<D>,
    clock: C,
    out: Outbox,
    actor: ActorNo,
    /// The greatest reading of the clock.
    reading: u64,
    /// What each place is used for, from 1.
    lives: Vec<Live>,
    /// The epoch, and the last number that was given in it.
    epoch: u32,
    given: u32,
}

impl<D: Disk + Drop, C: Clock + Drop> Model for TransactionManager<D, C> {
    ghost use Rattle.std.specs.Prelude.{◌+◌, ◌*◌};
    ghost use Rattle.transactions.specs.Keeping.{IsKept};
    ghost use Rattle.transactions.specs.Slots.{Standing};

    ghost Value = { Standing D C };

    ghost view = { λ m. record { log = m.log; lives = m.lives.items; last = 65536 * m.epoch + m.given; clock = m.clock; reading = m.reading } };

    ghost invariant = { λ m. IsKept D.honest D.image m.log m.lives.items (65536 * m.epoch + m.given) };
}

/// The place of a transaction, from 0.
fn index(t: TxId) -> usize
    ensures place { result + 1 ≡ t.t.value }
    ensures within { result < TxNo.MAX }
{
    t.t().index()
}

/// Whether the answer of a call says that it was done, or waits.
pub(crate) fn done(a: Answer) -> Result<(), TxError>
    ensures done { OnOk result (is_done a ≡ true) }
    ensures refused { IfErr result (λ e. (e ≡ TxError.Refused a) × (is_done a ≡ false)) }
{
    match a {
        Answer::Fine | Answer::True | Answer::Wait => Ok(()),
        other => Err(TxError::Refused(other)),
    }
}

impl<D: Disk + Drop, C: Clock + Drop> TransactionManager<D, C> {
    /// This transaction, where it goes on.
    fn live(&self, t: TxId) -> Option<&Live>
        ensures { option_map (λ x. x.now) result ≡ live_at t self.now.lives }
    {
        match self.lives.get(index(t)) {
            Some(live) if live.is_live(t) => Some(live),
            _ => None,
        }
    }

    /// The transaction that goes on at this place; where none does, that of epoch 0, which none of a manager has.
    fn at_place(&self, place: TxNo) -> TxId
        ensures standing { result ≡ standing_at place self.now.lives }
        ensures place { result.t ≡ place }
    {
        let _ = &self.alloc;
        self.standing(place)
    }

    fn standing(&self, place: TxNo) -> TxId
        ensures { result ≡ standing_at place self.now.lives }
    {
        match self.lives.get(place.index()) {
            Some(live) => live.standing(place),
            None => TxId::first(place),
        }
    }

    /// Enters a call of a transaction, which makes nothing, and gives its line and the answer.
    fn call(&mut self, t: TxId, c: &Call) -> Result<(u32, Answer), TxError>
        requires plain { is_plain c.now ≡ true }
        requires makes { made_by c.now ≡ None }
        ensures called { IfOk result (λ x. CallsAt D.faults self.old.log t c.now x.0 x.1 self.old.lives self.new.lives) }
        ensures refused { OnErr result (live_at t self.new.lives ≡ live_at t self.old.lives) }
        ensures others { AreSame t self.old.lives self.new.lives }
        ensures rest { KeepsRest self.old self.new }
        ensures cause { IfErr result (MayFail t self.old.lives) }
    {
        let Some(live) = self.lives.get_mut(index(t)) else {
            return Err(TxError::Refused(Answer::NoSuch));
        };
        if !live.is_live(t) {
            return Err(TxError::Refused(Answer::NoSuch));
        }
        let called = live.call(&self.log, &mut self.out, self.actor, c);
        live.is_sound();
        called
    }

    /// Enters a call of a transaction, which makes nothing.
    fn enter(&mut self, t: TxId, c: &Call) -> Result<(), TxError>
        requires plain { is_plain c.now ≡ true }
        requires makes { made_by c.now ≡ None }
        ensures entered { Enters D.faults self.old.log t c.now self.old.lives self.new.lives result }
        ensures others { AreSame t self.old.lives self.new.lives }
        ensures rest { KeepsRest self.old self.new }
    {
        match self.call(t, c) {
            Ok((_, answer)) => done(answer),
            Err(e) => Err(e),
        }
    }

    /// The status of a transaction; active where it is none of this manager's.
    pub fn status(&self, tx: &CommittableTransaction) -> Status
        ensures { (x : LiveState) → live_at tx.now.number self.now.lives ≡ Some x → result ≡ status_of (half x.tx.world).seen.decided }
    {
        match self.live(tx.number) {
            Some(live) => live.status(),
            None => Status::Active,
        }
    }

    /// What the client of a transaction was told.
    pub fn told(&self, tx: &CommittableTransaction) -> Option<Outcome>
        ensures told { (x : LiveState) → live_at tx.now.number self.now.lives ≡ Some x → result ≡ (half x.tx.world).seen.told_client }
        ensures none { live_at tx.now.number self.now.lives ≡ None → result ≡ None }
    {
        self.live(tx.number)?.told()
    }

    /// What comes next in a transaction: a question to an enlistment, an outcome that one is told, or that of the client. Nothing, where it goes on only by a call, a reply
    /// or the time. It does the pending steps until then.
    ///
    /// # Errors
    ///
    /// - [`TxError::Refused`] where the transaction is none of this manager's.
    /// - [`TxError::Memory`] where memory ran out. What was done is done, and the next call goes on.
    pub fn next(&mut self, tx: &CommittableTransaction) -> Result<Option<Event>, TxError>
        ensures comes { IfOk result (λ e. AdvancesAt e tx.now.number self.old.lives self.new.lives) }
        ensures stays { OnErr result (AdvancesAt None tx.now.number self.old.lives self.new.lives) }
        ensures all { result ≡ Ok None → (y : LiveState) → live_at tx.now.number self.new.lives ≡ Some y → (y.heard ≡ length (past y)) × AllAsked y.tx.world }
        ensures logged { KeepsRecords D.honest D.image (identifier_of_id tx.now.number) self.old.log self.new.log }
        ensures others { AreSame tx.now.number self.old.lives self.new.lives }
        ensures time { KeepsTime self.old self.new }
        ensures cause { IfErr result (λ e. (e ≡ TxError.Memory) ⊎ ((e ≡ TxError.Refused NoSuch) × (live_at tx.now.number self.old.lives ≡ None))) }
    {
        self.next_in(tx.number)
    }

    fn next_in(&mut self, t: TxId) -> Result<Option<Event>, TxError>
        ensures comes { IfOk result (λ e. AdvancesAt e t self.old.lives self.new.lives) }
        ensures stays { OnErr result (AdvancesAt None t self.old.lives self.new.lives) }
        ensures all { result ≡ Ok None → (y : LiveState) → live_at t self.new.lives ≡ Some y → (y.heard ≡ length (past y)) × AllAsked y.tx.world }
        ensures logged { KeepsRecords D.honest D.image (identifier_of_id t) self.old.log self.new.log }
        ensures others { AreSame t self.old.lives self.new.lives }
        ensures time { KeepsTime self.old self.new }
        ensures cause { IfErr result (λ e. (e ≡ TxError.Memory) ⊎ ((e ≡ TxError.Refused NoSuch) × (live_at t self.old.lives ≡ None))) }
    {
        self.is_within(t);
        let mut count: u64 = 0;
        while count < u64::MAX {
            let advance = match self.advance(t) {
                Ok(advance) => advance,
                Err(e) => return Err(e),
            };
            match advance {
                Advance::Heard(event) => return Ok(Some(event)),
                Advance::Did => {}
                Advance::Idle => return Ok(None),
            }
            count += 1;
        }
        Err(TxError::Memory)
    }

    /// Hears the next entry of a transaction's history that says something to somebody; where none is left, does its first pending step that is no reply.
    fn advance(&mut self, t: TxId) -> Result<Advance, TxError>
        ensures comes { IfOk result (λ x. AdvancesAt (heard_in x) t self.old.lives self.new.lives) }
        ensures stays { OnErr result (AdvancesAt None t self.old.lives self.new.lives) }
        ensures heard { IfOk result (λ x. x ≢ Did → self.new.log ≡ self.old.log) }
        ensures idle { result ≡ Ok Idle → (y : LiveState) → live_at t self.new.lives ≡ Some y → (y.heard ≡ length (past y)) × AllAsked y.tx.world }
        ensures logged { KeepsRecords D.honest D.image (identifier_of_id t) self.old.log self.new.log }
        ensures others { AreSame t self.old.lives self.new.lives }
        ensures time { KeepsTime self.old self.new }
        ensures cause { IfErr result (λ e. (e ≡ TxError.Memory) ⊎ ((e ≡ TxError.Refused NoSuch) × (live_at t self.old.lives ≡ None))) }
    {
        no_transaction_is_an_epoch();
        let Some(live) = self.lives.get_mut(index(t)) else {
            return Err(TxError::Refused(Answer::NoSuch));
        };
        if !live.is_live(t) {
            return Err(TxError::Refused(Answer::NoSuch));
        }
        let advanced = live.advance(&mut self.log, &mut self.out);
        live.is_sound();
        advanced
    }

    /// The law of one outcome: all that anybody was told in this transaction has its cause, no two were told opposite outcomes, and each that came back learned the outcome,
    /// on every disk. It does nothing when it runs.
    pub fn is_lawful(&self, tx: &CommittableTransaction)
        ensures just { (x : LiveState) → live_at tx.now.number self.now.lives ≡ Some x → justified (past x) ≡ true }
        ensures agrees { (x : LiveState) → live_at tx.now.number self.now.lives ≡ Some x → agree (past x) ≡ true }
        ensures learned { (x : LiveState) → live_at tx.now.number self.now.lives ≡ Some x → Learned (past x) }
    {
        if let Some(live) = self.live(tx.number) {
            live.is_lawful();
        }
    }

    /// What holds of a transaction and of the log's records of it, whatever its disk did. It does nothing when it runs; a caller's proof asks for it.
    pub fn has_run(&self, tx: &CommittableTransaction)
        ensures { HasRunAt D.honest D.image tx.now.number self.now }
    {
        self.has_run_at(tx.number);
    }

    fn has_run_at(&self, t: TxId)
        ensures { HasRunAt D.honest D.image t self.now }
    {
        let _ = &self.given;
        if let Some(live) = self.live(t) {
            live.has_run();
        }
    }
}
