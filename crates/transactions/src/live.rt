//! One transaction that goes on.
ghost use Rattle.std.specs.Prelude.{ℕ, ◌≡◌, ◌≢◌, ◌⊎◌, ◌≤◌, ◌<◌, ◌+◌, ◌-◌, ◌^◌, ◌↔◌, ◌∷◌, List, [], Option, Some, None, Ok, Err, IfOk, IfErr, OnOk, OnErr, IfSome, IsFalse, IsTrue, true, false, is_some, length, filter};
ghost use Rattle.dtx_values.specs.TxIds.{number_of};
ghost use Rattle.dtx_values.specs.declared.entry.Answer.{Answer};
ghost use Rattle.dtx_values.specs.declared.entry.Entry.TheVariants.{Answered};
ghost use Rattle.dtx_model.specs.Caused.{AreMadeOnce, IsIn, IsOwnRun, made_by};
ghost use Rattle.dtx_model.specs.Entries.{is_commit};
ghost use Rattle.dtx_model.specs.Grammar.{OfClone, OfEnlistment};
ghost use Rattle.dtx_model.specs.Log.{CommitRecord};
ghost use Rattle.dtx_model.specs.Outcome.{agree, justified};
ghost use Rattle.dtx_model.specs.Learned.{Learned};
ghost use Rattle.dtx_model.specs.Steps.{Calls, Replies, pending};
ghost use Rattle.dtx_model.specs.Words.{has, kth};
ghost use Rattle.dtx_model.specs.World.{core, half};
ghost use Rattle.coordinator_log.specs.Slots.{open_records};
ghost use Rattle.tx_world.specs.AtLog.{Fits, IsOurs, id_of, kept_of};
ghost use Rattle.tx_world.specs.Leaves.{Leaves};
ghost use Rattle.tx_world.specs.OwnCalls.{status_of};
ghost use Rattle.tx_world.specs.State.{is_maker};
ghost use Rattle.tx_world.specs.Stepping.{Does, reply_in};
ghost use Rattle.tx_world.specs.Tried.{IsTried};
ghost use Rattle.transactions.specs.Calling.{IsCalled, Ticks};
ghost use Rattle.transactions.specs.Answered.{Has, is_answer_to};
ghost use Rattle.transactions.specs.Counting.{is_given, is_plain};
ghost use Rattle.transactions.specs.Doing.{is_due};
ghost use Rattle.transactions.specs.Enlisting.{Clones, Enlists};
ghost use Rattle.transactions.specs.Ending.{IsOver, is_left_prepared, is_told_to};
ghost use Rattle.transactions.specs.Hearing.{Advances, HearsNext, Writes, heard_in, listed};
ghost use Rattle.transactions.specs.Keeping.{IsSound};
ghost use Rattle.transactions.specs.Slots.{is_live, is_used, standing_in};
ghost use Rattle.transactions.specs.State.{LiveState, blank, past};
ghost use Rattle.transactions.specs.Telling.{Waiting, is_full, told};
ghost use Rattle.transactions.specs.Waiting.{AllAsked};
ghost use Rattle.transactions.specs.declared.event.Advance.TheVariants.{Did, Idle};
ghost use Rattle.transactions.specs.declared.usage.Usage.TheVariants.{Held, Left};

use crate::error::TxError;
use crate::event::{Advance, Event, event_of};
use crate::kind::{Kind, enlists};
use crate::usage::Usage;
use coordinator_log::Log;
use dtx_values::{
    ActorNo, Answer, Call, CloneKind, CloneNo, EnlNo, Entry, Outbox, Outcome, Party, Reply, Status,
    TxId, TxNo, Vote,
};
use outcome_law::{own_outcome, stops};
use outside::Disk;
use own_laws::own_completeness;
use std::alloc::Global;
use std::marker::Model;
use tx_world::TxWorld;

/// The longest time in milliseconds that one tick may last.
const LONGEST: u64 = 1_000_000_000;

/// A place of the manager, with the transaction that has it or had it last, and how much of its history was heard.
#[derive(Drop)]
pub(crate) struct Live {
    number: TxId,
    usage: Usage,
    world: TxWorld,
    /// How many calls it was given, each on a line of its own.
    lines: u32,
    /// The greatest numbers that it gave to an enlistment and to a clone.
    enlisted: u32,
    cloned: u32,
    /// How many entries of its history were heard.
    heard: usize,
    /// Up to which reading of the clock its time went on.
    time: u64,
}

impl Model for Live {
    ghost use Rattle.transactions.specs.Keeping.{IsSound};
    ghost use Rattle.transactions.specs.State.{LiveState};

    ghost Value = { LiveState };

    ghost view = { λ l. record { number = l.number; usage = l.usage; tx = l.world; lines = l.lines; enlisted = l.enlisted; cloned = l.cloned; heard = l.heard; time = l.time } };

    ghost invariant = { λ l. IsSound (record { number = l.number; usage = l.usage; tx = l.world; lines = l.lines; enlisted = l.enlisted; cloned = l.cloned; heard = l.heard; time = l.time }) };
}

impl Live {
    /// A transaction of this number, which has no call yet and which somebody holds, at this reading of the clock.
    pub fn new(alloc: Global, number: TxId, time: u64) -> Result<Live, TxError>
        ensures blank { IfOk result (λ x. x ≡ blank number time) }
        ensures fits { IfOk result (λ x. Fits x.tx []) }
        ensures memory { IfErr result (λ e. e ≡ TxError.Memory) }
    {
        Ok(Live {
            number,
            usage: Usage::Held,
            world: TxWorld::new(alloc, number)?,
            lines: 0,
            enlisted: 0,
            cloned: 0,
            heard: 0,
            time,
        })
    }

    /// Its number.
    pub fn number(&self) -> TxId
        ensures { result ≡ self.now.number }
    {
        self.number
    }

    /// What its place is used for.
    pub fn usage(&self) -> Usage
        ensures { result ≡ self.now.usage }
    {
        self.usage
    }

    /// Whether a transaction goes on here.
    pub fn is_used(&self) -> bool
        ensures { result ≡ is_used self.now.usage }
    {
        matches!(self.usage, Usage::Held | Usage::Left)
    }

    /// Whether this transaction goes on here.
    pub fn is_live(&self, t: TxId) -> bool
        ensures { result ≡ is_live t self.now }
    {
        self.is_used() && self.number.number() == t.number()
    }

    /// The transaction that goes on here; where none does, that of epoch 0 at this place.
    pub fn standing(&self, place: TxNo) -> TxId
        ensures { result ≡ standing_in place (Some self.now) }
    {
        if self.is_used() {
            self.number
        } else {
            TxId::first(place)
        }
    }

    /// Its place is used for this from now on.
    pub fn set_usage(&mut self, usage: Usage)
        ensures { self.new ≡ record self.old { usage = usage } }
    {
        self.usage = usage;
    }

    /// Enters a call on a line of its own, and gives the line and the answer.
    pub fn call<D: Disk>(
        &mut self,
        log: &Log<D>,
        out: &mut Outbox,
        actor: ActorNo,
        c: &Call,
    ) -> Result<(u32, Answer), TxError>
        requires plain { is_plain c.now ≡ true }
        requires counted { is_given self.old.enlisted self.old.cloned (made_by c.now) ≡ true }
        requires unmade { has (λ k. is_maker (made_by c.now) k.call) self.old.tx.world.calls ≡ false }
        ensures called { IfOk result (λ x. IsCalled D.faults log.now c.now x.0 x.1 self.old self.new) }
        ensures fits { (rs : List CommitRecord) → Fits self.old.tx rs → Fits self.new.tx rs }
        ensures refused { OnErr result (self.new ≡ self.old) }
        ensures cause { IfErr result (λ e. e ≢ TxError.Memory → (e ≡ TxError.Many) × (self.old.lines ≡ 2 ^ 32 - 1)) }
    {
        let Some(line) = self.lines.checked_add(1) else {
            return Err(TxError::Many);
        };
        let answer = self.world.enter(log, out, actor, line, c, 0)?;
        self.lines = line;
        Ok((line, answer))
    }

    /// A number for an enlistment.
    pub fn next_enlistment(&mut self) -> Result<EnlNo, TxError>
        ensures given { IfOk result (λ e. self.new ≡ record self.old { enlisted = e.value }) }
        ensures next { IfOk result (λ e. e.value ≡ self.old.enlisted + 1) }
        ensures unmade { IfOk result (λ e. has (λ k. is_maker (Some (OfEnlistment e.value)) k.call) self.old.tx.world.calls ≡ false) }
        ensures refused { OnErr result (self.new ≡ self.old) }
        ensures cause { IfErr result (λ e. (e ≡ TxError.Many) × (EnlNo.MAX ≤ self.old.enlisted)) }
    {
        let number = self.enlisted.checked_add(1).ok_or(TxError::Many)?;
        let e = EnlNo::new(number).ok_or(TxError::Many)?;
        self.enlisted = number;
        Ok(e)
    }

    /// Enters the call that enlists something under the next number; it gives that, the line and the answer.
    pub fn enlist<D: Disk>(
        &mut self,
        log: &Log<D>,
        out: &mut Outbox,
        actor: ActorNo,
        k: Kind,
    ) -> Result<(EnlNo, u32, Answer), TxError>
        ensures enlisted { IfOk result (λ x. Enlists D.faults log.now k x.0 x.1 x.2 self.old self.new) }
        ensures fits { (rs : List CommitRecord) → Fits self.old.tx rs → Fits self.new.tx rs }
        ensures failed { OnErr result (self.new ≡ record self.old { enlisted = self.new.enlisted }) }
        ensures cause { IfErr result (λ e. e ≢ TxError.Memory → (e ≡ TxError.Many) × ((EnlNo.MAX ≤ self.old.enlisted) ⊎ (self.old.lines ≡ 2 ^ 32 - 1))) }
    {
        let e = match self.next_enlistment() {
            Ok(e) => e,
            Err(x) => return Err(x),
        };
        let c = enlists(self.number.t(), e, k);
        match self.call(log, out, actor, &c) {
            Ok((line, answer)) => Ok((e, line, answer)),
            Err(x) => Err(x),
        }
    }

    /// A number for a clone.
    pub fn next_clone(&mut self) -> Result<CloneNo, TxError>
        ensures given { IfOk result (λ c. self.new ≡ record self.old { cloned = c.value }) }
        ensures next { IfOk result (λ c. c.value ≡ self.old.cloned + 1) }
        ensures unmade { IfOk result (λ c. has (λ k. is_maker (Some (OfClone c.value)) k.call) self.old.tx.world.calls ≡ false) }
        ensures refused { OnErr result (self.new ≡ self.old) }
        ensures cause { IfErr result (λ e. (e ≡ TxError.Many) × (CloneNo.MAX ≤ self.old.cloned)) }
    {
        let number = self.cloned.checked_add(1).ok_or(TxError::Many)?;
        let c = CloneNo::new(number).ok_or(TxError::Many)?;
        self.cloned = number;
        Ok(c)
    }

    /// Enters the call that makes a clone under the next number; it gives that and the answer.
    pub fn clone_next<D: Disk>(
        &mut self,
        log: &Log<D>,
        out: &mut Outbox,
        actor: ActorNo,
        k: CloneKind,
    ) -> Result<(CloneNo, Answer), TxError>
        ensures cloned { IfOk result (λ x. Clones D.faults log.now k x.0 x.1 self.old self.new) }
        ensures fits { (rs : List CommitRecord) → Fits self.old.tx rs → Fits self.new.tx rs }
        ensures failed { OnErr result (self.new ≡ record self.old { cloned = self.new.cloned }) }
        ensures cause { IfErr result (λ e. e ≢ TxError.Memory → (e ≡ TxError.Many) × ((CloneNo.MAX ≤ self.old.cloned) ⊎ (self.old.lines ≡ 2 ^ 32 - 1))) }
    {
        let number = match self.next_clone() {
            Ok(number) => number,
            Err(x) => return Err(x),
        };
        let c = Call::Clone(self.number.t(), number, k);
        match self.call(log, out, actor, &c) {
            Ok((_, answer)) => Ok((number, answer)),
            Err(x) => Err(x),
        }
    }

    /// The next entry of the history that says something to an enlistment or the client.
    fn hear(&mut self) -> Option<Event>
        ensures heard { HearsNext (listed result) self.old self.new }
        ensures all { result ≡ None → self.new.heard ≡ length (past self.new) }
        ensures rest { self.new ≡ record self.old { heard = self.new.heard } }
        ensures within { self.old.heard ≤ length (past self.old) }
        ensures still { self.new.heard ≤ length (past self.new) }
    {
        let history = self.world.history();
        let mut next = self.heard;
        while next < history.len() {
            let event = event_of(self.number, history.at(next));
            next += 1;
            if event.is_some() {
                self.heard = next;
                return event;
            }
        }
        self.heard = next;
        None
    }

    /// The place of the first pending step that is no reply, from 1.
    fn place(&self) -> Option<u32>
        ensures found { IfSome result (λ k. reply_in self.now.tx.world (kth (pending self.now.tx.world) k) ≡ None) }
        ensures within { IfSome result (λ k. (1 ≤ k) × (k ≤ length (pending self.now.tx.world))) }
        ensures none { result ≡ None → AllAsked self.now.tx.world }
    {
        let n = self.world.pending();
        for k in 1..=n {
            if self.world.due_at(k).is_none() {
                return Some(k);
            }
        }
        None
    }

    /// Does the first pending step that is no reply; false where none is pending.
    fn step<D: Disk>(&mut self, log: &mut Log<D>, out: &mut Outbox) -> Result<bool, TxError>
        requires fits { IsTrue D.honest → IsTrue log.old.is_up → Fits self.old.tx (open_records log.old.slots) }
        ensures writes { Writes [] self.old self.new }
        ensures rest { self.new ≡ record self.old { tx = self.new.tx } }
        ensures leaves { Leaves D.honest D.image D.faults self.old.tx log.old self.new.tx log.new }
        ensures none { result ≡ Ok false → (self.new ≡ self.old) × AllAsked self.new.tx.world }
        ensures still { result ≡ Ok false → log.new ≡ log.old }
        ensures down { IsFalse log.old.is_up → log.new ≡ log.old }
        ensures memory { IfErr result (λ e. (e ≡ TxError.Memory) × (self.new ≡ self.old)) }
    {
        let Some(k) = self.place() else {
            return Ok(false);
        };
        Ok(self.world.step(log, out, k)?)
    }

    /// What holds of each transaction. It does nothing when it runs; a caller's proof asks for it.
    pub fn is_sound(&self)
        ensures { IsSound self.now }
    {
        let _ = &self.heard;
    }

    /// Hears the next entry of the history that says something to somebody; where none is left, does the first pending step that is no reply.
    pub fn advance<D: Disk>(
        &mut self,
        log: &mut Log<D>,
        out: &mut Outbox,
    ) -> Result<Advance, TxError>
        requires fits { IsTrue D.honest → IsTrue log.old.is_up → Fits self.old.tx (open_records log.old.slots) }
        ensures comes { IfOk result (λ x. Advances (heard_in x) self.old self.new) }
        ensures stays { OnErr result (Advances None self.old self.new) }
        ensures heard { IfOk result (λ x. x ≢ Did → log.new ≡ log.old) }
        ensures idle { result ≡ Ok Idle → (self.new.heard ≡ length (past self.new)) × AllAsked self.new.tx.world }
        ensures leaves { Leaves D.honest D.image D.faults self.old.tx log.old self.new.tx log.new }
        ensures down { IsFalse log.old.is_up → log.new ≡ log.old }
        ensures memory { IfErr result (λ e. e ≡ TxError.Memory) }
    {
        if let Some(event) = self.hear() {
            return Ok(Advance::Heard(event));
        }
        if self.step(log, out)? {
            return Ok(Advance::Did);
        }
        Ok(Advance::Idle)
    }

    /// The reply of an enlistment; false exactly where none is due, or it doesn't fit.
    pub fn reply<D: Disk>(
        &mut self,
        log: &Log<D>,
        out: &mut Outbox,
        e: EnlNo,
        r: Reply,
    ) -> Result<bool, TxError>
        ensures due { IfOk result (λ b. b ≡ is_due e r self.old) }
        ensures done { result ≡ Ok true → Does D.faults (Replies e r) self.old.tx log.now self.new.tx log.now }
        ensures writes { result ≡ Ok true → Writes ((e, r) ∷ []) self.old self.new }
        ensures rest { self.new ≡ record self.old { tx = self.new.tx } }
        ensures unchanged { result ≡ Ok false → self.new ≡ self.old }
        ensures fits { (rs : List CommitRecord) → Fits self.old.tx rs → Fits self.new.tx rs }
        ensures memory { IfErr result (λ x. (x ≡ TxError.Memory) × (self.new ≡ self.old)) }
    {
        if !self.world.fits(e, r) {
            return Ok(false);
        }
        Ok(self.world.reply(log, out, e, r)?)
    }

    /// Its time goes on to this reading of the clock, by at most 1,000,000,000 milliseconds, until it is decided.
    pub fn pass<D: Disk>(
        &mut self,
        log: &Log<D>,
        out: &mut Outbox,
        actor: ActorNo,
        now: u64,
    ) -> Result<(), TxError>
        ensures ticked { OnOk result (Ticks D.faults log.now now self.old self.new) }
        ensures fits { (rs : List CommitRecord) → Fits self.old.tx rs → Fits self.new.tx rs }
        ensures refused { OnErr result (self.new ≡ self.old) }
        ensures cause { IfErr result (λ e. e ≢ TxError.Memory → (e ≡ TxError.Many) × (self.old.lines ≡ 2 ^ 32 - 1)) }
    {
        let passed = now.saturating_sub(self.time).min(LONGEST);
        if passed == 0 || self.world.status() != Status::Active {
            return Ok(());
        }
        let c = Call::Tick(self.number.t(), passed as u32);
        self.call(log, out, actor, &c)?;
        self.time = self.time.saturating_add(passed);
        Ok(())
    }

    /// The answer to the call of this line, which had to wait.
    pub fn answered(&self, line: u32) -> Option<Answer>
        ensures found { IfSome result (λ a. Has (Answered line a) (past self.now)) }
        ensures none { result ≡ None → has (is_answer_to line) (past self.now) ≡ false }
    {
        let history = self.world.history();
        for i in 0..history.len() {
            if let Entry::Answered(n, a) = history.at(i)
                && n == line
            {
                return Some(a);
            }
        }
        None
    }

    /// What the client was told.
    pub fn told(&self) -> Option<Outcome>
        ensures { result ≡ (half self.now.tx.world).seen.told_client }
    {
        self.world.told()
    }

    /// The status.
    pub fn status(&self) -> Status
        ensures { result ≡ status_of (half self.now.tx.world).seen.decided }
    {
        self.world.status()
    }

    /// Whether the enlistment was told an outcome.
    fn was_told(&self, e: EnlNo) -> bool
        ensures { result ≡ has (is_told_to e) (past self.now) }
    {
        let history = self.world.history();
        for i in 0..history.len() {
            if let Entry::Told(Party::Enl(f), _) = history.at(i)
                && e == f
            {
                return true;
            }
        }
        false
    }

    /// Whether an enlistment voted yes and wasn't told an outcome.
    fn has_prepared(&self) -> bool
        ensures { result ≡ has (is_left_prepared (past self.now)) (past self.now) }
    {
        let history = self.world.history();
        for i in 0..history.len() {
            if let Entry::Voted(e, Vote::Yes) = history.at(i)
                && !self.was_told(e)
            {
                return true;
            }
        }
        false
    }

    /// Whether nothing of it is left to do: its client was told, nothing is pending, no record stands, and nobody who prepared wasn't told.
    pub fn is_over(&self) -> bool
        ensures { IsTrue result ↔ IsOver self.now }
    {
        self.world.told().is_some()
            && self.world.pending() == 0
            && !self.world.has_record()
            && !self.has_prepared()
    }

    /// Whether the log was full when its commit was to be recorded: then it aborts.
    pub fn is_log_full(&self) -> bool
        ensures { result ≡ has is_full (past self.now) }
    {
        let history = self.world.history();
        for i in 0..history.len() {
            if let Entry::LogFull = history.at(i) {
                return true;
            }
        }
        false
    }

    /// A transaction that isn't decided waits for something. It does nothing when it runs.
    pub fn is_waiting(&self)
        ensures { told self.now ≡ None → has is_commit (past self.now) ≡ true → AllAsked self.now.tx.world → Waiting self.now }
    {
        own_completeness();
        stops();
        self.world.is_own_run();
    }

    /// The law of one outcome for this transaction. It does nothing when it runs.
    pub fn is_lawful(&self)
        ensures just { justified (past self.now) ≡ true }
        ensures agrees { agree (past self.now) ≡ true }
        ensures learned { Learned (past self.now) }
    {
        own_outcome();
        stops();
        self.world.is_own_run();
    }

    /// What holds of it and of what it keeps of the log, whatever its disk did. It does nothing when it runs.
    pub fn has_run(&self)
        ensures sound { IsSound self.now }
        ensures run { IsOwnRun (number_of self.now.tx.transaction) self.now.tx.world }
        ensures once { AreMadeOnce (IsIn self.now.tx.world.calls) }
        ensures ours { IsOurs (id_of self.now.tx) (core self.now.tx.world) (kept_of self.now.tx) }
        ensures tried { IsTried (past self.now) (kept_of self.now.tx) }
    {
        stops();
        self.world.is_own_run();
    }
}
