//! A replay: the lines in order, and then the rounds at the end.
ghost use Rattle.std.specs.Prelude.{ℕ, ◌≡◌, ◌⊎◌, ◌≢◌, ◌≤◌, ◌<◌, ◌+◌, ◌-◌, ◌^◌, ◌&&◌, not, List, [], ◌∷◌, ◌++◌, IfOk, OnErr, OnOk, IsTrue, is_some, None, Ok, Some, true, false, length, map, replicate, slice_get, suc};
ghost use Rattle.dtx_values.specs.declared.call.Call.{Call};
ghost use Rattle.dtx_values.specs.TxIds.{first_id};
ghost use Rattle.dtx_values.specs.declared.entry.Entry.{Entry};
ghost use Rattle.dtx_values.specs.declared.entry.Answer.TheVariants.{Fine};
ghost use Rattle.dtx_values.specs.declared.entry.Entry.TheVariants.{Called, LogWord, Restarted, Stopped};
ghost use Rattle.dtx_values.specs.declared.entry.LogNote.TheVariants.{Armed};
ghost use Rattle.dtx_values.specs.declared.number.ActorNo.{ActorNo};
ghost use Rattle.dtx_values.specs.declared.number.TxNo.{TxNo};
ghost use Rattle.dtx_values.specs.declared.script.Line.{Line};
ghost use Rattle.outside.specs.Faults.{Rose};
ghost use Rattle.dtx_model.specs.Words.{has, kth, onto, past_of};
ghost use Rattle.dtx_model.specs.AtLog.{at_log, has_log_line, hit, is_log_line, is_log_up, known, open_right};
ghost use Rattle.dtx_model.specs.Calls.{call_of};
ghost use Rattle.dtx_model.specs.World.{World, core};
ghost use Rattle.dtx_model.specs.Steps.{Calls, pending};
ghost use Rattle.dtx_model.specs.Caused.{Caused, HasDone, HasStepped, IsCallOf, MayAnswer, Settled, is_begin_sent};
ghost use Rattle.dtx_model.specs.Contexts.{calls_by, lines_before, scope_block, scope_calls};
ghost use Rattle.dtx_model.specs.Tied.{tied};
ghost use Rattle.dtx_model.specs.Traces.{Placed, history, noted, placed};
ghost use Rattle.dtx_model.specs.Replay.{CallRan, HasDoneAt, IsReplayed, LineRan, LinesRan, Reopening, after_calls, after_restart, after_scope, after_turn, at_the_log, put_at, world_at};
ghost use Rattle.dtx_model.specs.Grammar.{IsScript, are_named_well, is_in_range};
ghost use Rattle.coordinator_log.specs.Slots.{open_records};
ghost use Rattle.turn_parts.specs.Reopening.{is_no_log_answer};
ghost use Rattle.turn_parts.specs.Runs.{untouched};
ghost use Rattle.turn_parts.specs.Runs.{AreTied, IsNeverFull};
ghost use Rattle.replay_runs.specs.Ending.{EndsAs, HasNone};
ghost use Rattle.replay_runs.specs.Found.{finds_as_wished};
ghost use Rattle.replay_runs.specs.LogRun.{IsCounted, LogGoes, LogStays, MetNoFault};
ghost use Rattle.replay_runs.specs.RunState.{AreBelow, AreSettledBelow, HasNoStep, HaveSameCalls, HearsOn, Holds, IsBelow, IsRecordKept, IsRoundAt, IsTied, IsToPlan, RunsOn, Settles, StepsGo, StepsOn, halted, record_in, reopened, state_of};
ghost use Rattle.replay_runs.specs.Whose.{named};
ghost use Rattle.heard_notes.specs.Heard.{heard};
ghost use Rattle.script_calls.specs.Scoped.{AreOnce, AreOpen, IsUnopened, calls_given, nothing_open, rollbacks, rolled_at, scopes_at};
ghost use Rattle.tx_world.specs.AtLog.{Fits};
ghost use Rattle.world_laws.specs.Left.{steps_left};

use crate::asking::Objects;
use crate::objects::do_kth;
use crate::whose::Whose;
use coordinator_log::Log;
use dtx_values::{
    ActorNo, Answer, Body, Call, Entry, Image, Line, LogNote, Outbox, Place, RmNo, TxId, TxNo,
};
use entry_lists::{PlacedEntries, Trace};
use outcome_law::lifting;
use outside::Disk;
use scope_context::Context;
use script_calls::{Gives, Plans, act, call_of, contexts, managers_of};
use std::alloc::{AllocError, Global};
use std::marker::Model;
use turn_parts::{reopened, restart_answer};
use tx_world::{TxWorld, WorldError};

/// For how many entries of each line the trace has room from the start.
const ENTRIES_A_LINE: usize = 5;

/// A replay under way: its script's names, whose enlistments have an object, its transactions and its actors' contexts by number, and its trace. Contracts see the script,
/// whose enlistments have an object, the transactions, the contexts and the trace. The objects themselves are lent to its parts, as the log is.
#[derive(Drop)]
pub struct Run<'a> {
    alloc: Global,
    plans: Plans<'a>,
    /// At which manager the script enlists each enlistment, by number.
    managers: Vec<Option<RmNo>>,
    whose: Whose,
    /// The transactions by number, up to the last that was called.
    worlds: Vec<TxWorld>,
    contexts: Vec<Context>,
    /// The entries of the line under way at a context, after its call.
    entries: Vec<Entry>,
    /// Room for what a step makes; kept for its memory alone.
    out: Outbox,
    trace: PlacedEntries,
}

impl<'a> Model for Run<'a> {
    ghost use Rattle.std.specs.Prelude.{◌≡◌, length, true};
    ghost use Rattle.dtx_values.specs.declared.number.TheConstants.ActorNo.{MAX};
    ghost use Rattle.dtx_values.specs.declared.number.TheConstants.EnlNo.{MAX as ENLISTMENTS};
    ghost use Rattle.dtx_model.specs.Grammar.{are_named_well};
    ghost use Rattle.script_calls.specs.Managers.{AreManagers};
    ghost use Rattle.replay_runs.specs.RunState.{AreNumbered, RunState};
    ghost use Rattle.replay_runs.specs.Whose.{named};

    ghost Value = { RunState };

    ghost view = { λ r. record { script = r.plans; objects = named r.whose; worlds = r.worlds.items; contexts = r.contexts.items; trace = r.trace.items } };

    ghost invariant = { λ r. AreNumbered r.worlds.items × (length r.contexts.items ≡ MAX) × (are_named_well r.plans ≡ true) × (length r.managers.items ≡ ENLISTMENTS) × AreManagers r.plans r.plans r.managers.items };
}

/// Makes transaction t, to which nothing came yet, after the others. It stands for itself, so that a call of a transaction that is there doesn't clear the
/// room that a new one is made in.
#[inline(never)]
fn add(alloc: Global, worlds: &mut Vec<TxWorld>, t: TxNo) -> Result<(), WorldError>
    ensures added { OnOk result (worlds.new.items ≡ worlds.old.items ++ untouched t ∷ []) }
    ensures memory { OnErr result (worlds.new.items ≡ worlds.old.items) }
{
    worlds.reserve(1)?;
    worlds.push_reserved(TxWorld::new(alloc, TxId::first(t))?);
    Ok(())
}

/// Makes the transactions that aren't there yet, up to this one.
fn reach(alloc: Global, worlds: &mut Vec<TxWorld>, t: TxNo) -> Result<(), WorldError>
    ensures same { (u : TxNo) → state_of u worlds.new.items ≡ state_of u worlds.old.items }
    ensures few { length worlds.old.items ≤ TxNo.MAX → length worlds.new.items ≤ TxNo.MAX }
    ensures reached { OnOk result (t.value ≤ length worlds.new.items) }
{
    for number in worlds.len()..t.index() + 1 {
        let next = TxNo::new(number as u32 + 1).unwrap();
        add(alloc, worlds, next)?;
    }
    Ok(())
}

/// Puts the entries at the end of the trace, each at this place. The trace has room for them.
fn append(trace: &mut PlacedEntries, place: Place, entries: &[Entry])
    requires { length entries.now ≤ trace.old.room }
    ensures { trace.new.items ≡ trace.old.items ++ map (λ e. (place, e)) entries.now }
{
    for e in entries {
        trace.push_reserved((place, *e));
    }
}

/// Puts at the end of the trace what was written to a transaction's history from this place on.
fn note(trace: &mut PlacedEntries, t: TxNo, world: &TxWorld, from: usize) -> Result<(), AllocError>
    requires { from ≤ length world.now.world.past }
    ensures { OnOk result ((past es : List Entry) → length past ≡ from → world.now.world.past ≡ onto past es → trace.new.items ≡ trace.old.items ++ placed t es) }
{
    let history = world.history();
    trace.reserve(history.len() - from)?;
    trace.push_from(Place::Transaction(t), history, from);
    Ok(())
}

impl<'a> Run<'a> {
    /// A replay of these lines, before its first step. It has room for every transaction, and for a few entries of each line: memory that is never written costs
    /// nothing, and what grows step by step is copied.
    pub fn new(alloc: Global, lines: &'a [Line], whose: Whose) -> Result<Self, AllocError>
        requires { are_named_well lines.now ≡ true }
        ensures { IfOk result (λ r. r ≡ record { script = lines.entry.now; objects = named whose; worlds = []; contexts = replicate ActorNo.MAX nothing_open; trace = [] }) }
    {
        Ok(Run {
            alloc,
            plans: Plans::new(alloc, lines)?,
            managers: managers_of(alloc, lines)?,
            whose,
            worlds: Vec::with_capacity(alloc, TxNo::MAX as usize)?,
            contexts: contexts(alloc)?,
            entries: Vec::new(alloc),
            out: Outbox::with_room(alloc)?,
            trace: PlacedEntries::with_capacity(alloc, lines.len().saturating_mul(ENTRIES_A_LINE))?,
        })
    }

    /// Does the call that line n gives transaction t, for which so many steps were done.
    fn call<D: Disk, O: Objects>(
        &mut self,
        log: &Log<D>,
        objects: &mut O,
        n: u32,
        actor: ActorNo,
        t: TxNo,
        c: &Call,
        done: u16,
    ) -> Result<(), WorldError>
        requires holds { Holds D.honest D.image log.now self.old }
        requires given { IsCallOf self.old.script t.value n actor c.now }
        requires below { IsBelow n (state_of t self.old.worlds) }
        requires answers { MayAnswer t.value (state_of t self.old.worlds).world c.now done }
        requires made { O.is_for self.old.script self.old.objects objects.old }
        ensures contexts { self.new.contexts ≡ self.old.contexts }
        ensures runs { OnOk result (RunsOn D.faults D.honest D.image D.obeys D.seen log.now log.now self.old self.new) }
        ensures heard { OnOk result (HearsOn O.is_for O.reached self.old self.new objects.old objects.new) }
        ensures others { (u : TxNo) → u ≢ t → state_of u self.new.worlds ≡ state_of u self.old.worlds }
        ensures entered { OnOk result (IsBelow (n + 1) (state_of t self.new.worlds)) }
        ensures done { OnOk result (past_of self.new.trace ≡ after_turn self.old.script t (Calls n actor c.now done) (past_of self.old.trace)) }
    {
        // What a script's lines make is made once, so that the call may be entered.
        lifting();
        reach(self.alloc, &mut self.worlds, t)?;
        let world = &mut self.worlds[t.index()];
        world.is_own_run();
        let from = world.history().len();
        let _ = world.enter(log, &mut self.out, actor, n, c, done)?;
        world.is_own_run();
        note(&mut self.trace, t, world, from)?;
        objects.tell(t, world, from);
        Ok(())
    }

    /// Tells each transaction, by number, that the log was stopped in this life, and writes what that brings.
    fn stop_all(&mut self, life: u64) -> Result<(), WorldError>
        requires tied { (t : TxNo) → IsTied self.old.script self.old.objects t (past_of self.old.trace) (state_of t self.old.worlds) }
        requires lives { (t : TxNo) → has is_begin_sent (state_of t self.old.worlds).world.past ≡ true → (state_of t self.old.worlds).life ≡ life }
        ensures script { self.new.script ≡ self.old.script }
        ensures objects { self.new.objects ≡ self.old.objects }
        ensures contexts { self.new.contexts ≡ self.old.contexts }
        ensures calls { HaveSameCalls self.old.worlds self.new.worlds }
        ensures worlds { OnOk result ((t : TxNo) → state_of t self.new.worlds ≡ halted life (state_of t self.old.worlds)) }
        ensures trace { OnOk result (past_of self.new.trace ≡ put_at (λ t. Stopped) (hit (past_of self.old.trace)) (past_of self.old.trace)) }
        ensures kept { OnOk result (((t : TxNo) → IsRecordKept (state_of t self.old.worlds)) → (t : TxNo) → IsRecordKept (state_of t self.new.worlds)) }
    {
        for place in 0..self.worlds.len() {
            let t = TxNo::new(place as u32 + 1).unwrap();
            let world = &mut self.worlds[place];
            let from = world.history().len();
            world.coordinator_stopped(life)?;
            world.is_own_run();
            note(&mut self.trace, t, world, from)?;
        }
        Ok(())
    }

    /// Tells each transaction, by number, that the log was opened again, and writes what that brings: whether its record was found.
    fn restart_all<D: Disk>(&mut self, log: &Log<D>) -> Result<(), WorldError>
        requires up { IsTrue log.now.is_up }
        requires tied { (t : TxNo) → IsTied self.old.script self.old.objects t (past_of self.old.trace) (state_of t self.old.worlds) }
        requires fits { IsTrue D.honest → (t : TxNo) → Fits (state_of t self.old.worlds) (open_records log.now.slots) }
        requires stopped { (t : TxNo) → has is_begin_sent (state_of t self.old.worlds).world.past ≡ true → (core (state_of t self.old.worlds).world).stopped ≡ true }
        requires lives { (t : TxNo) → has is_begin_sent (state_of t self.old.worlds).world.past ≡ true → (state_of t self.old.worlds).life < log.now.life }
        ensures script { self.new.script ≡ self.old.script }
        ensures objects { self.new.objects ≡ self.old.objects }
        ensures contexts { self.new.contexts ≡ self.old.contexts }
        ensures calls { HaveSameCalls self.old.worlds self.new.worlds }
        ensures worlds { OnOk result ((t : TxNo) → state_of t self.new.worlds ≡ reopened log.now (state_of t self.old.worlds)) }
        ensures trace { OnOk result (past_of self.new.trace ≡ put_at (λ t. Restarted (is_some (record_in log.now.slots t.value))) (known (past_of self.old.trace)) (past_of self.old.trace)) }
        ensures kept { OnOk result (((t : TxNo) → IsRecordKept (state_of t self.old.worlds)) → (t : TxNo) → IsRecordKept (state_of t self.new.worlds)) }
        ensures sound { OnOk result (IsTrue D.honest → ((t : TxNo) → tied (state_of t self.old.worlds).world.past ≡ true) → (t : TxNo) → tied (state_of t self.new.worlds).world.past ≡ true) }
    {
        for place in 0..self.worlds.len() {
            let t = TxNo::new(place as u32 + 1).unwrap();
            let world = &mut self.worlds[place];
            let from = world.history().len();
            world.coordinator_restarted(log)?;
            world.is_own_run();
            note(&mut self.trace, t, world, from)?;
        }
        Ok(())
    }

    /// Does the k-th pending step of transaction t; false where fewer than k are pending.
    fn step<D: Disk, O: Objects>(
        &mut self,
        log: &mut Log<D>,
        objects: &mut O,
        t: TxNo,
        k: u8,
    ) -> Result<bool, WorldError>
        requires holds { Holds D.honest D.image log.old self.old }
        requires made { O.is_for self.old.script self.old.objects objects.old }
        ensures goes { StepsGo D.faults D.honest D.image log.old log.new self.old self.new }
        ensures runs { OnOk result (RunsOn D.faults D.honest D.image D.obeys D.seen log.old log.new self.old self.new) }
        ensures heard { OnOk result (HearsOn O.is_for O.reached self.old self.new objects.old objects.new) }
        ensures did { result ≡ Ok true → StepsOn t k log.old.is_up log.new.is_up self.old self.new }
        ensures none { result ≡ Ok false → HasNoStep t k self.old }
        ensures unchanged { result ≡ Ok false → (self.new ≡ self.old) × (log.new ≡ log.old) }
    {
        if self.worlds.len() <= t.index() {
            return Ok(false);
        }
        let was_up = log.is_up();
        let world = &mut self.worlds[t.index()];
        world.is_own_run();
        let from = world.history().len();
        let reply = objects.asked(&self.managers, t, world, u32::from(k));
        if !do_kth(world, log, &mut self.out, u32::from(k), reply)? {
            return Ok(false);
        }
        // What holds of the world after the step: what it keeps of the log is what its coordinator knows.
        world.is_own_run();
        if was_up && !log.is_up() {
            self.trace.reserve(1)?;
            self.trace.push_reserved((Place::Log, Entry::Stopped));
            note(&mut self.trace, t, world, from)?;
            objects.tell(t, world, from);
            self.stop_all(log.life())?;
            return Ok(true);
        }
        note(&mut self.trace, t, world, from)?;
        objects.tell(t, world, from);
        Ok(true)
    }

    /// Does the k-th pending step of transaction t, n times, and stops where there are fewer; how often it did.
    fn steps<D: Disk, O: Objects>(
        &mut self,
        log: &mut Log<D>,
        objects: &mut O,
        t: TxNo,
        k: u8,
        n: u16,
    ) -> Result<u16, WorldError>
        requires holds { Holds D.honest D.image log.old self.old }
        requires made { O.is_for self.old.script self.old.objects objects.old }
        ensures goes { StepsGo D.faults D.honest D.image log.old log.new self.old self.new }
        ensures runs { OnOk result (RunsOn D.faults D.honest D.image D.obeys D.seen log.old log.new self.old self.new) }
        ensures heard { OnOk result (HearsOn O.is_for O.reached self.old self.new objects.old objects.new) }
        ensures did { IfOk result (λ m. HasDone t.value (state_of t self.new.worlds).world k n m) }
        ensures done { IfOk result (λ m. HasDoneAt self.old.script t k n m (past_of self.old.trace) (past_of self.new.trace)) }
    {
        for m in 0..n {
            if !self.step(log, objects, t, k)? {
                return Ok(m);
            }
        }
        Ok(n)
    }

    /// Does the pending steps of transaction t, each time the first, until none is left.
    fn settle<D: Disk, O: Objects>(
        &mut self,
        log: &mut Log<D>,
        objects: &mut O,
        t: TxNo,
    ) -> Result<(), WorldError>
        requires holds { Holds D.honest D.image log.old self.old }
        requires made { O.is_for self.old.script self.old.objects objects.old }
        ensures goes { StepsGo D.faults D.honest D.image log.old log.new self.old self.new }
        ensures runs { OnOk result (RunsOn D.faults D.honest D.image D.obeys D.seen log.old log.new self.old self.new) }
        ensures heard { OnOk result (HearsOn O.is_for O.reached self.old self.new objects.old objects.new) }
        ensures settled { OnOk result (pending (state_of t self.new.worlds).world ≡ []) }
        ensures done { OnOk result (Settles self.old.script t self.old.trace self.new.trace) }
        ensures turns { OnOk result ((start : List Placed) → IsRoundAt self.old.script start t.value (past_of self.old.trace) → IsRoundAt self.old.script start (t.value + 1) (past_of self.new.trace)) }
        ensures below { OnOk result ((log.new.is_up ≡ log.old.is_up) → AreSettledBelow self.old.script t.value (past_of self.old.trace) → AreSettledBelow self.old.script (t.value + 1) (past_of self.new.trace)) }
    {
        loop {
            if !self.step(log, objects, t, 1)? {
                return Ok(());
            }
        }
    }

    /// Settles t1, t2 and so on in turn. As long as the log isn't stopped, no step of one makes another's pending: so then one round leaves nothing.
    fn settle_round<D: Disk, O: Objects>(
        &mut self,
        log: &mut Log<D>,
        objects: &mut O,
    ) -> Result<(), WorldError>
        requires holds { Holds D.honest D.image log.old self.old }
        requires made { O.is_for self.old.script self.old.objects objects.old }
        ensures goes { StepsGo D.faults D.honest D.image log.old log.new self.old self.new }
        ensures runs { OnOk result (RunsOn D.faults D.honest D.image D.obeys D.seen log.old log.new self.old self.new) }
        ensures heard { OnOk result (HearsOn O.is_for O.reached self.old self.new objects.old objects.new) }
        ensures turns { OnOk result ((start : List Placed) → IsRoundAt self.old.script start 1 (past_of self.old.trace) → IsRoundAt self.old.script start 1 (past_of self.new.trace)) }
        ensures settled { OnOk result (log.new.is_up ≡ log.old.is_up → AreSettledBelow self.old.script (TxNo.MAX + 1) (past_of self.new.trace)) }
    {
        for n in 1..TxNo::MAX + 1 {
            let t = TxNo::new(n).unwrap();
            self.settle(log, objects, t)?;
        }
        Ok(())
    }

    /// Settles all, round after round. A stop of the log in a round may leave something to do in those before; once it is stopped, it stops no more.
    fn settle_all<D: Disk, O: Objects>(
        &mut self,
        log: &mut Log<D>,
        objects: &mut O,
    ) -> Result<(), WorldError>
        requires holds { Holds D.honest D.image log.old self.old }
        requires made { O.is_for self.old.script self.old.objects objects.old }
        ensures goes { StepsGo D.faults D.honest D.image log.old log.new self.old self.new }
        ensures runs { OnOk result (RunsOn D.faults D.honest D.image D.obeys D.seen log.old log.new self.old self.new) }
        ensures heard { OnOk result (HearsOn O.is_for O.reached self.old self.new objects.old objects.new) }
        ensures turns { OnOk result ((start : List Placed) → IsRoundAt self.old.script start 1 (past_of self.old.trace) → IsRoundAt self.old.script start 1 (past_of self.new.trace)) }
        ensures settled { OnOk result (AreSettledBelow self.old.script (TxNo.MAX + 1) (past_of self.new.trace)) }
    {
        let was_up = log.is_up();
        self.settle_round(log, objects)?;
        if !was_up {
            return Ok(());
        }
        if log.is_up() {
            return Ok(());
        }
        self.settle_round(log, objects)
    }

    /// Writes what line n does at its actor's context: its call, and its entries; and which calls it gives transactions. Nothing, where it
    /// is no scope line.
    fn at_context(&mut self, n: u32, l: &Line) -> Result<Gives, AllocError>
        requires { IsUnopened l.now.body (scopes_at l.now.actor self.old.contexts) }
        ensures script { self.new.script ≡ self.old.script }
        ensures objects { self.new.objects ≡ self.old.objects }
        ensures worlds { self.new.worlds ≡ self.old.worlds }
        ensures block { OnOk result (past_of self.new.trace ≡ onto (past_of self.old.trace) (noted l.now.actor (scope_block n l.now.actor l.now.body (scopes_at l.now.actor self.old.contexts)))) }
        ensures calls { IfOk result (λ g. calls_given g (rolled_at l.now.actor self.new.contexts) ≡ scope_calls l.now.body (scopes_at l.now.actor self.old.contexts)) }
        ensures scopes { OnOk result ((before : List Line) → AreOpen self.old.contexts before → AreOpen self.new.contexts (l.now ∷ before)) }
        ensures memory { OnErr result (self.new ≡ self.old) }
    {
        let context = &mut self.contexts[l.actor.index()];
        let room = context.scopes().len() + 1;
        self.entries.clear();
        self.entries.reserve(room)?;
        self.trace.reserve(room + 1)?;
        let Some(acted) = act(context, l.body, &mut self.entries) else {
            return Ok(Gives::Nothing);
        };
        let place = Place::Context(l.actor);
        self.trace
            .push_reserved((place, Entry::Called(n, l.actor, acted.answer)));
        append(&mut self.trace, place, &self.entries);
        Ok(acted.gives)
    }

    /// Does, as line n, a rollback of each transaction that the last nested close at this actor's context is to roll back, in order.
    fn roll_back<D: Disk, O: Objects>(
        &mut self,
        log: &Log<D>,
        objects: &mut O,
        n: u32,
        actor: ActorNo,
    ) -> Result<(), WorldError>
        requires holds { Holds D.honest D.image log.now self.old }
        requires below { AreBelow n self.old.worlds }
        requires given { (t : TxNo) (c : Call) (i : ℕ) → slice_get (rollbacks (rolled_at actor self.old.contexts)) i ≡ Some (t, c) → IsCallOf self.old.script t.value n actor c }
        requires once { AreOnce (rolled_at actor self.old.contexts) }
        requires made { O.is_for self.old.script self.old.objects objects.old }
        ensures contexts { self.new.contexts ≡ self.old.contexts }
        ensures runs { OnOk result (RunsOn D.faults D.honest D.image D.obeys D.seen log.now log.now self.old self.new) }
        ensures heard { OnOk result (HearsOn O.is_for O.reached self.old self.new objects.old objects.new) }
        ensures entered { OnOk result (AreBelow (n + 1) self.new.worlds) }
        ensures done { OnOk result (past_of self.new.trace ≡ after_calls self.old.script n actor (rollbacks (rolled_at actor self.old.contexts)) (past_of self.old.trace)) }
    {
        let place = actor.index();
        for i in 0..self.contexts[place].rolled().len() {
            let t = self.contexts[place].rolled()[i];
            self.call(log, objects, n, actor, t, &Call::Rollback(t), 0)?;
        }
        Ok(())
    }

    /// Does what line n does as a scope line: what it writes at its actor's context, and then the calls that it gives transactions.
    fn scope<D: Disk, O: Objects>(
        &mut self,
        log: &Log<D>,
        objects: &mut O,
        n: u32,
        l: &Line,
    ) -> Result<(), WorldError>
        requires holds { Holds D.honest D.image log.now self.old }
        requires below { AreBelow n self.old.worlds }
        requires stands { kth self.old.script n ≡ Some l.now }
        requires open { AreOpen self.old.contexts (lines_before self.old.script n) }
        requires unopened { IsUnopened l.now.body (scopes_at l.now.actor self.old.contexts) }
        requires no_call { call_of self.old.script l.now.body ≡ None }
        requires made { O.is_for self.old.script self.old.objects objects.old }
        ensures runs { OnOk result (RunsOn D.faults D.honest D.image D.obeys D.seen log.now log.now self.old self.new) }
        ensures heard { OnOk result (HearsOn O.is_for O.reached self.old self.new objects.old objects.new) }
        ensures entered { OnOk result (AreBelow (n + 1) self.new.worlds) }
        ensures done { OnOk result (past_of self.new.trace ≡ after_scope self.old.script n l.now (scopes_at l.now.actor self.old.contexts) (past_of self.old.trace)) }
        ensures scopes { OnOk result ((before : List Line) → AreOpen self.old.contexts before → AreOpen self.new.contexts (l.now ∷ before)) }
    {
        match self.at_context(n, l)? {
            Gives::Nothing => Ok(()),
            Gives::Call(t, c) => self.call(log, objects, n, l.actor, t, &c, 0),
            Gives::Rollbacks => self.roll_back(log, objects, n, l.actor),
        }
    }

    /// Does the call that line n gives transaction t by its own words, after the steps of a `do` or an `await`.
    fn own_call<D: Disk, O: Objects>(
        &mut self,
        log: &mut Log<D>,
        objects: &mut O,
        n: u32,
        actor: ActorNo,
        t: TxNo,
        c: &Call,
    ) -> Result<(), WorldError>
        requires holds { Holds D.honest D.image log.old self.old }
        requires below { AreBelow n self.old.worlds }
        requires given { IsCallOf self.old.script t.value n actor c.now }
        requires made { O.is_for self.old.script self.old.objects objects.old }
        ensures contexts { self.new.contexts ≡ self.old.contexts }
        ensures log { LogGoes D.faults D.honest D.image log.old log.new }
        ensures stays { LogStays D.faults log.old log.new }
        ensures runs { OnOk result (RunsOn D.faults D.honest D.image D.obeys D.seen log.old log.new self.old self.new) }
        ensures heard { OnOk result (HearsOn O.is_for O.reached self.old self.new objects.old objects.new) }
        ensures entered { OnOk result (AreBelow (n + 1) self.new.worlds) }
        ensures done { OnOk result (CallRan self.old.script actor n (Some (t, c.now)) (past_of self.old.trace) (past_of self.new.trace)) }
    {
        match *c {
            Call::Do(_, k, times) => {
                let done = self.steps(log, objects, t, k, times)?;
                self.call(log, objects, n, actor, t, c, done)
            }
            Call::Await(_) => {
                self.settle(log, objects, t)?;
                self.call(log, objects, n, actor, t, c, 0)
            }
            _ => self.call(log, objects, n, actor, t, c, 0),
        }
    }

    /// Arms a stop at the log, as line n: at its k-th device call from here on, with this wish for the crash.
    fn arm<D: Disk>(
        &mut self,
        log: &mut Log<D>,
        n: u32,
        actor: ActorNo,
        k: u8,
        image: Image,
    ) -> Result<(), AllocError>
        requires first { 1 ≤ k }
        requires holds { Holds D.honest D.image log.old self.old }
        ensures worlds { self.new.worlds ≡ self.old.worlds }
        ensures contexts { self.new.contexts ≡ self.old.contexts }
        ensures log { LogGoes D.faults D.honest D.image log.old log.new }
        ensures life { log.new.life ≡ log.old.life }
        ensures runs { OnOk result (RunsOn D.faults D.honest D.image D.obeys D.seen log.old log.new self.old self.new) }
        ensures done { OnOk result (past_of self.new.trace ≡ at_the_log (LogWord (Armed k image)) (at_the_log (Called n actor Fine) (past_of self.old.trace))) }
    {
        self.trace.reserve(2)?;
        self.trace
            .push_reserved((Place::Log, Entry::Called(n, actor, Answer::Fine)));
        self.trace
            .push_reserved((Place::Log, Entry::LogWord(LogNote::Armed(k, image))));
        log.arm(k, image);
        Ok(())
    }

    /// Opens the log again, as line n; a log that runs is stopped first. The call's entry has the answer: ok where it was opened, else the fault.
    fn restart<D: Disk>(
        &mut self,
        log: &mut Log<D>,
        n: u32,
        actor: ActorNo,
    ) -> Result<(), WorldError>
        requires holds { Holds D.honest D.image log.old self.old }
        requires life { log.old.life < 2 ^ 64 - 1 }
        ensures contexts { self.new.contexts ≡ self.old.contexts }
        ensures log { LogGoes D.faults D.honest D.image log.old log.new }
        ensures life { log.new.life ≤ log.old.life + 1 }
        ensures runs { OnOk result (RunsOn D.faults D.honest D.image D.obeys D.seen log.old log.new self.old self.new) }
        ensures calls { HaveSameCalls self.old.worlds self.new.worlds }
        ensures done { OnOk result ((x : Reopening) × (past_of self.new.trace ≡ after_restart n actor x (past_of self.old.trace))) }
    {
        self.trace.reserve(3)?;
        let was_up = log.is_up();
        let life = log.life();
        let found = reopened(log);
        self.trace.push_reserved((Place::Log, Entry::Called(n, actor, restart_answer(&found))));
        if was_up {
            self.trace.push_reserved((Place::Log, Entry::Stopped));
            self.stop_all(life)?;
        }
        // A proof sees here that each image has the records of a log that is up.
        let _ = log.is_up();
        let Ok(records) = found else {
            return Ok(());
        };
        self.trace.reserve(1)?;
        self.trace
            .push_reserved((Place::Log, Entry::LogWord(LogNote::Opened(records))));
        self.restart_all(log)
    }

    /// Does what line n does: what it does at the log, its own call, or what it does as a scope line.
    fn line<D: Disk, O: Objects>(
        &mut self,
        log: &mut Log<D>,
        objects: &mut O,
        n: u32,
        l: &Line,
    ) -> Result<(), WorldError>
        requires holds { Holds D.honest D.image log.old self.old }
        requires below { AreBelow n self.old.worlds }
        requires stands { kth self.old.script n ≡ Some l.now }
        requires open { AreOpen self.old.contexts (lines_before self.old.script n) }
        requires unopened { IsUnopened l.now.body (scopes_at l.now.actor self.old.contexts) }
        requires range { is_in_range l.now.body ≡ true }
        requires life { log.old.life < 2 ^ 64 - 1 }
        requires made { O.is_for self.old.script self.old.objects objects.old }
        ensures log { LogGoes D.faults D.honest D.image log.old log.new }
        ensures stays { is_log_line l.now.body ≡ false → LogStays D.faults log.old log.new }
        ensures life { log.new.life ≤ log.old.life + 1 }
        ensures runs { OnOk result (RunsOn D.faults D.honest D.image D.obeys D.seen log.old log.new self.old self.new) }
        ensures heard { OnOk result (HearsOn O.is_for O.reached self.old self.new objects.old objects.new) }
        ensures entered { OnOk result (AreBelow (n + 1) self.new.worlds) }
        ensures done { OnOk result ((before : List Line) → length before + 1 ≡ n → before ≡ lines_before self.old.script n → AreOpen self.old.contexts before → LineRan self.old.script before l.now (past_of self.old.trace) (past_of self.new.trace)) }
        ensures scopes { OnOk result ((before : List Line) → AreOpen self.old.contexts before → AreOpen self.new.contexts (l.now ∷ before)) }
    {
        match l.body {
            Body::Stop(k, image) => Ok(self.arm(log, n, l.actor, k, image)?),
            Body::Restart => self.restart(log, n, l.actor),
            _ => match call_of(&self.plans, l.body) {
                Some((t, c)) => self.own_call(log, objects, n, l.actor, t, &c),
                None => self.scope(log, objects, n, l),
            },
        }
    }

    /// Runs the lines in order.
    fn lines<D: Disk, O: Objects>(
        &mut self,
        log: &mut Log<D>,
        objects: &mut O,
    ) -> Result<(), WorldError>
        requires holds { Holds D.honest D.image log.old self.old }
        requires below { AreBelow 1 self.old.worlds }
        requires start { self.old.trace ≡ [] }
        requires contexts { AreOpen self.old.contexts [] }
        requires script { IsScript self.old.script }
        requires life { log.old.life ≤ 2 ^ 62 }
        requires made { O.is_for self.old.script self.old.objects objects.old }
        ensures log { LogGoes D.faults D.honest D.image log.old log.new }
        ensures stays { has_log_line self.old.script ≡ false → LogStays D.faults log.old log.new }
        ensures runs { OnOk result (RunsOn D.faults D.honest D.image D.obeys D.seen log.old log.new self.old self.new) }
        ensures heard { OnOk result (HearsOn O.is_for O.reached self.old self.new objects.old objects.new) }
        ensures ran { OnOk result (LinesRan self.old.script (past_of self.old.script) (past_of self.new.trace)) }
    {
        let lines = self.plans.lines();
        let mut n = 0;
        for l in lines {
            n += 1;
            self.line(log, objects, n, l)?;
        }
        Ok(())
    }

    /// The trace so far.
    fn into_trace(self) -> Trace
        ensures trace { result ≡ self.entry.trace }
        ensures numbered { (t : TxNo) → (state_of t self.entry.worlds).transaction ≡ first_id t }
    {
        Trace::new(self.trace)
    }
}

/// The trace of what the lines do in order, and of the rounds after them.
pub fn trace_of<D: Disk, O: Objects>(
    alloc: Global,
    lines: &[Line],
    log: &mut Log<D>,
    whose: Whose,
    objects: &mut O,
) -> Result<Trace, WorldError>
    requires script { IsScript lines.now }
    requires up { IsTrue log.old.is_up }
    requires unarmed { log.old.armed ≡ None }
    requires life { log.old.life ≤ 2 ^ 62 }
    requires none { IsTrue D.honest → HasNone (open_records log.old.slots) }
    requires made { O.is_for lines.now (named whose) objects.old }
    ensures log { LogGoes D.faults D.honest D.image log.old log.new }
    ensures stays { has_log_line lines.now ≡ false → LogStays D.faults log.old log.new }
    ensures replayed { IfOk result (λ T. IsReplayed lines.now (past_of T)) }
    ensures settled { IfOk result (λ T. (t : TxNo) → Settled lines.now (history t.value (past_of T))) }
    ensures planned { IfOk result (λ T. (t : TxNo) → IsToPlan lines.now (named whose) (history t.value (past_of T))) }
    ensures heard { IfOk result (λ T. (from : _) → O.reached lines.now from [] objects.old → O.reached lines.now from (heard lines.now (named whose) (past_of T)) objects.new) }
    ensures counted { IfOk result (λ T. IsCounted (D.faults log.old.disk) (D.faults log.new.disk) log.new.armed (past_of T)) }
    ensures opens { IsTrue D.honest → open_records log.old.slots ≡ [] → IfOk result (λ T. open_right [] (past_of T) ≡ true) }
    ensures unlike { IsTrue D.honest → IfOk result (λ T. has is_no_log_answer (at_log (past_of T)) ≡ false) }
    ensures unfilled { IsTrue D.honest → open_records log.old.slots ≡ [] → IfOk result (λ T. IsNeverFull T) }
    ensures tied { IsTrue D.honest → IfOk result (λ T. AreTied T) }
    ensures up { IfOk result (λ T. log.new.is_up ≡ is_log_up (past_of T)) }
    ensures ends { IsTrue D.honest → IfOk result (λ T. EndsAs D.image (open_records log.old.slots) log.new (past_of T)) }
    ensures found { IsTrue D.obeys → MetNoFault D.faults log.old.disk log.new.disk → IfOk result (λ T. finds_as_wished (past_of T) ≡ true) }
{
    // A proof sees here, and at the end, that each image has the records of a log that is up.
    let _ = log.is_up();
    let mut run = Run::new(alloc, lines, whose)?;
    run.lines(log, objects)?;
    run.settle_all(log, objects)?;
    let _ = log.is_up();
    Ok(run.into_trace())
}
