//! The whole of one transaction.
ghost use Rattle.std.specs.Prelude.{ℕ, ◌≡◌, ◌≤◌, ◌<◌, ◌+◌, ◌∷◌, ◌↔◌, ◌⊎◌, [], List, Option, Some, None, Ok, Err, IfOk, OnOk, OnErr, IfErr, IsOk, IsErrOf, IsTrue, true, false, length, is_some, if◌then◌else◌};
ghost use Rattle.dtx_values.specs.declared.call.Call.{Call};
ghost use Rattle.dtx_values.specs.TxIds.{number_of};
ghost use Rattle.dtx_values.specs.declared.entry.Answer.{Answer};
ghost use Rattle.dtx_values.specs.declared.record.Differs.{Differs};
ghost use Rattle.dtx_model.specs.Tied.{tied};
ghost use Rattle.dtx_model.specs.Words.{kth, past_of};
ghost use Rattle.dtx_model.specs.Log.{first_of, record_of};
ghost use Rattle.std.specs.Option.{option_map};
ghost use Rattle.dtx_values.specs.declared.record.LogRecord.{LogRecord};
ghost use Rattle.dtx_model.specs.Replies.{due_of};
ghost use Rattle.dtx_model.specs.World.{answer_at, half, core};
ghost use Rattle.dtx_model.specs.Steps.{Step, Calls, Replies, Stops, Restarts, after, pending};
ghost use Rattle.dtx_model.specs.Caused.{HasDone, IsOwnRun, MayAnswer, AreMadeOnce, IsIn};
ghost use Rattle.coordinator_log.specs.Slots.{open_records};
ghost use Rattle.local_half.specs.Half.{fits_due};
ghost use Rattle.local_half.specs.Rights.{right_of};
ghost use Rattle.tx_world.specs.State.{TxState, is_hit_by, is_reached_by, may_enter};
ghost use Rattle.tx_world.specs.AtLog.{Fits, IsOurs, KeepsLog, Tie, id_of};
ghost use Rattle.tx_world.specs.Stepping.{Does, DoesKth, Settles, needs_log, reply_in};
ghost use Rattle.tx_world.specs.Tried.{IsTried};
ghost use Rattle.tx_world.specs.Prepared.{NamesPrepared};

use crate::refusal::WorldError;
use coordinator_core::Core;
use coordinator_log::Log;
use dtx_model::EnteredCall;
use dtx_values::{ActorNo, Answer, Call, EnlNo, Note, Outcome, Reply, TxId};
use entry_lists::Entries;
use local_half::{LocalHalf, Right};
use outside::Disk;
use std::alloc::Global;
use std::marker::Model;
use world_parts::{AtLog, History};

mod alone;
mod at_the_log;
mod calls;
mod deliveries;
mod entering;
mod leaving;
mod own_calls;
mod returning;
mod settling;
mod steps;
mod stops;
mod turns;

/// The whole of one transaction.
///
/// # Driving one
///
/// A call writes its entry and its facts. What follows of it are the pending steps: the replies that are due, by number, and after them the local act, the
/// coordinator's act at the log, and what is under way on the connections. Each step leaves fewer.
///
/// ```text
/// if world.may_enter(line, &call) {
///     let answer = world.call(&mut log, &mut out, actor, line, &call)?;
///     loop {
///         let went = match world.due_at(1) {
///             Some((e, note)) => {
///                 let reply = reply_to(e, note);
///                 world.fits(e, reply) && world.reply(&log, &mut out, e, reply)?
///             }
///             None => world.step(&mut log, &mut out, 1)?,
///         };
///         if !went {
///             break;
///         }
///     }
/// }
/// ```
///
/// A reply that is put off is passed over: the step after it is `step(k)` with the first k of which [`TxWorld::due_at`] gives nothing. An enlistment whose call plans no
/// reply is never pending, so a caller that replies itself gives each call a plan, and never uses it. Over an honest disk the log must fit each transaction that uses it (`Fits`): a new one
/// fits a log with no record of its number, and each call here keeps that, for itself and for every transaction of another number.
#[derive(Drop)]
pub struct TxWorld {
    transaction: TxId,
    half: LocalHalf,
    core: Core,
    history: History,
    /// The calls that were entered, oldest first.
    calls: Vec<EnteredCall>,
    at_log: AtLog,
}

impl Model for TxWorld {
    ghost use Rattle.dtx_model.specs.Words.{past_of};
    ghost use Rattle.tx_world.specs.Kept.{Whole};
    ghost use Rattle.tx_world.specs.State.{TxState};

    ghost Value = { TxState };

    ghost view = { λ w. record {
      transaction = w.transaction;
      world = record { calls = past_of w.calls.items; past = w.history.past };
      ours = w.at_log.ours;
      unsure = w.at_log.unsure;
      life = w.at_log.life;
    } };

    ghost invariant = { λ w. Whole w.transaction (record { calls = past_of w.calls.items; past = w.history.past }) w.half w.core w.at_log };
}

impl TxWorld {
    /// The world of this transaction, which has no call yet.
    ///
    /// # Errors
    ///
    /// [`WorldError::Memory`] where memory ran out.
    pub fn new(alloc: Global, t: TxId) -> Result<TxWorld, WorldError>
        ensures blank { IfOk result (λ w. w ≡ record { transaction = t; world = record { calls = []; past = [] }; ours = None; unsure = false; life = 0 }) }
        ensures fits { IfOk result (λ w. Fits w []) }
        ensures named { IfOk result NamesPrepared }
    {
        Ok(TxWorld {
            transaction: t,
            half: LocalHalf::new(alloc, t)?,
            core: Core::new(t),
            history: History::new(alloc)?,
            calls: Vec::new(alloc),
            at_log: AtLog::new(),
        })
    }

    /// What holds of each world: its history is one that its own calls, and the steps after them, made; no two of its calls make the same enlistment or the
    /// same clone; while its coordinator isn't stopped, it keeps a record exactly where one was logged and not freed; and what it keeps of the log is what its
    /// history says, where each restart of that found what may be found. It does nothing when it runs; a caller's proof asks for it.
    pub fn is_own_run(&self)
        ensures run { IsOwnRun (number_of self.now.transaction) self.now.world }
        ensures once { AreMadeOnce (IsIn self.now.world.calls) }
        ensures ours { IsOurs (id_of self.now) (core self.now.world) (record { ours = self.now.ours; unsure = self.now.unsure; life = self.now.life }) }
        ensures tried { tied self.now.world.past ≡ true → IsTried self.now.world.past (record { ours = self.now.ours; unsure = self.now.unsure; life = self.now.life }) }
    {
        let _ = &self.calls;
    }

    /// The history, oldest entry first.
    pub fn history(&self) -> &Entries
        ensures { past_of result.now.items ≡ self.now.world.past }
    {
        self.history.entries()
    }

    /// The identifier of the transaction at the coordinator once it is promoted, and 0 before.
    pub fn id(&self) -> u128
        ensures { result ≡ (if (half self.now.world).seen.promoted then id_of self.now else 0) }
    {
        if self.half.is_promoted() {
            self.transaction.identifier()
        } else {
            0
        }
    }

    /// Whether the reply fits the note to which one of the enlistment is due, as [`TxWorld::reply`] asks. Where none is due, each fits.
    pub fn fits(&self, e: EnlNo, r: Reply) -> bool
        ensures { result ≡ fits_due r (due_of (half self.now.world).seen e.value) }
    {
        self.half.fits(e, r)
    }

    /// Whether it keeps a record of its commit: one was appended, or may have been when the log was stopped, and it wasn't freed since.
    pub fn has_record(&self) -> bool
        ensures { result ≡ is_some self.now.ours }
    {
        self.at_log.has_record()
    }

    /// What the client was told.
    pub fn told(&self) -> Option<Outcome>
        ensures { result ≡ (half self.now.world).seen.told_client }
    {
        self.half.told_client()
    }

    /// Whether the coordinator stands stopped.
    pub fn is_stopped(&self) -> bool
        ensures { result ≡ (core self.now.world).stopped }
    {
        self.core.is_stopped()
    }

    /// The life of the log that the coordinator lives in; 0 before BEGIN is sent.
    pub fn life(&self) -> u64
        ensures { result ≡ self.now.life }
    {
        self.at_log.life()
    }

    /// Where the right to decide the outcome stands.
    pub fn right(&self) -> Right
        ensures { result ≡ right_of self.now.world.past }
    {
        self.half.right()
    }
}
