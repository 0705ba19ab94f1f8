//! The pending steps, and doing the k-th.
ghost use Rattle.std.specs.Prelude.{◌≡◌, Ok, Some, None, IfOk, IfSome, OnOk, OnErr, IsTrue, true, false, length};
ghost use Rattle.dtx_model.specs.Words.{kth};
ghost use Rattle.dtx_model.specs.Steps.{pending};
ghost use Rattle.dtx_model.specs.World.{core};
ghost use Rattle.coordinator_log.specs.Slots.{open_records};
ghost use Rattle.tx_world.specs.AtLog.{Fits, id_of};
ghost use Rattle.tx_world.specs.OwnCalls.{DoesAlone};
ghost use Rattle.world_parts.specs.Pending.{IsAt, IsDueAt, IsDueIn, is_alone_step, name_of, step_of};
ghost use Rattle.tx_world.specs.Stepping.{DoesKth, needs_log, reply_in};
ghost use Rattle.tx_world.specs.Leaves.{Leaves};
ghost use Rattle.world_parts.specs.Found.{IsLeftAsWished};
ghost use Rattle.tx_world.specs.Prepared.{NamesPrepared};

use super::TxWorld;
use crate::refusal::WorldError;
use coordinator_log::Log;
use dtx_values::{EnlNo, Note, Outbox};
use outside::Disk;
use world_parts::{At, PendingStep, act_at, core_at, deliveries_at, replies_at};

/// More steps than are ever pending: 48 replies, both acts, and two deliveries on each of 34 connections.
const FEW: usize = 118;

impl TxWorld {
    /// What is at a place of the pending steps, from 0.
    fn at_place(&self, k: usize) -> At
        ensures at { IsAt (pending self.now.world) k result }
        ensures due { IsDueAt self.now.world result }
    {
        let more = match replies_at(&self.half, &self.calls, k) {
            At::Beyond(n) => n,
            At::Step(s) => return At::Step(s),
        };
        let more = match act_at(&self.half, more) {
            At::Beyond(n) => n,
            At::Step(s) => return At::Step(s),
        };
        let more = match core_at(&self.core, more) {
            At::Beyond(n) => n,
            At::Step(s) => return At::Step(s),
        };
        deliveries_at(&self.history, self.half.ends(), more)
    }

    /// The k-th pending step, from 1.
    pub(super) fn at(&self, k: u32) -> Option<PendingStep>
        ensures some { IfSome result (λ s. (kth (pending self.now.world) k ≡ Some (name_of s)) × IsDueIn self.now.world s) }
        ensures none { result ≡ None → kth (pending self.now.world) k ≡ None }
    {
        if k == 0 {
            return None;
        }
        match self.at_place(k as usize - 1) {
            At::Step(s) => Some(s),
            At::Beyond(_) => None,
        }
    }

    /// How many steps are pending.
    pub fn pending(&self) -> u32
        ensures { result ≡ length (pending self.now.world) }
    {
        self.half.is_few();
        match self.at_place(FEW) {
            At::Beyond(n) => (FEW - n) as u32,
            At::Step(_) => unreachable!(),
        }
    }

    /// The enlistment and the note of the k-th pending step, from 1, where that step is a reply.
    pub fn due_at(&self, k: u32) -> Option<(EnlNo, Note)>
        ensures { result ≡ reply_in self.now.world (kth (pending self.now.world) k) }
    {
        match self.at(k) {
            Some(PendingStep::Reply(e, note, _)) => Some((e, note)),
            _ => None,
        }
    }

    /// Whether the k-th pending step, from 1, needs the log: it is the coordinator's act, or a reply to promote.
    pub fn needs_log(&self, k: u32) -> bool
        ensures { result ≡ needs_log self.now.world k }
    {
        matches!(
            self.at(k),
            Some(PendingStep::Coordinate | PendingStep::Reply(_, Note::Promote, _))
        )
    }

    /// Does a pending step that is the local act or a delivery.
    pub(super) fn do_alone(&mut self, out: &mut Outbox, s: PendingStep) -> Result<bool, WorldError>
        requires due { IsDueIn self.old.world s }
        requires alone { is_alone_step s ≡ true }
        ensures did { IfOk result (λ b. b ≡ true) }
        ensures done { OnOk result (DoesAlone (step_of s) self.old self.new) }
        ensures ours { (self.new.ours ≡ self.old.ours) × (self.new.unsure ≡ self.old.unsure) }
        ensures named { NamesPrepared self.old → NamesPrepared self.new }
        ensures memory { OnErr result (self.new ≡ self.old) }
    {
        match s {
            PendingStep::Act => self.act(out),
            PendingStep::Deliver(c, d) => self.deliver(out, c, d),
            PendingStep::Reply(_, _, _) | PendingStep::Coordinate => unreachable!(),
        }
    }

    /// Does the k-th pending step, from 1, as [`TxWorld::step`] does.
    #[tactic(auto, using(crate::proofs::Alone::kth_beside))]
    pub(super) fn step_kth<D: Disk>(
        &mut self,
        log: &mut Log<D>,
        out: &mut Outbox,
        k: u32,
    ) -> Result<bool, WorldError>
        requires fits { IsTrue D.honest → IsTrue log.old.is_up → Fits self.old (open_records log.old.slots) }
        ensures none { result ≡ Ok false → (kth (pending self.old.world) k ≡ None) × (self.new ≡ self.old) × (log.new ≡ log.old) }
        ensures some { result ≡ Ok true → DoesKth D.faults k self.old log.old self.new log.new }
        ensures leaves { Leaves D.honest D.image D.faults self.old log.old self.new log.new }
        ensures found { IsTrue D.obeys → IsLeftAsWished D.faults D.seen (core self.old.world) (id_of self.old) log.old log.new }
        ensures memory { OnErr result ((self.new ≡ self.old) × (log.new ≡ log.old)) }
    {
        if k == 1 && self.act_first(out)? {
            return Ok(true);
        }
        match self.at(k) {
            Some(PendingStep::Coordinate) => self.act_at_log(log, out),
            Some(PendingStep::Reply(e, _, r)) => self.reply(log, out, e, r),
            Some(s) => self.do_alone(out, s),
            None => Ok(false),
        }
    }
}
