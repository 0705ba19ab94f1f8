//! The store.
ghost use Rattle.std.specs.Prelude.{◌≡◌, ◌≢◌, ◌⊎◌, ◌≤◌, ◌<◌, ℕ, [], length, map, min, set, remove, take, slice_index_or, true, false, IfErr, IfOk, IsSome, IsTrue, IsFalse, Err, Ok, Some, None, OnErr, OnOk, if◌then◌else◌};
ghost use Rattle.outside.specs.Disk.{AreWithin};
ghost use Rattle.outside.specs.Faults.{Rose};
ghost use Rattle.dtx_values.specs.TxIds.{number_of};
ghost use Rattle.dtx_values.specs.declared.note.Note.{Note};
ghost use Rattle.dtx_values.specs.declared.note.Note.TheVariants.{Prepare, Hand, Commit, Rollback};
ghost use Rattle.dtx_values.specs.declared.note.Reply.TheVariants.{Vote as VoteReply, Owner, Ack};
ghost use Rattle.kv_resource.specs.Bytes.{KvRecord, kv_has, kv_slots, with_mark};
ghost use Rattle.kv_resource.specs.Images.{AllHold, Gives, IsStored, TurnsSlot};
ghost use Rattle.kv_resource.specs.Notes.{record_with};
ghost use Rattle.kv_resource.specs.Refusals.{why_of};
ghost use Rattle.kv_resource.specs.Store.{KvDraft, KvMemory, KvState, after_put, get_in, in_doubt, is_unmarked, next_slot, on_open, open_records, put_refusal, table_of, with_drafts, without_draft};

use crate::device::{close, mark, store};
use crate::doubts::InDoubt;
use crate::draft::Draft;
use crate::drafts::{busy_draft, draft_at};
use crate::holdings::held_at;
use crate::layout::{KEYS, KV_BYTES};
use crate::opening::{close_all, read_all, row_room, slot_room, store_head};
use crate::record::Record;
use crate::refusal::KvRefusal;
use crate::rows::{fill, value_in};
use crate::slots::{
    busy_slot, is_marked, mark_slot, next_slot, open_slots, put_marked, slot_of, unmarked_slot_of,
};
use dtx_values::{EnlNo, Note, Outcome, Reply, Resource, TxId, TxNo, Vote};
use outside::{Disk, Failed};
use resource_managers::{Enlistment, Held, Recoverable, ResourceManager};
use slotted::{SLOTS, blank, zeros};
use std::alloc::Global;
use std::marker::Model;

/// A store of keys over a disk of at least [`KV_BYTES`](crate::KV_BYTES) bytes.
///
/// A clause sees it as a `KvState`: its disk; the records of its slots; its drafts, which are writes that aren't on the disk yet; whether it is stopped; and the lowest slot that
/// isn't an earlier process's.
///
/// What was put for an enlistment is a draft until its Prepare, or its Hand, writes it. Until a call of its disk fails, the slots in memory are those on the disk, and each image
/// that a crash can leave has the same records. Then the store is stopped for good: it calls its disk no more, and takes no put. After its making no call but a put takes memory.
///
/// Its table is in memory too, the keys rising, so that a key is found by halving. Room for each row that its slots may ever have is taken at its making.
#[derive(Drop)]
pub struct Kv<D: Disk> {
    disk: D,
    slots: Vec<Option<Record>>,
    drafts: Vec<Draft>,
    table: Vec<(u32, u64)>,
    stopped: bool,
    earlier: usize,
}

impl<D: Disk> Model for Kv<D> {
    ghost use Rattle.kv_resource.specs.Images.{IsKept};
    ghost use Rattle.std.specs.Prelude.{vec_capacity};
    ghost use Rattle.kv_resource.specs.Store.{KvMemory, KvState};
    ghost use Rattle.kv_resource.specs.Table.{IsTabled};

    ghost Value = { KvState D };

    ghost view = { λ k. record { disk = k.disk; memory = record { slots = k.slots.items; drafts = k.drafts.items; stopped = k.stopped }; earlier = k.earlier } };

    ghost invariant = { λ k. IsKept D.honest (D.seen k.disk) (D.image k.disk) (D.size k.disk) (record { slots = k.slots.items; drafts = k.drafts.items; stopped = k.stopped }) × IsTabled k.table.items (vec_capacity k.table) k.slots.items };
}

impl<D: Disk> Kv<D> {
    /// Makes the disk an empty store: after Ok each image that a crash can leave is one.
    ///
    /// # Errors
    ///
    /// The disk is handed back with [`KvRefusal::Fault`], only where its count of faults rose, or with [`KvRefusal::Memory`], and then it wasn't touched.
    pub fn format(alloc: Global, disk: D) -> Result<Kv<D>, (KvRefusal, D)>
        requires { KV_BYTES ≤ D.size disk }
        ensures empty { IfOk result (λ s. open_records s.memory.slots ≡ []) }
        ensures no_drafts { IfOk result (λ s. s.memory.drafts ≡ []) }
        ensures up { IfOk result (λ s. IsFalse s.memory.stopped) }
        ensures earlier { IfOk result (λ s. s.earlier ≡ 0) }
        ensures images { IsTrue D.honest → IfOk result (λ s. AllHold (D.image s.disk) []) }
        ensures smooth { IfOk result (λ s. D.faults s.disk ≡ D.faults disk) }
        ensures only { IfErr result (λ e. (e.0 ≡ KvRefusal.Fault) ⊎ (e.0 ≡ KvRefusal.Memory)) }
        ensures fault { IfErr result (λ e. e.0 ≡ KvRefusal.Fault → Rose (D.faults disk) (D.faults e.1)) }
        ensures memory { IfErr result (λ e. e.0 ≡ KvRefusal.Memory → e.1 ≡ disk) }
        ensures size { IfErr result (λ e. D.size e.1 ≡ D.size disk) }
    {
        let mut disk = disk;
        let mut slots = match slot_room(alloc) {
            Ok(slots) => slots,
            Err(_) => return Err((KvRefusal::Memory, disk)),
        };
        let table = match row_room(alloc) {
            Ok(table) => table,
            Err(_) => return Err((KvRefusal::Memory, disk)),
        };
        let blanks = match zeros(alloc, KV_BYTES as usize) {
            Ok(blanks) => blanks,
            Err(_) => return Err((KvRefusal::Memory, disk)),
        };
        match blank(&mut disk, &store_head(), &blanks) {
            Ok(()) => (),
            Err(_) => return Err((KvRefusal::Fault, disk)),
        }
        close_all(&mut slots);
        Ok(Kv {
            disk,
            slots,
            drafts: Vec::new(alloc),
            table,
            stopped: false,
            earlier: 0,
        })
    }

    /// The store that is on the disk. It syncs before it reads: nothing that was read before is safe.
    ///
    /// # Errors
    ///
    /// The disk is handed back with [`KvRefusal::Fault`], only where its count of faults rose; with [`KvRefusal::NotAStore`] exactly where what was read is no store, and the first
    /// place of another form; or with [`KvRefusal::Memory`], and then it wasn't touched.
    pub fn from_disk(alloc: Global, disk: D) -> Result<Kv<D>, (KvRefusal, D)>
        requires { KV_BYTES ≤ D.size disk }
        ensures records { IsTrue D.honest → IfOk result (λ s. kv_has (D.seen disk) ≡ Ok (open_records s.memory.slots)) }
        ensures no_drafts { IfOk result (λ s. s.memory.drafts ≡ []) }
        ensures up { IfOk result (λ s. IsFalse s.memory.stopped) }
        ensures earlier { IfOk result (λ s. s.earlier ≡ SLOTS) }
        ensures images { IsTrue D.honest → IfOk result (λ s. AllHold (D.image s.disk) (open_records s.memory.slots)) }
        ensures seen { IsTrue D.honest → IfOk result (λ s. D.seen s.disk ≡ D.seen disk) }
        ensures within { IsTrue D.honest → IfOk result (λ s. AreWithin (D.image disk) (D.image s.disk)) }
        ensures smooth { IfOk result (λ s. D.faults s.disk ≡ D.faults disk) }
        ensures only { IfErr result (λ e. (e.0 ≡ KvRefusal.Fault) ⊎ ((e.0 ≡ KvRefusal.Memory) ⊎ ((p : ℕ) × (e.0 ≡ KvRefusal.NotAStore p)))) }
        ensures fault { IfErr result (λ e. e.0 ≡ KvRefusal.Fault → Rose (D.faults disk) (D.faults e.1)) }
        ensures not_a_store { IsTrue D.honest → IfErr result (λ e. (p : ℕ) → e.0 ≡ KvRefusal.NotAStore p → kv_has (D.seen disk) ≡ Err p) }
        ensures memory { IfErr result (λ e. e.0 ≡ KvRefusal.Memory → e.1 ≡ disk) }
        ensures handed_back { IsTrue D.honest → IfErr result (λ e. (D.seen e.1 ≡ D.seen disk) × AreWithin (D.image disk) (D.image e.1)) }
        ensures size { IfErr result (λ e. D.size e.1 ≡ D.size disk) }
    {
        let mut disk = disk;
        let mut slots = match slot_room(alloc) {
            Ok(slots) => slots,
            Err(_) => return Err((KvRefusal::Memory, disk)),
        };
        let mut table = match row_room(alloc) {
            Ok(table) => table,
            Err(_) => return Err((KvRefusal::Memory, disk)),
        };
        match disk.sync() {
            Ok(()) => (),
            Err(_) => return Err((KvRefusal::Fault, disk)),
        }
        match read_all(&mut disk, &mut slots) {
            Ok(()) => {
                fill(&mut table, &slots);
                Ok(Kv {
                    disk,
                    slots,
                    drafts: Vec::new(alloc),
                    table,
                    stopped: false,
                    earlier: SLOTS,
                })
            }
            Err(e) => Err((e, disk)),
        }
    }

    /// Puts a write of an enlistment, in place of an earlier one to the same key. Nobody sees it before the enlistment commits.
    ///
    /// # Errors
    ///
    /// In this order, each exactly where:
    ///
    /// - [`KvRefusal::Stopped`] where the store is stopped;
    /// - [`KvRefusal::Prepared`] where the enlistment has an open slot, marked or not;
    /// - [`KvRefusal::Busy`] where another enlistment that has neither committed nor rolled back wrote the key: the first that is in doubt, or else the first that has a draft;
    /// - [`KvRefusal::TooMany`] where the enlistment wrote [`KEYS`](crate::KEYS) other keys;
    /// - and then [`KvRefusal::Memory`].
    ///
    /// An error changes nothing.
    pub fn put_in(&mut self, t: TxId, e: EnlNo, key: u32, value: u64) -> Result<(), KvRefusal>
        ensures ok { OnOk result (put_refusal self.old.memory (number_of t, e.value) key ≡ None) }
        ensures put { OnOk result (self.new ≡ after_put (number_of t, e.value) key value self.old) }
        ensures refused { IfErr result (λ r. put_refusal self.old.memory (number_of t, e.value) key ≡ why_of r) }
        ensures only { IfErr result (λ r. (r ≡ KvRefusal.Memory) ⊎ IsSome (why_of r)) }
        ensures unchanged { OnErr result (self.new ≡ self.old) }
    {
        if self.stopped {
            return Err(KvRefusal::Stopped);
        }
        if slot_of(&self.slots, t, e).is_some() {
            return Err(KvRefusal::Prepared(t, e));
        }
        if let Some((t, e)) = busy_slot(&self.slots, t, e, key) {
            return Err(KvRefusal::Busy(t, e));
        }
        if let Some((t, e)) = busy_draft(&self.drafts, t, e, key) {
            return Err(KvRefusal::Busy(t, e));
        }
        match draft_at(&self.drafts, t, e) {
            Some(i) => {
                if !self.drafts[i].takes(key) {
                    return Err(KvRefusal::TooMany(KEYS as u8));
                }
                self.drafts[i].put(key, value);
                Ok(())
            }
            None => match self.drafts.push(Draft::new(t, e, key, value)) {
                Ok(()) => Ok(()),
                Err(_) => Err(KvRefusal::Memory),
            },
        }
    }

    /// Puts a write of an enlistment of epoch 0, as [`put_in`](Kv::put_in) does.
    ///
    /// # Errors
    ///
    /// Those of [`put_in`](Kv::put_in).
    pub fn put(&mut self, t: TxNo, e: EnlNo, key: u32, value: u64) -> Result<(), KvRefusal>
        ensures ok { OnOk result (put_refusal self.old.memory (t.value, e.value) key ≡ None) }
        ensures put { OnOk result (self.new ≡ after_put (t.value, e.value) key value self.old) }
        ensures refused { IfErr result (λ r. put_refusal self.old.memory (t.value, e.value) key ≡ why_of r) }
        ensures only { IfErr result (λ r. (r ≡ KvRefusal.Memory) ⊎ IsSome (why_of r)) }
        ensures unchanged { OnErr result (self.new ≡ self.old) }
    {
        self.put_in(TxId::first(t), e, key, value)
    }

    /// What the key has in the table: what the marked records wrote, in order of slots. It is found by halving.
    pub fn get(&self, key: u32) -> Option<u64>
        ensures { result ≡ get_in key (table_of (open_records self.now.memory.slots)) }
    {
        value_in(&self.table, key)
    }

    /// The table: a row for each key, the keys rising, with the value that [`get`](Kv::get) finds.
    pub fn table(&self) -> &[(u32, u64)]
        ensures { result.now ≡ table_of (open_records self.now.memory.slots) }
    {
        &self.table
    }

    /// The enlistments in doubt, in order of slots: they prepared, in this process or an earlier one, and have neither committed nor rolled back.
    pub fn in_doubt(&self) -> InDoubt<'_>
        ensures { result ≡ in_doubt (open_records self.now.memory.slots) }
    {
        InDoubt::of(&self.slots)
    }

    /// Whether a call of its disk failed, which stops it for good. Until then each image that a crash can leave has what the store has in memory. It has 1,024 slots in any case.
    pub fn is_stopped(&self) -> bool
        ensures stopped { result ≡ self.now.memory.stopped }
        ensures many { length self.now.memory.slots ≡ SLOTS }
        ensures images { IsTrue D.honest → IsFalse self.now.memory.stopped → AllHold (D.image self.now.disk) (open_records self.now.memory.slots) }
    {
        self.stopped
    }

    /// Hands the disk back. Until the store is stopped, each image that a crash can leave has its records.
    pub fn into_disk(self) -> D
        ensures disk { result ≡ self.disk }
        ensures images { IsTrue D.honest → IsFalse self.memory.stopped → AllHold (D.image result) (open_records self.memory.slots) }
    {
        let Kv {
            disk,
            slots: _,
            drafts: _,
            table: _,
            stopped: _,
            earlier: _,
        } = self;
        disk
    }

    // Writes draft i as the record of slot k, which is closed.
    fn store(&mut self, i: usize, k: usize) -> Result<(), Failed>
        requires up { IsFalse self.old.memory.stopped }
        requires draft { i < length self.old.memory.drafts }
        requires slot { k < SLOTS }
        requires closed { slice_index_or self.old.memory.slots k None ≡ None }
        ensures { (d : KvDraft) → d ≡ slice_index_or self.old.memory.drafts i d
            → TurnsSlot D.honest D.image D.faults self.old self.new k (Some (record_with false d)) (remove self.old.memory.drafts i) (min self.old.earlier k) result }
    {
        let result = store(&mut self.disk, k, &self.drafts[i]);
        match result {
            Ok(()) => {
                let draft = self.drafts.remove(i);
                self.slots[k] = Some(Record::new(draft, false));
                self.earlier = self.earlier.min(k);
            }
            Err(_) => self.stopped = true,
        }
        result
    }

    // Marks the record of slot k, which isn't marked.
    fn mark(&mut self, k: usize) -> Result<(), Failed>
        requires up { IsFalse self.old.memory.stopped }
        requires slot { k < SLOTS }
        requires unmarked { IsTrue (on_open is_unmarked (slice_index_or self.old.memory.slots k None)) }
        ensures { (r : KvRecord) → slice_index_or self.old.memory.slots k None ≡ Some r
            → TurnsSlot D.honest D.image D.faults self.old self.new k (Some (with_mark true r)) self.old.memory.drafts self.old.earlier result }
    {
        let result = mark(&mut self.disk, k);
        match result {
            Ok(()) => {
                put_marked(&mut self.table, &self.slots, k);
                mark_slot(&mut self.slots, k);
            }
            Err(_) => self.stopped = true,
        }
        result
    }

    // Closes slot k, whose record isn't marked.
    fn close(&mut self, k: usize) -> Result<(), Failed>
        requires up { IsFalse self.old.memory.stopped }
        requires slot { k < SLOTS }
        requires unmarked { IsTrue (on_open is_unmarked (slice_index_or self.old.memory.slots k None)) }
        ensures { TurnsSlot D.honest D.image D.faults self.old self.new k None self.old.memory.drafts self.old.earlier result }
    {
        let result = close(&mut self.disk, k);
        match result {
            Ok(()) => self.slots[k] = None,
            Err(_) => self.stopped = true,
        }
        result
    }

    // The slots that calls of this process didn't write.
    fn earlier_slots(&self) -> &[Option<Record>]
        ensures { result.now ≡ take self.now.earlier self.now.memory.slots }
    {
        let end = self.earlier.min(self.slots.len());
        &self.slots[..end]
    }

    // The slot for one more record, where there is one and the store isn't stopped.
    fn free_slot(&self) -> Option<usize>
        ensures { result ≡ (if self.now.memory.stopped then None else next_slot self.now.memory.slots) }
    {
        if self.stopped {
            return None;
        }
        next_slot(&self.slots)
    }

    // Drops the draft of an enlistment, where it has one.
    fn drop_draft(&mut self, t: TxId, e: EnlNo)
        ensures { self.new ≡ with_drafts (without_draft (number_of t, e.value) self.old.memory.drafts) self.old }
    {
        if let Some(i) = draft_at(&self.drafts, t, e) {
            self.drafts.remove(i);
        }
    }

    // Votes: what was written is made safe.
    fn prepare(&mut self, t: TxId, e: EnlNo) -> Vote
        ensures { Gives D.honest D.image D.faults self.old (number_of t, e.value) Prepare (Some (VoteReply result)) self.new }
    {
        if let Some(k) = slot_of(&self.slots, t, e) {
            if is_marked(&self.slots, k) {
                return Vote::Yes;
            }
            if self.stopped {
                return Vote::No;
            }
            return Vote::Yes;
        }
        let Some(i) = draft_at(&self.drafts, t, e) else {
            return Vote::Done;
        };
        let Some(k) = self.free_slot() else {
            self.drop_draft(t, e);
            return Vote::No;
        };
        match self.store(i, k) {
            Ok(()) => Vote::Yes,
            Err(_) => {
                self.drop_draft(t, e);
                Vote::No
            }
        }
    }

    // Decides: what was written is made safe and marked.
    fn decide(&mut self, t: TxId, e: EnlNo) -> Outcome
        ensures { Gives D.honest D.image D.faults self.old (number_of t, e.value) Hand (Some (Owner result)) self.new }
    {
        if let Some(k) = slot_of(&self.slots, t, e) {
            if is_marked(&self.slots, k) {
                return Outcome::Committed;
            }
            if self.stopped {
                return Outcome::Aborted;
            }
            return match self.mark(k) {
                Ok(()) => Outcome::Committed,
                Err(_) => Outcome::InDoubt,
            };
        }
        let Some(i) = draft_at(&self.drafts, t, e) else {
            return Outcome::Committed;
        };
        let Some(k) = self.free_slot() else {
            self.drop_draft(t, e);
            return Outcome::Aborted;
        };
        match self.store(i, k) {
            Ok(()) => (),
            Err(_) => return Outcome::InDoubt,
        }
        match self.mark(k) {
            Ok(()) => Outcome::Committed,
            Err(_) => Outcome::InDoubt,
        }
    }

    // Marks what was prepared.
    fn commit(&mut self, t: TxId, e: EnlNo) -> Option<Reply>
        ensures { Gives D.honest D.image D.faults self.old (number_of t, e.value) Commit result self.new }
    {
        let Some(k) = unmarked_slot_of(&self.slots, t, e) else {
            return Some(Reply::Ack);
        };
        if self.stopped {
            return None;
        }
        match self.mark(k) {
            Ok(()) => Some(Reply::Ack),
            Err(_) => None,
        }
    }

    // Drops what was written, but for what is marked.
    fn roll_back(&mut self, t: TxId, e: EnlNo)
        ensures { Gives D.honest D.image D.faults self.old (number_of t, e.value) Rollback None self.new }
    {
        self.drop_draft(t, e);
        let Some(k) = unmarked_slot_of(&self.slots, t, e) else {
            return;
        };
        if self.stopped {
            return;
        }
        // A fault here stops the store, and the record stays in doubt.
        let _ = self.close(k);
    }

    // Hears a note.
    fn hear(&mut self, t: TxId, e: EnlNo, n: Note) -> Option<Reply>
        ensures { Gives D.honest D.image D.faults self.old (number_of t, e.value) n result self.new }
    {
        // A field that is read brings in what holds of each store.
        let _stopped = self.stopped;
        match n {
            Note::Prepare => Some(Reply::Vote(self.prepare(t, e))),
            Note::Hand => Some(Reply::Owner(self.decide(t, e))),
            Note::Commit => self.commit(t, e),
            Note::Rollback => {
                self.roll_back(t, e);
                None
            }
            Note::Promote => Some(Reply::Promote(true)),
            Note::Single => Some(Reply::Owner(Outcome::Committed)),
            Note::Init => None,
            Note::InDoubt => None,
        }
    }
}

impl<D: Disk + Drop> Resource for Kv<D> {
    ghost use Rattle.kv_resource.specs.Images.{Gives};

    ghost gives = { λ old t e n a new. Gives D.honest D.image D.faults old (t.value, e.value) n a new };

    fn on(&mut self, t: TxNo, e: EnlNo, n: Note) -> Option<Reply> {
        self.hear(TxId::first(t), e, n)
    }
}

impl<D: Disk + Drop> ResourceManager for Kv<D> {
    ghost use Rattle.resource_managers.specs.Pairs.{pair_of};
    ghost use Rattle.kv_resource.specs.Images.{Gives};

    ghost gives = { λ old e n a new. Gives D.honest D.image D.faults old (pair_of e) n a new };

    fn on(&mut self, e: Enlistment, n: Note) -> Option<Reply> {
        self.hear(e.transaction(), e.number(), n)
    }
}

impl<D: Disk + Drop> Recoverable for Kv<D> {
    ghost use Rattle.std.specs.Prelude.{◌⊎◌, IsTrue};
    ghost use Rattle.outside.specs.Faults.{Rose};
    ghost use Rattle.kv_resource.specs.Held.{MayLeave, holdings_of};

    ghost holds = { λ s. holdings_of s };

    ghost leaves = { λ s hs. MayLeave D.honest D.image s hs };

    ghost fails = { λ old new. IsTrue old.memory.stopped ⊎ Rose (D.faults old.disk) (D.faults new.disk) };

    fn count(&self) -> usize {
        open_slots(&self.slots)
    }

    fn held(&self, place: usize) -> Option<Held> {
        held_at(&self.slots, self.earlier, place)
    }

    fn in_doubt(&self) -> Option<Enlistment> {
        let (t, e) = InDoubt::of(self.earlier_slots()).next()?;
        Some(Enlistment::new(t, e))
    }

    fn finish(&mut self, e: Enlistment, commit: bool) -> Result<(), Failed> {
        let Some(k) = unmarked_slot_of(self.earlier_slots(), e.transaction(), e.number()) else {
            return Ok(());
        };
        if self.stopped {
            return Err(Failed);
        }
        if commit { self.mark(k) } else { self.close(k) }
    }
}
