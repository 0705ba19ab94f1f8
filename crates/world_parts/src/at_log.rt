//! What a coordinator keeps of the log, and its act there.
ghost use Rattle.std.specs.Prelude.{ℕ, ◌≡◌, ◌⊎◌, ◌↔◌, ◌||◌, ◌∷◌, [], Option, Some, None, IsOk, IfErr, IsTrue, true, false, is_some};
ghost use Rattle.std.specs.Option.{option_map};
ghost use Rattle.dtx_values.specs.Outgoing.{written};
ghost use Rattle.dtx_values.specs.TxIds.{number_of};
ghost use Rattle.dtx_values.specs.declared.entry.Entry.TheVariants.{Freed, Restarted, Stopped};
ghost use Rattle.dtx_values.specs.declared.record.Differs.{Differs};
ghost use Rattle.dtx_values.specs.declared.record.LogRecord.{LogRecord};
ghost use Rattle.dtx_model.specs.Coordinated.{follow, may_free, may_log};
ghost use Rattle.dtx_model.specs.Log.{first_of, record_of};
ghost use Rattle.dtx_model.specs.Promotes.{identifier_of};
ghost use Rattle.coordinator_core.specs.Acting.{record_for};
ghost use Rattle.coordinator_core.specs.Kept.{HasRoom, HasRoomFor};
ghost use Rattle.coordinator_log.specs.Slots.{open_records};
ghost use Rattle.world_parts.specs.AtLog.{Acts, IsFit, IsOurs, Tie};
ghost use Rattle.world_parts.specs.Found.{IsLeftAsWished};
ghost use Rattle.world_parts.specs.Leaves.{IsLater, LeavesKept};

use coordinator_core::{Core, CoreAct};
use coordinator_log::{Log, LogRefusal};
use dtx_values::{Differs, Entry, LogRecord, Outbox, TxId};
use outside::Disk;
use std::marker::Model;

/// What a coordinator keeps of the log: the record that it appended, or tried to append when the log was stopped, as long as it wasn't freed and no opening of the log
/// found none; whether an append or a free of it was stopped since the last opening; and the life of the log that it lives in.
#[derive(Drop)]
pub struct AtLog {
    ours: Option<LogRecord>,
    unsure: bool,
    life: u64,
}

impl Model for AtLog {
    ghost use Rattle.std.specs.Option.{option_map};
    ghost use Rattle.dtx_model.specs.Log.{record_of};
    ghost use Rattle.world_parts.specs.AtLog.{Kept};

    ghost Value = { Kept };

    ghost view = { λ m. record { ours = option_map record_of m.ours; unsure = m.unsure; life = m.life } };
}

/// Whether two records are the same: what their arrays hold beyond the enlistments that they name doesn't count.
fn is_same(a: &LogRecord, b: &LogRecord) -> bool
    ensures { IsTrue result ↔ (record_of a.now ≡ record_of b.now) }
{
    a.id == b.id && a.pairs() == b.pairs()
}

/// Whether what is kept of a record and what the log has of it tie.
fn tie(ours: Option<&LogRecord>, unsure: bool, found: Option<&LogRecord>) -> bool
    ensures { IsTrue result ↔ Tie (option_map (λ r. record_of r.now) ours.entry) unsure (option_map (λ r. record_of r.now) found.entry) }
{
    match (ours, found) {
        (None, None) => true,
        (Some(_), None) => unsure,
        (None, Some(_)) => false,
        (Some(kept), Some(had)) => is_same(kept, had),
    }
}

/// The log stopped: the coordinator stops.
fn stop(core: &mut Core, out: &mut Outbox)
    requires up { core.old.state.stopped ≡ false }
    requires room { HasRoomFor 1 out.old }
    ensures transaction { core.new.transaction ≡ core.old.transaction }
    ensures state { core.new.state ≡ follow core.old.state Stopped }
    ensures out { out.new ≡ written out.old (Stopped ∷ []) }
{
    out.put(Entry::Stopped);
    core.stopped();
}

impl AtLog {
    /// What a coordinator keeps of which nothing came yet.
    pub fn new() -> AtLog
        ensures { result ≡ record { ours = None; unsure = false; life = 0 } }
    {
        AtLog {
            ours: None,
            unsure: false,
            life: 0,
        }
    }

    /// The life of the log that it lives in.
    pub fn life(&self) -> u64
        ensures { result ≡ self.now.life }
    {
        self.life
    }

    /// Whether a record is kept.
    pub fn has_record(&self) -> bool
        ensures { result ≡ is_some self.now.ours }
    {
        self.ours.is_some()
    }

    /// It begins to live in this life of the log.
    pub fn begin(&mut self, life: u64)
        ensures { self.new ≡ record self.old { life = life } }
    {
        self.life = life;
    }

    /// Appends the record of the commit.
    fn append<D: Disk>(
        &mut self,
        kept: LogRecord,
        core: &mut Core,
        log: &mut Log<D>,
        out: &mut Outbox,
    )
        requires votes { may_log core.old.state ≡ true }
        requires own { kept.id ≡ identifier_of (number_of core.old.transaction) }
        requires written { record_of kept ≡ record_for (number_of core.old.transaction) core.old.state }
        requires ours { IsOurs (identifier_of (number_of core.old.transaction)) core.old.state self.old }
        requires fits { IsTrue D.honest → IsTrue log.old.is_up → IsFit (identifier_of (number_of core.old.transaction)) self.old.ours self.old.unsure (open_records log.old.slots) }
        requires room { HasRoomFor 41 out.old }
        ensures transaction { core.new.transaction ≡ core.old.transaction }
        ensures acts { Acts D.faults (number_of core.old.transaction) core.old.state self.old out.old log.old core.new.state self.new out.new log.new }
        ensures leaves { LeavesKept D.honest D.image (number_of core.old.transaction) core.old.state self.old log.old core.new.state self.new log.new }
        ensures later { IsLater D.faults log.old log.new }
        ensures found { IsTrue D.obeys → IsLeftAsWished D.faults D.seen core.old.state (identifier_of (number_of core.old.transaction)) log.old log.new }
    {
        match log.append(self.life, &kept) {
            Ok(_) => {
                self.ours = Some(kept);
                out.put(Entry::Logged);
                core.logged(out);
            }
            Err(LogRefusal::Full(_)) => {
                out.put(Entry::LogFull);
                core.log_full(out);
            }
            Err(LogRefusal::StoppedNow) => {
                self.ours = Some(kept);
                self.unsure = true;
                stop(core, out);
            }
            Err(LogRefusal::Stopped) => stop(core, out),
            // An append isn't refused otherwise.
            Err(
                LogRefusal::Fault
                | LogRefusal::NotALog(_)
                | LogRefusal::NoSuch(_)
                | LogRefusal::Memory,
            ) => unreachable!(),
        }
    }

    /// The record was freed.
    fn freed(&mut self, core: &mut Core, out: &mut Outbox)
        requires finished { may_free core.old.state ≡ true }
        requires room { HasRoomFor 1 out.old }
        ensures kept { self.new ≡ record { ours = None; unsure = self.old.unsure; life = self.old.life } }
        ensures transaction { core.new.transaction ≡ core.old.transaction }
        ensures state { core.new.state ≡ follow core.old.state Freed }
        ensures out { out.new ≡ written out.old (Freed ∷ []) }
    {
        self.ours = None;
        out.put(Entry::Freed);
        core.freed(out);
    }

    /// Frees the record.
    fn free<D: Disk>(&mut self, id: u128, core: &mut Core, log: &mut Log<D>, out: &mut Outbox)
        requires votes { may_log core.old.state ≡ false }
        requires finished { may_free core.old.state ≡ true }
        requires own { id ≡ identifier_of (number_of core.old.transaction) }
        requires ours { IsOurs (identifier_of (number_of core.old.transaction)) core.old.state self.old }
        requires fits { IsTrue D.honest → IsTrue log.old.is_up → IsFit (identifier_of (number_of core.old.transaction)) self.old.ours self.old.unsure (open_records log.old.slots) }
        requires room { HasRoomFor 41 out.old }
        ensures transaction { core.new.transaction ≡ core.old.transaction }
        ensures acts { Acts D.faults (number_of core.old.transaction) core.old.state self.old out.old log.old core.new.state self.new out.new log.new }
        ensures leaves { LeavesKept D.honest D.image (number_of core.old.transaction) core.old.state self.old log.old core.new.state self.new log.new }
        ensures later { IsLater D.faults log.old log.new }
        ensures found { IsTrue D.obeys → IsLeftAsWished D.faults D.seen core.old.state (identifier_of (number_of core.old.transaction)) log.old log.new }
    {
        match log.free(self.life, id) {
            Ok(()) => self.freed(core, out),
            // A disk that doesn't tell what it holds may have lost the record: then nothing is left to free.
            Err(LogRefusal::NoSuch(_)) => self.freed(core, out),
            Err(LogRefusal::StoppedNow) => {
                self.unsure = true;
                stop(core, out);
            }
            Err(LogRefusal::Stopped) => stop(core, out),
            // A free isn't refused otherwise.
            Err(
                LogRefusal::Fault
                | LogRefusal::NotALog(_)
                | LogRefusal::Full(_)
                | LogRefusal::Memory,
            ) => unreachable!(),
        }
    }

    /// Does the coordinator's act at the log: the append of its record, or its free.
    pub fn act<D: Disk>(&mut self, core: &mut Core, log: &mut Log<D>, out: &mut Outbox)
        requires pending { (may_log core.old.state || may_free core.old.state) ≡ true }
        requires ours { IsOurs (identifier_of (number_of core.old.transaction)) core.old.state self.old }
        requires fits { IsTrue D.honest → IsTrue log.old.is_up → IsFit (identifier_of (number_of core.old.transaction)) self.old.ours self.old.unsure (open_records log.old.slots) }
        requires room { HasRoomFor 41 out.old }
        ensures transaction { core.new.transaction ≡ core.old.transaction }
        ensures acts { Acts D.faults (number_of core.old.transaction) core.old.state self.old out.old log.old core.new.state self.new out.new log.new }
        ensures leaves { LeavesKept D.honest D.image (number_of core.old.transaction) core.old.state self.old log.old core.new.state self.new log.new }
        ensures later { IsLater D.faults log.old log.new }
        ensures found { IsTrue D.obeys → IsLeftAsWished D.faults D.seen core.old.state (identifier_of (number_of core.old.transaction)) log.old log.new }
    {
        match core.act() {
            Some(CoreAct::WriteRecord(record)) => self.append(record, core, log, out),
            Some(CoreAct::FreeIt(id)) => self.free(id, core, log, out),
            None => {}
        }
    }

    /// The log was opened again: the coordinator is told whether it has its record.
    pub fn restarted<D: Disk>(&mut self, core: &mut Core, log: &Log<D>, id: u128)
        requires stopped { core.old.state.stopped ≡ true }
        requires own { id ≡ identifier_of (number_of core.old.transaction) }
        requires fits { IsTrue D.honest → IsTrue log.now.is_up → IsFit (identifier_of (number_of core.old.transaction)) self.old.ours self.old.unsure (open_records log.now.slots) }
        ensures transaction { core.new.transaction ≡ core.old.transaction }
        ensures state { core.new.state ≡ follow core.old.state (Restarted (is_some (first_of id (open_records log.now.slots)))) }
        ensures kept { self.new ≡ record { ours = first_of id (open_records log.now.slots); unsure = false; life = log.now.life } }
        ensures ours { IsOurs (identifier_of (number_of core.old.transaction)) core.new.state self.new }
        ensures fit { IsTrue D.honest → IsTrue log.now.is_up → IsFit (identifier_of (number_of core.old.transaction)) self.new.ours self.new.unsure (open_records log.now.slots) }
    {
        let found = log.lookup(id);
        core.restarted(found);
        self.ours = found.copied();
        self.unsure = false;
        self.life = log.life();
    }

    /// Whether what is kept of the record of this transaction ties with what the log has of it. A log that is stopped says nothing.
    pub fn ties<D: Disk>(&self, x: TxId, log: &Log<D>) -> Result<(), Differs>
        ensures tie { IsOk result ↔ (IsTrue log.now.is_up → Tie self.now.ours self.now.unsure (first_of (identifier_of (number_of x)) (open_records log.now.slots))) }
        ensures differs { IfErr result (λ d. (o : Option LogRecord) × (f : Option LogRecord) × (d ≡ Differs.Log x.t o f)
            × (option_map record_of o ≡ self.now.ours) × (option_map record_of f ≡ first_of (identifier_of (number_of x)) (open_records log.now.slots))) }
    {
        if !log.is_up() {
            return Ok(());
        }
        let found = log.lookup(x.identifier());
        if tie(self.ours.as_ref(), self.unsure, found) {
            return Ok(());
        }
        Err(Differs::Log(x.t(), self.ours, found.copied()))
    }
}
