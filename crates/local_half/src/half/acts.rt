//! The local act: the first that applies.
ghost use Rattle.std.specs.Prelude.{◌≡◌, ◌&&◌, [], ◌∷◌, IfSome, false, find, if◌then◌else◌, is_some, not, true};
ghost use Rattle.dtx_values.specs.Outgoing.{written};
ghost use Rattle.dtx_values.specs.TxIds.{number_of};
ghost use Rattle.dtx_values.specs.Owners.{owner_of};
ghost use Rattle.dtx_values.specs.Waves.{is_over, next_ask};
ghost use Rattle.dtx_values.specs.declared.entry.Entry.TheVariants.{LocalYes, Sealed};
ghost use Rattle.dtx_values.specs.declared.message.Conn.TheVariants.{Voter};
ghost use Rattle.dtx_values.specs.declared.message.Message.TheVariants.{VoterYes};
ghost use Rattle.dtx_model.specs.Outcome.{is_empty};
ghost use Rattle.dtx_model.specs.Acts.{act_entries, after_seal, ask_or, commit_act, commit_message, commit_sent, hears_abort, is_to_tell, lasts, promotable_in, sealed_act, tell, unasked_promotable, under_way, voter_act};
ghost use Rattle.dtx_model.specs.Half.{is_handed, to_up};
ghost use Rattle.dtx_model.specs.Steps.{Acts, after as world_after};
ghost use Rattle.dtx_model.specs.World.{World};
ghost use Rattle.half_parts.specs.Half.{Follows, HasRoom, IsRoom, after};
ghost use Rattle.local_half.specs.Told.{MayAct, entries_if, entries_of};

use super::LocalHalf;
use dtx_model::Listener;
use dtx_values::{Ask, Conn, EnlNo, Entry, Message, Outbox, Outcome, Party};
use half_parts::branches::is_enlisted;
use half_parts::votes::{commits_alone, first_promotable};
use light_committer::{LightAct, decide};
use volatile_enlist::{hears, next_ask};

/// A local act.
#[derive(Clone, Copy, PartialEq, Eq)]
pub enum LocalAct {
    /// It is this entry alone: one is asked, told, or handed the commit.
    Write(Entry),
    /// The transaction is sealed.
    Seal,
    /// The transaction is committed.
    Commit,
    /// The local side says yes.
    SayYes,
}

#[tactic(auto, using(half_parts::proofs::Writing::outgoing), unfolding(dtx_model::specs::Half::heeds_all, dtx_model::specs::Acts::act_entries))]
impl LocalHalf {
    /// Whether the commit was handed to the enlistment.
    pub fn is_handed(&self, e: EnlNo) -> bool
        ensures handed { result ≡ is_handed self.now.half.seen.handed e.value }
    {
        self.handed == Some(e)
    }

    /// Whether this enlistment is durable or promotable.
    fn lasts(&self, e: EnlNo) -> bool
        ensures { result ≡ lasts self.now.half.seen.table e.value }
    {
        self.table
            .rows()
            .iter()
            .any(|x| x.number == e && x.is_lasting())
    }

    /// Whether it is durable or promotable, and an abort is told to it by an act: its ENLISTED wasn't got, it wasn't handed the commit, and isn't lost.
    fn hears_abort(&self, l: &Listener) -> bool
        ensures { result ≡ hears_abort self.now.half.seen l.now }
    {
        !l.lost
            && self.handed != Some(l.enlistment)
            && self.lasts(l.enlistment)
            && !is_enlisted(&self.branches, l.enlistment)
    }

    /// Whether the outcome is still to be told to it.
    fn is_to_tell(&self, o: Outcome, l: &Listener) -> bool
        ensures { result ≡ is_to_tell self.now.half.seen o l.now }
    {
        !l.told
            && (hears(&self.table, l.enlistment) || (o == Outcome::Aborted && self.hears_abort(l)))
    }

    /// The lowest enlistment that is still to be told the outcome.
    fn first_to_tell(&self, o: Outcome) -> Option<Listener>
        ensures { result ≡ find (is_to_tell self.now.half.seen o) self.now.half.seen.listeners }
    {
        self.listeners
            .iter()
            .copied()
            .find(|l| self.is_to_tell(o, l))
    }

    /// The entry that tells the outcome to the next: the lowest enlistment that is still to be told, and then the client.
    fn next_told(&self, o: Outcome) -> Option<LocalAct>
        ensures entries { entries_if self.now.half result ≡ tell o (find (is_to_tell self.now.half.seen o) self.now.half.seen.listeners) self.now.half.seen.told_client }
        ensures taken { IfSome result (MayAct self.now.half) }
    {
        match self.first_to_tell(o) {
            Some(l) => Some(LocalAct::Write(Entry::Told(Party::Enl(l.enlistment), o))),
            None => match self.told_client {
                Some(_) => None,
                None => Some(LocalAct::Write(Entry::Told(Party::Client, o))),
            },
        }
    }

    /// How many things are under way before the seal: the calls that wait, and a promotion.
    fn under_way(&self) -> u8
        ensures { result ≡ under_way self.now.half }
    {
        let promotion = if self.is_promoting() { 1 } else { 0 };
        self.waits.len() as u8 + promotion
    }

    /// The act of phase zero: the next is asked, or it is over and the transaction is sealed.
    fn next_before_seal(&self) -> Option<LocalAct>
        ensures entries { entries_if self.now.half result ≡ ask_or (next_ask self.now.half.seen.table true) (is_over self.now.half.seen.table self.now.half.seen.clones (under_way self.now.half)) (Sealed ∷ commit_sent self.now.half.seen) }
        ensures taken { IfSome result (MayAct self.now.half) }
    {
        let mut waves = self.waves;
        match waves.next_wave(&self.table) {
            Some(e) => Some(LocalAct::Write(Entry::Asked(e, Ask::Prepare))),
            None => {
                if waves.is_over(&self.table, &self.clones, self.under_way()) {
                    Some(LocalAct::Seal)
                } else {
                    None
                }
            }
        }
    }

    /// The act after the seal of a transaction that isn't promoted: the next is asked; when all voted, the
    /// commit is handed to the owner, once, or it is committed where nothing is durable or promotable.
    fn next_at_home(&self) -> Option<LocalAct>
        requires { self.now.half.seen.promoted ≡ false }
        ensures entries { entries_if self.now.half result ≡ after_seal self.now.half (if is_some self.now.half.seen.handed then [] else commit_act self.now.half (owner_of self.now.half.seen.table)) }
        ensures taken { IfSome result (MayAct self.now.half) }
    {
        match next_ask(&self.table, false) {
            Some(e) => Some(LocalAct::Write(Entry::Asked(e, Ask::Prepare))),
            None => match decide(&self.table, self.handed.is_some()) {
                LightAct::Nothing => None,
                LightAct::HandTo(e) => Some(LocalAct::Write(Entry::Handed(e))),
                LightAct::CommitNow => Some(LocalAct::Commit),
            },
        }
    }

    /// The act of a voter that was asked: the volatiles are asked, and when all voted the local side says yes, once.
    fn next_of_voter(&self) -> Option<LocalAct>
        ensures entries { entries_if self.now.half result ≡ voter_act self.now.half }
        ensures taken { IfSome result (MayAct self.now.half) }
    {
        if !self.proxy.was_got(Conn::Voter, &Message::VoterAsk) {
            return None;
        }
        match next_ask(&self.table, false) {
            Some(e) => Some(LocalAct::Write(Entry::Asked(e, Ask::Prepare))),
            None => {
                if !self.yes && self.table.volatiles_voted() {
                    Some(LocalAct::SayYes)
                } else {
                    None
                }
            }
        }
    }

    /// The promotable enlistment.
    fn promotable(&self) -> Option<EnlNo>
        ensures { result ≡ promotable_in self.now.half.seen.table }
    {
        first_promotable(self.table.rows())
    }

    /// The act after the seal.
    fn next_after_seal(&self) -> Option<LocalAct>
        ensures entries { entries_if self.now.half result ≡ sealed_act self.now.half }
        ensures taken { IfSome result (MayAct self.now.half) }
    {
        if !self.handover.is_over() {
            return self.next_at_home();
        }
        match self.promotable() {
            Some(e) => {
                if self.single_asked {
                    self.next_of_voter()
                } else {
                    Some(LocalAct::Write(Entry::Asked(e, Ask::Single)))
                }
            }
            None => self.next_of_voter(),
        }
    }

    /// The promotable enlistment that wasn't asked to promote yet, while a promotion is under way.
    fn unasked_promotable(&self) -> Option<EnlNo>
        ensures { result ≡ unasked_promotable self.now.half.seen }
    {
        if self.is_promoting() && !self.promote_asked {
            self.promotable()
        } else {
            None
        }
    }

    /// The local act; `None` exactly where none is pending.
    fn next_act(&self) -> Option<LocalAct>
        ensures entries { entries_if self.now.half result ≡ act_entries self.now.half }
        ensures taken { IfSome result (MayAct self.now.half) }
    {
        if let Some(o) = self.decided {
            return self.next_told(o);
        }
        if let Some(e) = self.unasked_promotable() {
            return Some(LocalAct::Write(Entry::Asked(e, Ask::Promote)));
        }
        if !self.commit {
            return None;
        }
        if self.sealed {
            self.next_after_seal()
        } else {
            self.next_before_seal()
        }
    }

    /// Whether a local act is pending. It isn't done.
    pub fn has_act(&self) -> bool
        ensures { result ≡ not (is_empty (act_entries self.now.half)) }
    {
        self.next_act().is_some()
    }

    /// Whether COMMIT is sent after the seal: the transaction is promoted, and no promotable has to request it.
    fn commits_by_seal(&self) -> bool
        ensures { result ≡ (self.now.half.seen.promoted && not (is_some (promotable_in self.now.half.seen.table))) }
    {
        self.handover.is_over() && self.promotable().is_none()
    }

    /// COMMIT: for a single phase where the one durable can own the commit, else for two.
    fn commit_message(&self) -> Message
        ensures { result ≡ commit_message self.now.half.seen }
    {
        if commits_alone(self.table.rows()) {
            Message::BeginCommitOne
        } else {
            Message::BeginCommit
        }
    }

    /// Seals the transaction. COMMIT is sent where it is promoted, unless a promotable has to request it.
    fn seal(&mut self, out: &mut Outbox)
        requires { IsRoom 2 1 out.old }
        ensures state { self.new ≡ after [] self.old (Sealed ∷ commit_sent self.old.half.seen) }
        ensures out { out.new ≡ written out.old (Sealed ∷ commit_sent self.old.half.seen) }
    {
        let commits = self.commits_by_seal();
        self.write(Entry::Sealed, out);
        if commits {
            let commit = self.commit_message();
            self.send_up(Conn::Begin, commit, out);
        }
    }

    /// Says yes, and sends it to the coordinator.
    fn say_yes(&mut self, out: &mut Outbox)
        requires { IsRoom 2 1 out.old }
        ensures state { self.new ≡ after [] self.old (LocalYes ∷ to_up self.old.half.seen Voter VoterYes) }
        ensures out { out.new ≡ written out.old (LocalYes ∷ to_up self.old.half.seen Voter VoterYes) }
    {
        self.write(Entry::LocalYes, out);
        self.send_up(Conn::Voter, Message::VoterYes, out);
    }

    /// Does this act.
    fn do_act(&mut self, a: LocalAct, out: &mut Outbox)
        requires taken { MayAct self.old.half a }
        requires room { HasRoom out.old }
        ensures state { self.new ≡ after [] self.old (entries_of self.old.half a) }
        ensures out { out.new ≡ written out.old (entries_of self.old.half a) }
    {
        match a {
            LocalAct::Write(x) => self.write(x, out),
            LocalAct::Seal => self.seal(out),
            LocalAct::Commit => self.decide(Outcome::Committed, out),
            LocalAct::SayYes => self.say_yes(out),
        }
    }

    /// Does the local act; false exactly where none is pending.
    pub fn act(&mut self, out: &mut Outbox) -> bool
        requires { HasRoom out.old }
        ensures acted { result ≡ not (is_empty (act_entries self.old.half)) }
        ensures state { self.new ≡ after [] self.old (act_entries self.old.half) }
        ensures out { out.new ≡ written out.old (act_entries self.old.half) }
        ensures unchanged { result ≡ false → self.new ≡ self.old }
        ensures runs { (w : World) → Follows (number_of self.old.transaction) w self.old.half → result ≡ true → Follows (number_of self.old.transaction) (world_after (number_of self.old.transaction) w Acts) self.new.half }
    {
        match self.next_act() {
            Some(a) => {
                self.do_act(a, out);
                true
            }
            None => false,
        }
    }
}
