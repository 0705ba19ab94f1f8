//! What the calls, and the loss and the return of an enlistment, write.
ghost use Rattle.std.specs.Prelude.{ℕ, ◌≡◌, ◌&&◌, [], ◌∷◌, false, find, if◌then◌else◌, is_some, true};
ghost use Rattle.dtx_values.specs.Class.{is_volatile};
ghost use Rattle.dtx_values.specs.TxIds.{number_of};
ghost use Rattle.dtx_values.specs.Clones.{is_open_rollback};
ghost use Rattle.dtx_values.specs.Outgoing.{written};
ghost use Rattle.dtx_values.specs.declared.call.Call.TheVariants.{Gone};
ghost use Rattle.dtx_values.specs.declared.entry.Answer.TheVariants.{Fine, Wait};
ghost use Rattle.dtx_values.specs.declared.entry.Entry.TheVariants.{Enlisted};
ghost use Rattle.dtx_values.specs.declared.number.ActorNo.{ActorNo};
ghost use Rattle.dtx_model.specs.Facts.{call_entries, is_late, local_facts, tick_facts};
ghost use Rattle.dtx_model.specs.Answers.{gone_answer, class_of, local_answer};
ghost use Rattle.dtx_model.specs.Caused.{is_new};
ghost use Rattle.dtx_model.specs.Entries.{is_call};
ghost use Rattle.dtx_model.specs.Half.{is_gone, stands};
ghost use Rattle.dtx_model.specs.Observed.{is_branch, track};
ghost use Rattle.dtx_model.specs.Steps.{Calls, after as world_after, entered};
ghost use Rattle.dtx_model.specs.Words.{has};
ghost use Rattle.dtx_model.specs.World.{World, gone_decides, has_answered_there, open_ones, reenlist_facts};
ghost use Rattle.half_parts.specs.Half.{Follows, HasRoom, IsRoom, after, is_done, is_free, is_its_own, is_made_by_waiting, loss};
ghost use Rattle.half_parts.specs.Taken.{HasPlace, begin_sent, cause_for, is_place_awaited, place_sent, with_call, with_waiter};

use super::LocalHalf;
use dtx_values::{
    ActorNo, Answer, Call, Cause, Class, Conn, Dir, EnlNo, EnlistOption, Entry, Info, Message,
    Outbox, Outcome, RmNo,
};
use durable_enlist::cause_of;
use half_parts::branches::branch_of;
use half_parts::outgoing::put_out;
use half_parts::time::{limit_of, reaches, ticked};
use half_parts::votes::is_evident;
use light_committer::owner_lost;

/// The class of a volatile enlistment.
fn class_of(option: EnlistOption) -> Class
    ensures { result ≡ class_of option }
{
    match option {
        EnlistOption::Plain => Class::One,
        EnlistOption::DuringPrepare => Class::Zero,
    }
}

#[tactic(auto, using(half_parts::proofs::Writing::outgoing), unfolding(dtx_model::specs::Observed::track, dtx_model::specs::Half::heeds_all, dtx_model::specs::Half::veto))]
impl LocalHalf {
    /// Whether a rollback clone isn't complete.
    #[tactic(auto, using(half_parts::proofs::Notes::some_left))]
    fn has_open_rollback(&self) -> bool
        ensures { result ≡ has is_open_rollback self.now.half.seen.clones }
    {
        self.clones.rollback_left() > 0
    }

    /// Whether a timeout comes too late.
    fn is_late(&self) -> bool
        ensures { result ≡ is_late self.now.half.seen }
    {
        self.yes
            || self.decided.is_some()
            || self.handed.is_some()
            || (!self.handover.is_over() && is_evident(self.sealed, self.table.rows()))
    }

    /// Writes what a tick to n does: the clock, and at the first that reaches the timeout either a veto or that it comes too late.
    fn tick(&mut self, n: u64, out: &mut Outbox)
        requires { IsRoom 37 1 out.old }
        ensures state { self.new ≡ after [] self.old (tick_facts self.old.half n) }
        ensures out { out.new ≡ written out.old (tick_facts self.old.half n) }
    {
        let is_first = reaches(self.limit, self.clock, n);
        let is_late = self.is_late();
        self.write(Entry::Clock(n), out);
        if is_first {
            if is_late {
                self.write(Entry::Late, out);
            } else {
                self.write(Entry::TimedOut, out);
                self.veto(out);
            }
        }
    }

    /// Writes that a durable or promotable one is enlisted, and keeps its manager, which no entry says.
    fn own(&mut self, e: EnlNo, class: Class, manager: RmNo, out: &mut Outbox)
        requires taken { HasPlace self.old.half e class }
        requires lasting { is_volatile class ≡ false }
        requires room { IsRoom 1 0 out.old }
        ensures transaction { self.new.transaction ≡ self.old.transaction }
        ensures seen { self.new.half.seen ≡ track self.old.half.seen (Enlisted e class) }
        ensures waits { self.new.half.waits ≡ self.old.half.waits }
        ensures managers { self.new.half.managers ≡ (e, manager) ∷ self.old.half.managers }
        ensures out { out.new ≡ written out.old (Enlisted e class ∷ []) }
    {
        prove!(self.manager.is_none());
        self.write(Entry::Enlisted(e, class), out);
        self.manager = Some((e, manager));
    }

    /// Sends BEGIN, unless a promotable has to promote first.
    fn send_begin(&mut self, out: &mut Outbox)
        requires { IsRoom 1 1 out.old }
        ensures state { self.new ≡ after [] self.old (begin_sent self.old.half.seen) }
        ensures out { out.new ≡ written out.old (begin_sent self.old.half.seen) }
    {
        if !self.table.has_promotable() {
            self.write(Entry::Sent(Conn::Begin, Dir::Up, Message::BeginBegin), out);
        }
    }

    /// Sends the ENLIST of a durable call, where the transaction is promoted.
    fn send_place(&mut self, c: &Call, out: &mut Outbox)
        requires undecided { is_some self.old.half.seen.decided ≡ false }
        requires awaited { is_place_awaited self.old.half.waits c.now ≡ true }
        requires room { IsRoom 1 1 out.old }
        ensures state { self.new ≡ after [] self.old (place_sent (number_of self.old.transaction) self.old.half c.now) }
        ensures out { out.new ≡ written out.old (place_sent (number_of self.old.transaction) self.old.half c.now) }
    {
        if !self.handover.is_over() {
            return;
        }
        if let Call::Durable(_, e, r, _) = *c {
            self.send_enlist(e, r, out);
        }
    }

    /// Why a call promotes.
    fn cause_for(&self, c: &Call) -> Option<Cause>
        ensures { result ≡ cause_for self.now.half.seen c.now }
    {
        match *c {
            Call::Durable(_, _, _, support) => cause_of(&self.table, support.is_single()),
            Call::Marshal(_) => Some(Cause::Marshal),
            _ => None,
        }
    }

    /// Writes the facts of a call that waits, and keeps that it does.
    fn facts_of_waiting(&mut self, line: u32, c: &Call, out: &mut Outbox)
        requires own { is_its_own c.now ≡ true }
        requires waits { local_answer (number_of self.old.transaction) self.old.half c.now 0 ≡ Wait }
        requires new { is_free self.old.half line c.now ≡ true }
        requires room { IsRoom 2 1 out.old }
        ensures state { self.new ≡ after [] (with_waiter line c.now self.old) (local_facts (number_of self.old.transaction) self.old.half c.now Wait) }
        ensures out { out.new ≡ written out.old (local_facts (number_of self.old.transaction) self.old.half c.now Wait) }
    {
        if self.has_promotion() {
            self.wait(line, c);
            self.send_place(c, out);
            return;
        }
        match self.cause_for(c) {
            Some(cause) => {
                self.wait_first(line, c, cause, out);
                self.send_begin(out);
            }
            None => unreachable!(),
        }
    }

    /// Writes the facts of a call that was done.
    fn facts(&mut self, c: &Call, out: &mut Outbox)
        requires own { is_its_own c.now ≡ true }
        requires done { is_done (local_answer (number_of self.old.transaction) self.old.half c.now 0) ≡ true }
        requires new { is_new self.old.half.seen c.now ≡ true }
        requires unawaited { is_made_by_waiting self.old.half.waits c.now ≡ false }
        requires room { IsRoom 39 1 out.old }
        ensures state { self.new ≡ after [] (with_call c.now self.old) (local_facts (number_of self.old.transaction) self.old.half c.now Fine) }
        ensures out { out.new ≡ written out.old (local_facts (number_of self.old.transaction) self.old.half c.now Fine) }
    {
        // A proof sees here what holds of the calls that wait.
        let _ = &self.waits;
        match *c {
            Call::Begin(_, d) => self.write(Entry::Began(limit_of(d)), out),
            Call::Volatile(_, e, option, _) => self.write(
                Entry::Enlisted(e, class_of(option)),
                out,
            ),
            Call::Durable(_, e, r, _) => self.own(e, Class::DurableSingle, r, out),
            Call::Promotable(_, e, r, _, _, _) => {
                self.own(e, Class::Promotable, r, out);
                self.write(Entry::Init(e), out);
            }
            Call::Clone(_, c, kind) => self.write(Entry::Cloned(c, kind), out),
            Call::Complete(c) => self.write(Entry::Completed(c), out),
            Call::Commit(_) => {
                let is_veto = self.has_open_rollback();
                self.write(Entry::CommitAsked, out);
                self.veto_if(is_veto, out);
            }
            Call::Rollback(_) => {
                self.write(Entry::RollbackAsked, out);
                self.veto(out);
            }
            Call::Tick(_, n) => self.tick(ticked(self.clock, n), out),
            _ => {}
        }
    }

    /// Does a call: writes its entry, and then its facts. One that waits is answered by an entry of a later step.
    pub fn call(&mut self, actor: ActorNo, line: u32, c: &Call, out: &mut Outbox) -> Answer
        requires own { is_its_own c.now ≡ true }
        requires new { is_free self.old.half line c.now ≡ true }
        requires room { HasRoom out.old }
        ensures answer { result ≡ local_answer (number_of self.old.transaction) self.old.half c.now 0 }
        ensures state { self.new ≡ after (entered (Calls line actor c.now 0) []) self.old (call_entries (number_of self.old.transaction) self.old.half line actor c.now) }
        ensures out { out.new ≡ written out.old (call_entries (number_of self.old.transaction) self.old.half line actor c.now) }
        ensures runs { (w : World) → Follows (number_of self.old.transaction) w self.old.half → has (is_call line) w.past ≡ false
            → Follows (number_of self.old.transaction) (world_after (number_of self.old.transaction) w (Calls line actor c.now 0)) self.new.half }
    {
        let answer = self.answer(c);
        put_out(Entry::Called(line, actor, answer), out);
        if answer == Answer::Wait {
            self.facts_of_waiting(line, c, out);
        } else if answer == Answer::Fine || answer == Answer::True {
            self.facts(c, out);
        }
        answer
    }

    /// Whether the coordinator let the enlistment decide, and it answered.
    fn has_answered_there(&self, e: EnlNo) -> bool
        ensures { result ≡ has_answered_there self.now.half.seen e.value }
    {
        self.handover.is_over() && self.is_handed(e) && self.answered
    }

    /// Writes what the loss of an enlistment decides that has no open connection: where it hasn't voted and nothing is decided,
    /// it is in doubt where the commit was handed to it, else this is a veto. The loss of one that answered the coordinator decides nothing.
    fn gone_decides(&mut self, e: EnlNo, out: &mut Outbox)
        requires { IsRoom 35 1 out.old }
        ensures state { self.new ≡ after [] self.old (gone_decides self.old.half e) }
        ensures out { out.new ≡ written out.old (gone_decides self.old.half e) }
    {
        if self.has_answered_there(e) || self.decided.is_some() || self.table.has_voted(e) {
            return;
        }
        match owner_lost(self.is_handed(e)) {
            Outcome::InDoubt => self.decide(Outcome::InDoubt, out),
            _ => self.veto(out),
        }
    }

    /// Loses an enlistment. Where none of its connections is open, it hasn't voted and nothing is decided, that
    /// decides: in doubt where it was handed the commit, else aborted. The loss of one that the coordinator let decide
    /// and that answered decides nothing.
    ///
    /// `linked` says whether one of its connections is open. The entry of the call isn't written here: `gone`
    /// writes what follows of it.
    pub fn gone(&mut self, e: EnlNo, linked: bool, out: &mut Outbox)
        requires stands { gone_answer (stands self.old.half.seen e.value) (is_gone self.old.half.seen e.value) ≡ Fine }
        requires room { HasRoom out.old }
        ensures state { self.new ≡ after [] self.old (loss linked self.old.half e) }
        ensures out { out.new ≡ written out.old (loss linked self.old.half e) }
        ensures runs { (w : World) (n : ℕ) (a : ActorNo) → Follows (number_of self.old.transaction) w self.old.half → has (is_call n) w.past ≡ false
            → linked ≡ false → open_ones w e ≡ []
            → Follows (number_of self.old.transaction) (world_after (number_of self.old.transaction) w (Calls n a (Gone e) 0)) self.new.half }
    {
        // A proof sees here that the transaction was begun, since the enlistment stands.
        let _ = &self.limit;
        self.write(Entry::Lost(e), out);
        if !linked {
            self.gone_decides(e, out);
        }
    }

    /// Brings an enlistment back that the coordinator accepted before: REENLIST is sent. The entry of the
    /// call isn't written here.
    pub fn reenlist(&mut self, e: EnlNo, out: &mut Outbox)
        requires accepted { has (λ b. is_branch e.value b && b.enlisted) self.old.half.seen.branches ≡ true }
        requires room { HasRoom out.old }
        ensures state { self.new ≡ after [] self.old (reenlist_facts (number_of self.old.transaction) (find (is_branch e.value) self.old.half.seen.branches)) }
        ensures out { out.new ≡ written out.old (reenlist_facts (number_of self.old.transaction) (find (is_branch e.value) self.old.half.seen.branches)) }
    {
        if let Some(b) = branch_of(&self.branches, e) {
            let info = Info {
                id: self.identifier(),
                rm: b.manager,
                enl: b.enlistment,
            };
            self.write(Entry::Reenlisted(b.enlistment), out);
            self.write(
                Entry::Sent(
                    Conn::Again(b.enlistment),
                    Dir::Up,
                    Message::ReenlistReenlist(info),
                ),
                out,
            );
        }
    }
}
