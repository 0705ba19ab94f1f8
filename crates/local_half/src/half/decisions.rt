//! What a decision writes, and what the end of a handover writes: the calls that wait are answered.
ghost use Rattle.std.specs.Prelude.{◌≡◌, ◌<◌, [], IfSome, false, true, is_some, length};
ghost use Rattle.dtx_values.specs.declared.limits.TheConstants.{CALLS};
ghost use Rattle.dtx_values.specs.TxIds.{number_of};
ghost use Rattle.std.specs.List.{flat_map};
ghost use Rattle.dtx_values.specs.Outgoing.{written};
ghost use Rattle.dtx_values.specs.Table.{how_many};
ghost use Rattle.dtx_model.specs.Half.{decide, ended, enlist_sent, given, to_up, veto, veto_if, veto_message};
ghost use Rattle.dtx_model.specs.Waiting.{is_place};
ghost use Rattle.half_parts.specs.Half.{IsLeft, IsRoom, after};
ghost use Rattle.half_parts.specs.Linked.{is_held};
ghost use Rattle.half_parts.specs.Taken.{MaySend};
ghost use Rattle.half_parts.specs.Waits.{IsAt, StartsWith};

use super::LocalHalf;
use dtx_model::Wanted;
use dtx_values::{Answer, Conn, Dir, EnlNo, Entry, Info, Message, Outbox, Outcome, RmNo};
use half_parts::waits;

#[tactic(auto, using(half_parts::proofs::Writing::outgoing), unfolding(dtx_model::specs::Observed::track, dtx_model::specs::Half::heeds_all, dtx_model::specs::Half::veto))]
impl LocalHalf {
    /// The line of the first call that waits.
    fn first_waiting(&self) -> Option<u32>
        ensures { StartsWith self.now.half.waits result }
    {
        match waits::get(&self.waits, 0) {
            Some((n, _)) => Some(n),
            None => None,
        }
    }

    /// The call that waits at an index.
    fn waiting_at(&self, i: usize) -> Option<(u32, Wanted)>
        ensures at { IsAt i self.now.half.waits result }
        ensures within { IfSome result (λ w. i < CALLS) }
    {
        waits::get(&self.waits, i)
    }

    /// Writes that each call that waits is answered how it ended.
    fn end_waits(&mut self, o: Outcome, out: &mut Outbox)
        requires decided { is_some self.old.half.seen.decided ≡ true }
        requires room { IsRoom (length self.old.half.waits) 0 out.old }
        ensures state { self.new ≡ after [] self.old (ended self.old.half.waits o) }
        ensures out { out.new ≡ written out.old (ended self.old.half.waits o) }
    {
        while let Some(n) = self.first_waiting() {
            self.write(Entry::Answered(n, Answer::Ended(o)), out);
        }
    }

    /// Writes that this is decided: a promotion that is under way fails, and each call that waits is answered.
    pub(super) fn decide(&mut self, o: Outcome, out: &mut Outbox)
        requires { IsRoom 34 0 out.old }
        ensures state { self.new ≡ after [] self.old (decide self.old.half o) }
        ensures out { out.new ≡ written out.old (decide self.old.half o) }
        ensures left { IsLeft 34 0 out.old out.new }
    {
        self.end(o, out);
        self.end_waits(o, out);
    }

    /// Sends a message, unless the end of the connection was seen.
    pub(super) fn send_up(&mut self, c: Conn, m: Message, out: &mut Outbox)
        requires sent { MaySend self.old.half c m }
        requires room { IsRoom 1 1 out.old }
        ensures state { self.new ≡ after [] self.old (to_up self.old.half.seen c m) }
        ensures out { out.new ≡ written out.old (to_up self.old.half.seen c m) }
    {
        if self.proxy.knows(c) {
            self.write(Entry::Sent(c, Dir::Up, m), out);
        }
    }

    /// Sends the message of a veto.
    fn say_no(&mut self, out: &mut Outbox)
        requires { IsRoom 1 1 out.old }
        ensures state { self.new ≡ after [] self.old (veto_message self.old.half.seen) }
        ensures out { out.new ≡ written out.old (veto_message self.old.half.seen) }
    {
        match self.proxy.may_send_abort() {
            Some(Conn::Begin) => self.write(
                Entry::Sent(Conn::Begin, Dir::Up, Message::BeginAbort),
                out,
            ),
            Some(Conn::Voter) => self.write(
                Entry::Sent(Conn::Voter, Dir::Up, Message::VoterNo),
                out,
            ),
            _ => {}
        }
    }

    /// Writes a veto: it decides that the transaction is aborted, and the coordinator is told.
    pub(super) fn veto(&mut self, out: &mut Outbox)
        requires { IsRoom 35 1 out.old }
        ensures state { self.new ≡ after [] self.old (veto self.old.half) }
        ensures out { out.new ≡ written out.old (veto self.old.half) }
    {
        self.decide(Outcome::Aborted, out);
        self.say_no(out);
    }

    /// Writes a veto where the test holds.
    pub(super) fn veto_if(&mut self, is_veto: bool, out: &mut Outbox)
        requires { IsRoom 35 1 out.old }
        ensures state { self.new ≡ after [] self.old (veto_if is_veto self.old.half) }
        ensures out { out.new ≡ written out.old (veto_if is_veto self.old.half) }
    {
        if is_veto {
            self.veto(out);
        }
    }

    /// Sends the ENLIST of an enlistment.
    pub(super) fn send_enlist(&mut self, e: EnlNo, rm: RmNo, out: &mut Outbox)
        requires undecided { is_some self.old.half.seen.decided ≡ false }
        requires held { is_held self.old.half.seen.table self.old.half.waits e.value ≡ true }
        requires room { IsRoom 1 1 out.old }
        ensures state { self.new ≡ after [] self.old (enlist_sent (number_of self.old.transaction) e rm) }
        ensures out { out.new ≡ written out.old (enlist_sent (number_of self.old.transaction) e rm) }
    {
        let info = Info {
            id: self.identifier(),
            rm,
            enl: e,
        };
        self.write(
            Entry::Sent(Conn::Enl(e), Dir::Up, Message::EnlistEnlist(info)),
            out,
        );
    }

    /// Gives each call that waits what it waits for: the identifier, or its ENLIST is sent.
    pub(super) fn give_all(&mut self, out: &mut Outbox)
        requires undecided { is_some self.old.half.seen.decided ≡ false }
        requires room { IsRoom (length self.old.half.waits) (how_many is_place self.old.half.waits) out.old }
        ensures state { self.new ≡ after [] self.old (flat_map (given (number_of self.old.transaction)) self.old.half.waits) }
        ensures out { out.new ≡ written out.old (flat_map (given (number_of self.old.transaction)) self.old.half.waits) }
    {
        let mut i = 0;
        while let Some((n, wanted)) = self.waiting_at(i) {
            match wanted {
                Wanted::Identifier => {
                    let id = self.identifier();
                    self.write(Entry::Answered(n, Answer::Id(id)), out);
                }
                Wanted::Place(e, rm, _) => {
                    self.send_enlist(e, rm, out);
                    i += 1;
                }
            }
        }
    }
}
