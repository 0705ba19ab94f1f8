//! What the local side does at a message of the coordinator, and at the end of a connection.
ghost use Rattle.std.specs.Prelude.{◌≡◌, [], ◌∷◌, ◌++◌, false, true, find, is_some};
ghost use Rattle.dtx_model.specs.Waiting.{is_place_of};
ghost use Rattle.dtx_values.specs.TxIds.{number_of};
ghost use Rattle.dtx_values.specs.Lines.{has_line};
ghost use Rattle.dtx_values.specs.Outgoing.{written};
ghost use Rattle.dtx_values.specs.declared.entry.Entry.TheVariants.{Got, Down as Ended};
ghost use Rattle.dtx_values.specs.declared.message.Dir.TheVariants.{Down};
ghost use Rattle.dtx_model.specs.Arrivals.{aborted_by, begun, created, ended_by, ended_there, enlisted_at, hand_over, handed_by, has_both_ends, local_down, local_got, place_given, refused_by, told_abort, unless_decided};
ghost use Rattle.dtx_model.specs.Half.{by_manager, decide, enlist_sent, veto};
ghost use Rattle.half_parts.specs.Half.{HasRoom, IsRoom, after};
ghost use Rattle.local_half.specs.Told.{aborted_for, told_by};

use super::LocalHalf;
use dtx_model::Wanted;
use dtx_values::{Ask, Conn, Dir, EnlNo, Entry, Message, Outbox, Outcome, Party, has_line};
use half_parts::waits;
use promotion::HandoverAct;
use tm_proxy::ProxyNews;

#[tactic(auto, using(half_parts::proofs::Writing::outgoing), unfolding(dtx_model::specs::Observed::track, dtx_model::specs::Half::heeds_all))]
impl LocalHalf {
    /// After BEGUN: VOTER is sent, or an abort where the transaction was decided meanwhile.
    fn begun(&mut self, id: u128, out: &mut Outbox)
        requires { IsRoom 1 1 out.old }
        ensures state { self.new ≡ after [] self.old (begun (number_of self.old.transaction) self.old.half) }
        ensures out { out.new ≡ written out.old (begun (number_of self.old.transaction) self.old.half) }
    {
        if self.decided.is_some() {
            self.send_up(Conn::Begin, Message::BeginAbort, out);
            return;
        }
        if self.hand_on(&ProxyNews::Begun(id), out) == HandoverAct::SendVoter {
            let id = self.identifier();
            self.write(
                Entry::Sent(Conn::Voter, Dir::Up, Message::VoterVoter(id)),
                out,
            );
        }
    }

    /// Sends the ENLIST of the enlistment that is handed over, whose manager is the one that is kept.
    fn enlist_owner(&mut self, e: EnlNo, out: &mut Outbox)
        requires undecided { is_some self.old.half.seen.decided ≡ false }
        requires room { IsRoom 1 1 out.old }
        ensures state { self.new ≡ after [] self.old (by_manager (enlist_sent (number_of self.old.transaction)) self.old.half.managers e) }
        ensures out { out.new ≡ written out.old (by_manager (enlist_sent (number_of self.old.transaction)) self.old.half.managers e) }
    {
        if let Some((owner, manager)) = self.manager {
            if e == owner {
                self.send_enlist(e, manager, out);
            }
        }
    }

    /// After CREATED: the ENLIST of the enlistment that stood at the start is sent; with none the handover is over.
    fn created(&mut self, out: &mut Outbox)
        requires { HasRoom out.old }
        ensures state { self.new ≡ after [] self.old (created (number_of self.old.transaction) self.old.half) }
        ensures out { out.new ≡ written out.old (created (number_of self.old.transaction) self.old.half) }
    {
        if self.decided.is_some() {
            return;
        }
        match self.hand_on(&ProxyNews::Created, out) {
            HandoverAct::SendEnlist(e) => self.enlist_owner(e, out),
            HandoverAct::Over => self.give_all(out),
            _ => {}
        }
    }

    /// Gives the place to the call that waits for it.
    fn place(&mut self, e: EnlNo, out: &mut Outbox)
        requires promoted { self.old.half.seen.promoted ≡ true }
        requires room { IsRoom 2 0 out.old }
        ensures state { self.new ≡ after [] self.old (place_given (find (is_place_of e.value) self.old.half.waits)) }
        ensures out { out.new ≡ written out.old (place_given (find (is_place_of e.value) self.old.half.waits)) }
    {
        if let Some((n, Wanted::Place(place, _, class))) = waits::place_of(&self.waits, e) {
            self.give_place(place, n, class, out);
        }
    }

    /// After ENLISTED: the handover is over, or a call has its place.
    fn enlisted(&mut self, e: EnlNo, out: &mut Outbox)
        requires { HasRoom out.old }
        ensures state { self.new ≡ after [] self.old (enlisted_at (number_of self.old.transaction) self.old.half e) }
        ensures out { out.new ≡ written out.old (enlisted_at (number_of self.old.transaction) self.old.half e) }
    {
        if self.decided.is_some() {
            return;
        }
        if self.hand_on(&ProxyNews::Enlisted(e), out) == HandoverAct::Over {
            self.give_all(out);
        } else if self.handover.is_over() {
            self.place(e, out);
        }
    }

    /// Decides, unless it was decided.
    fn learn(&mut self, o: Outcome, out: &mut Outbox)
        requires { IsRoom 34 0 out.old }
        ensures state { self.new ≡ after [] self.old (unless_decided self.old.half (decide self.old.half o)) }
        ensures out { out.new ≡ written out.old (unless_decided self.old.half (decide self.old.half o)) }
    {
        if self.decided.is_none() {
            self.decide(o, out);
        }
    }

    /// After a refusal: a veto, unless it was decided.
    fn refused(&mut self, out: &mut Outbox)
        requires { IsRoom 35 1 out.old }
        ensures state { self.new ≡ after [] self.old (refused_by self.old.half) }
        ensures out { out.new ≡ written out.old (refused_by self.old.half) }
    {
        if self.decided.is_none() {
            self.veto(out);
        }
    }

    /// Tells an enlistment of an abort, where it stands, wasn't told and isn't lost.
    fn tell_abort(&mut self, e: EnlNo, out: &mut Outbox)
        requires { IsRoom 1 0 out.old }
        ensures state { self.new ≡ after [] self.old (told_abort self.old.half e) }
        ensures out { out.new ≡ written out.old (told_abort self.old.half e) }
    {
        if self.stands(e) && !self.was_told(e) && !self.is_gone(e) {
            self.write(Entry::Told(Party::Enl(e), Outcome::Aborted), out);
        }
    }

    /// After the abort of an enlistment: over its own connection it is told, and that decides; after it came back it is told.
    fn aborted_for(&mut self, c: Conn, e: EnlNo, out: &mut Outbox)
        requires { IsRoom 35 0 out.old }
        ensures state { self.new ≡ after [] self.old (aborted_for self.old.half c e) }
        ensures out { out.new ≡ written out.old (aborted_for self.old.half c e) }
    {
        if let Conn::Again(_) = c {
            self.write(Entry::Told(Party::Enl(e), Outcome::Aborted), out);
            return;
        }
        self.tell_abort(e, out);
        self.learn(Outcome::Aborted, out);
    }

    /// After SINGLE: the commit is handed to the enlistment, unless an abort was decided or it is lost. Then SINGLE is used up.
    fn hand_over(&mut self, e: EnlNo, out: &mut Outbox)
        requires { IsRoom 1 0 out.old }
        ensures state { self.new ≡ after [] self.old (handed_by self.old.half e) }
        ensures out { out.new ≡ written out.old (handed_by self.old.half e) }
    {
        if self.decided != Some(Outcome::Aborted) && !self.is_gone(e) {
            self.write(Entry::Handed(e), out);
        }
    }

    /// After the end of b or v: after yes it is in doubt once both are seen down; before it this is a veto.
    fn ended_there(&mut self, out: &mut Outbox)
        requires { IsRoom 35 1 out.old }
        ensures state { self.new ≡ after [] self.old (ended_there self.old.half) }
        ensures out { out.new ≡ written out.old (ended_there self.old.half) }
    {
        if !self.yes {
            self.veto(out);
        } else if self.proxy.saw_end(Conn::Begin) && self.proxy.saw_end(Conn::Voter) {
            self.decide(Outcome::InDoubt, out);
        }
    }

    /// After the end of a connection: unless it was decided, that of b or v, or of an enlistment that hasn't voted, is a veto before yes.
    fn ended(&mut self, c: Conn, out: &mut Outbox)
        requires { IsRoom 35 1 out.old }
        ensures state { self.new ≡ after [] self.old (ended_by self.old.half c) }
        ensures out { out.new ≡ written out.old (ended_by self.old.half c) }
    {
        if self.decided.is_some() {
            return;
        }
        match c {
            Conn::Begin | Conn::Voter => self.ended_there(out),
            Conn::Enl(e) => {
                if !self.yes && !self.table.has_voted(e) {
                    self.veto(out);
                }
            }
            Conn::Again(_) => {}
        }
    }

    /// Does what the news of a connection call for.
    fn take_news(&mut self, c: Conn, news: &ProxyNews, out: &mut Outbox)
        requires { HasRoom out.old }
        ensures state { self.new ≡ after [] self.old (told_by (number_of self.old.transaction) self.old.half c news.now) }
        ensures out { out.new ≡ written out.old (told_by (number_of self.old.transaction) self.old.half c news.now) }
    {
        match *news {
            ProxyNews::Begun(id) => self.begun(id, out),
            ProxyNews::Created => self.created(out),
            ProxyNews::Enlisted(e) => self.enlisted(e, out),
            ProxyNews::Refused(_, _) => self.refused(out),
            ProxyNews::AskVote => {}
            ProxyNews::PrepareFor(e) => self.write(Entry::Asked(e, Ask::Prepare), out),
            ProxyNews::CommitFor(e) => self.write(
                Entry::Told(Party::Enl(e), Outcome::Committed),
                out,
            ),
            ProxyNews::AbortFor(e) => self.aborted_for(c, e, out),
            ProxyNews::SingleFor(e) => self.hand_over(e, out),
            ProxyNews::OutcomeIs(o) => self.learn(o, out),
            ProxyNews::Lost(_) | ProxyNews::AllLost | ProxyNews::Unfit => self.ended(c, out),
        }
    }

    /// Takes a message of the coordinator, and does what follows of it; false exactly where it has no line
    /// on its connection: then the connection has ended.
    ///
    /// The entry of the message isn't written here: `got` writes what follows of it.
    pub fn got(&mut self, c: Conn, m: Message, out: &mut Outbox) -> bool
        requires room { HasRoom out.old }
        ensures fits { result ≡ has_line c Down m }
        ensures state { self.new ≡ after [] self.old (Got c Down m ∷ local_got (number_of self.old.transaction) self.old.half c m) }
        ensures out { out.new ≡ written out.old (local_got (number_of self.old.transaction) self.old.half c m) }
    {
        let news = self.hear(c, m);
        self.take_news(c, &news, out);
        has_line(c, Dir::Down, m)
    }

    /// Takes the end of a connection, and does what follows of it. Its entry isn't written here.
    pub fn down(&mut self, c: Conn, out: &mut Outbox)
        requires room { HasRoom out.old }
        ensures state { self.new ≡ after [] self.old (Ended c Down ∷ local_down self.old.half c) }
        ensures out { out.new ≡ written out.old (local_down self.old.half c) }
    {
        self.hear_end(c);
        self.ended(c, out);
    }
}
