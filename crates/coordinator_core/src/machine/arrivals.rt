//! What the coordinator does on a message, and on an end.
ghost use Rattle.std.specs.Prelude.{◌≡◌, ◌<◌, ◌∷◌, false, length};
ghost use Rattle.dtx_values.specs.Lines.{has_line};
ghost use Rattle.dtx_values.specs.TxIds.{number_of};
ghost use Rattle.dtx_values.specs.Outgoing.{written};
ghost use Rattle.dtx_values.specs.declared.entry.Entry.TheVariants.{Down as End, Got};
ghost use Rattle.dtx_values.specs.declared.limits.TheConstants.{CONNECTIONS, DURABLES};
ghost use Rattle.dtx_values.specs.declared.message.Conn.TheVariants.{Again, Begin, Enl, Voter};
ghost use Rattle.dtx_values.specs.declared.message.Dir.TheVariants.{Up};
ghost use Rattle.dtx_values.specs.declared.message.Message.TheVariants.{BeginBegin, BeginBegun, BeginCommit, VoterNo, VoterCreated, VoterAbort, VoterRefused, EnlistEnlist, EnlistNo, EnlistEnlisted, EnlistAbort, EnlistRefused};
ghost use Rattle.dtx_model.specs.Coordinated.{but, core_down, core_got, follow, follow_all, opening_answer, to, without};
ghost use Rattle.dtx_model.specs.Promotes.{identifier_of};
ghost use Rattle.coordinator_core.specs.Kept.{HasRoom, HasRoomFor, IsFew, after_got, answers, came_back, opened, outcome_for, voted};

use super::Core;
use crate::desks::{acknowledge, seat_if, vote_if};
use crate::lists::{close, leave_if, open, wait};
use crate::stages::{Opening, begun, has_aborted, is_active, is_going, is_recorded, opening_at};
use dtx_model::{Ballot, Desk};
use dtx_values::{Conn, EnlNo, Info, Message, Outbox};

#[tactic(auto, using(crate::proofs::Writing::outgoing), unfolding(dtx_model::specs::Coordinated::core_got, dtx_model::specs::Coordinated::follow, dtx_model::specs::Coordinated::follow_all))]
impl Core {
    /// BEGIN: the transaction is active, and BEGUN says its identifier.
    fn begin_came(&mut self, id: u128, out: &mut Outbox)
        requires place { length (without Begin self.old.state.known) < CONNECTIONS }
        requires room { HasRoomFor 1 out.old }
        ensures transaction { self.new.transaction ≡ self.old.transaction }
        ensures state { self.new.state ≡ follow self.old.state (Got Begin Up BeginBegin) }
        ensures out { out.new ≡ written out.old (to self.new.state Begin (BeginBegun id)) }
    {
        open(&mut self.known, Conn::Begin);
        self.stage = begun(self.stage);
        self.send(Conn::Begin, Message::BeginBegun(id), out);
    }

    /// COMMIT: it is noted while the transaction is active, and each is asked to prepare.
    fn commit_came(&mut self, out: &mut Outbox)
        requires { HasRoomFor 17 out.old }
        ensures kept { self.new ≡ after_got self.old Begin BeginCommit }
        ensures out { out.new ≡ written out.old (answers self.old Begin BeginCommit) }
    {
        self.commit |= is_active(self.stage);
        self.ask(out);
    }

    /// VOTER: the connection is known from here on, and is answered.
    fn voter_came(&mut self, out: &mut Outbox)
        requires place { length (without Voter self.old.state.known) < CONNECTIONS }
        requires room { HasRoomFor 1 out.old }
        ensures transaction { self.new.transaction ≡ self.old.transaction }
        ensures state { self.new.state ≡ opened Voter self.old.state }
        ensures out { out.new ≡ written out.old (to self.new.state Voter (opening_answer self.old.state VoterCreated VoterAbort VoterRefused)) }
    {
        open(&mut self.known, Conn::Voter);
        let answer = self.voter_answer();
        self.send(Conn::Voter, answer, out);
    }

    /// The answer to VOTER.
    fn voter_answer(&self) -> Message
        ensures { result ≡ opening_answer self.now.state VoterCreated VoterAbort VoterRefused }
    {
        match opening_at(self.stage, self.commit) {
            Opening::Accepted => Message::VoterCreated,
            Opening::Aborted => Message::VoterAbort,
            Opening::TooLate => Message::VoterRefused(1),
            Opening::NoSuch => Message::VoterRefused(2),
        }
    }

    /// The voter's NO, noted while nothing is decided: the transaction aborts, and the voter needn't hear it.
    fn no_came(&mut self, out: &mut Outbox)
        requires { HasRoomFor 34 out.old }
        ensures kept { self.new ≡ after_got self.old Voter VoterNo }
        ensures out { out.new ≡ written out.old (answers self.old Voter VoterNo) }
    {
        self.no |= is_going(self.stage);
        self.abort_if(true, out);
    }

    /// ENLIST: the connection is known from here on, and is answered. Where the enlistment is accepted, it takes part.
    fn enlist_came(&mut self, e: EnlNo, i: Info, out: &mut Outbox)
        requires few { IsFew (follow self.old.state (Got (Enl e) Up (EnlistEnlist i))) }
        requires room { HasRoomFor 1 out.old }
        ensures transaction { self.new.transaction ≡ self.old.transaction }
        ensures state { self.new.state ≡ follow self.old.state (Got (Enl e) Up (EnlistEnlist i)) }
        ensures out { out.new ≡ written out.old (to self.new.state (Enl e) (opening_answer self.old.state EnlistEnlisted EnlistAbort EnlistRefused)) }
    {
        let accepted = self.accepts();
        let desk = Desk {
            enlistment: e,
            manager: i.rm,
            ballot: None,
            acked: false,
        };
        seat_if(&mut self.desks, accepted, desk);
        open(&mut self.known, Conn::Enl(e));
        let answer = self.enlist_answer();
        self.send(Conn::Enl(e), answer, out);
    }

    /// The answer to ENLIST.
    fn enlist_answer(&self) -> Message
        ensures { result ≡ opening_answer self.now.state EnlistEnlisted EnlistAbort EnlistRefused }
    {
        match opening_at(self.stage, self.commit) {
            Opening::Accepted => Message::EnlistEnlisted,
            Opening::Aborted => Message::EnlistAbort,
            Opening::TooLate => Message::EnlistRefused(1),
            Opening::NoSuch => Message::EnlistRefused(2),
        }
    }

    /// Notes the vote of an enlistment, while the transaction is active.
    fn vote(&mut self, e: EnlNo, b: Ballot)
        ensures transaction { self.new.transaction ≡ self.old.transaction }
        ensures state { self.new.state ≡ voted e.value b self.old.state }
    {
        let counts = is_active(self.stage);
        vote_if(&mut self.desks, counts, e, b);
    }

    /// NO of an enlistment: the transaction aborts, and the enlistment needn't hear it.
    fn refusal_came(&mut self, e: EnlNo, out: &mut Outbox)
        requires { HasRoomFor 34 out.old }
        ensures kept { self.new ≡ after_got self.old (Enl e) EnlistNo }
        ensures out { out.new ≡ written out.old (answers self.old (Enl e) EnlistNo) }
    {
        self.vote(e, Ballot::Refused);
        self.abort_if(true, out);
    }

    /// REENLIST: the connection is known from here on. It hears the outcome, or waits for it.
    fn reenlist_came(&mut self, e: EnlNo, out: &mut Outbox)
        requires connection { length (without (Again e) self.old.state.known) < CONNECTIONS }
        requires place { length (but e.value self.old.state.waits) < DURABLES }
        requires room { HasRoomFor 1 out.old }
        ensures transaction { self.new.transaction ≡ self.old.transaction }
        ensures state { self.new.state ≡ follow_all (came_back e self.old.state) (outcome_for e (came_back e self.old.state)) }
        ensures out { out.new ≡ written out.old (outcome_for e (came_back e self.old.state)) }
    {
        open(&mut self.known, Conn::Again(e));
        wait(&mut self.waits, e);
        if is_recorded(self.stage) {
            self.answer(e, Message::ReenlistCommitted, out);
        } else if has_aborted(self.stage) {
            self.answer(e, Message::ReenlistAborted, out);
        }
    }

    /// A message that has no line on its connection counts as the connection's end.
    fn unlined_came(&mut self, c: Conn, m: Message, out: &mut Outbox)
        requires line { has_line c Up m ≡ false }
        requires room { HasRoom out.old }
        ensures kept { self.new ≡ after_got self.old c m }
        ensures out { out.new ≡ written out.old (answers self.old c m) }
    {
        self.down(c, out);
    }

    /// What follows of a message on b.
    fn got_begin(&mut self, m: Message, out: &mut Outbox) -> bool
        requires few { IsFew (follow self.old.state (Got Begin Up m)) }
        requires room { HasRoom out.old }
        ensures fits { result ≡ has_line Begin Up m }
        ensures kept { self.new ≡ after_got self.old Begin m }
        ensures out { out.new ≡ written out.old (answers self.old Begin m) }
    {
        match m {
            Message::BeginBegin => self.begin_came(self.identifier(), out),
            Message::BeginCommit => self.commit_came(out),
            Message::BeginCommitOne => self.commit_one_came(out),
            Message::BeginAbort => self.abort_if(true, out),
            _ => {
                self.unlined_came(Conn::Begin, m, out);
                return false;
            }
        }
        true
    }

    /// What follows of a message on v.
    fn got_voter(&mut self, m: Message, out: &mut Outbox) -> bool
        requires few { IsFew (follow self.old.state (Got Voter Up m)) }
        requires room { HasRoom out.old }
        ensures fits { result ≡ has_line Voter Up m }
        ensures kept { self.new ≡ after_got self.old Voter m }
        ensures out { out.new ≡ written out.old (answers self.old Voter m) }
    {
        match m {
            Message::VoterVoter(_) => self.voter_came(out),
            Message::VoterYes => self.yes_came(out),
            Message::VoterNo => self.no_came(out),
            _ => {
                self.unlined_came(Conn::Voter, m, out);
                return false;
            }
        }
        true
    }

    /// What follows of a message on the connection of an enlistment.
    fn got_enlist(&mut self, e: EnlNo, m: Message, out: &mut Outbox) -> bool
        requires few { IsFew (follow self.old.state (Got (Enl e) Up m)) }
        requires room { HasRoom out.old }
        ensures fits { result ≡ has_line (Enl e) Up m }
        ensures kept { self.new ≡ after_got self.old (Enl e) m }
        ensures out { out.new ≡ written out.old (answers self.old (Enl e) m) }
    {
        match m {
            Message::EnlistEnlist(i) => self.enlist_came(e, i, out),
            Message::EnlistPrepared => self.vote(e, Ballot::Prepared),
            Message::EnlistReadonly => self.vote(e, Ballot::ReadOnly),
            Message::EnlistNo => self.refusal_came(e, out),
            Message::EnlistAck => acknowledge(&mut self.desks, e),
            Message::EnlistOneCommitted => self.one_committed_came(e, out),
            Message::EnlistOneAborted => self.one_aborted_came(e, out),
            Message::EnlistOneInDoubt => self.one_in_doubt_came(e, out),
            _ => {
                self.unlined_came(Conn::Enl(e), m, out);
                return false;
            }
        }
        true
    }

    /// What follows of a message on the connection of one that came back.
    fn got_again(&mut self, e: EnlNo, m: Message, out: &mut Outbox) -> bool
        requires few { IsFew (follow self.old.state (Got (Again e) Up m)) }
        requires room { HasRoom out.old }
        ensures fits { result ≡ has_line (Again e) Up m }
        ensures kept { self.new ≡ after_got self.old (Again e) m }
        ensures out { out.new ≡ written out.old (answers self.old (Again e) m) }
    {
        match m {
            Message::ReenlistReenlist(_) => self.reenlist_came(e, out),
            Message::ReenlistAck => acknowledge(&mut self.desks, e),
            _ => {
                self.unlined_came(Conn::Again(e), m, out);
                return false;
            }
        }
        true
    }

    /// What follows of a message, which the caller wrote as got. False where the connection doesn't carry the message: that counts as
    /// the connection's end.
    pub fn got(&mut self, c: Conn, m: Message, out: &mut Outbox) -> bool
        requires few { IsFew (follow self.old.state (Got c Up m)) }
        requires room { HasRoom out.old }
        ensures fits { result ≡ has_line c Up m }
        ensures transaction { self.new.transaction ≡ self.old.transaction }
        ensures state { self.new.state ≡ follow_all self.old.state (Got c Up m ∷ core_got (identifier_of (number_of self.old.transaction)) self.old.state c m) }
        ensures out { out.new ≡ written out.old (core_got (identifier_of (number_of self.old.transaction)) self.old.state c m) }
    {
        match c {
            Conn::Begin => self.got_begin(m, out),
            Conn::Voter => self.got_voter(m, out),
            Conn::Enl(e) => self.got_enlist(e, m, out),
            Conn::Again(e) => self.got_again(e, m, out),
        }
    }

    /// What follows of a connection's end, which the caller wrote as seen.
    pub fn down(&mut self, c: Conn, out: &mut Outbox)
        requires { HasRoom out.old }
        ensures transaction { self.new.transaction ≡ self.old.transaction }
        ensures state { self.new.state ≡ follow_all self.old.state (End c Up ∷ core_down self.old.state c) }
        ensures out { out.new ≡ written out.old (core_down self.old.state c) }
    {
        let is_doubt = self.is_deciding(c);
        let is_early = self.is_early(c);
        close(&mut self.known, c);
        leave_if(&mut self.waits, c);
        self.lose(is_doubt, is_early, out);
    }
}
