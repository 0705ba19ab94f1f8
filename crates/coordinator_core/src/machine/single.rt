//! The single phase: COMMIT that is the one enlistment's to decide, what that one answers, and its loss.
ghost use Rattle.std.specs.Prelude.{◌≡◌};
ghost use Rattle.dtx_values.specs.Outgoing.{written};
ghost use Rattle.dtx_values.specs.declared.message.Conn.TheVariants.{Begin, Enl, Voter};
ghost use Rattle.dtx_values.specs.declared.message.Message.TheVariants.{BeginCommitOne, EnlistOneAborted, EnlistOneCommitted, EnlistOneInDoubt, VoterYes};
ghost use Rattle.dtx_values.specs.Ends.{same_connection};
ghost use Rattle.dtx_model.specs.declared.desk.Stage.TheVariants.{Answered, Given};
ghost use Rattle.dtx_model.specs.Coordinated.{decides, follow_all, has_desk, hears_one, is_one};
ghost use Rattle.dtx_model.specs.Words.{has};
ghost use Rattle.coordinator_core.specs.Kept.{HasRoomFor, after_got, after_loss, answers, both_told, is_deciding, loss_block, single_sends, sole_block, staged_if};

use super::Core;
use crate::desks::vote_if;
use crate::stages::{is_active, is_given, is_going, is_sole, is_undecided, sole_at};
use dtx_model::{Ballot, Stage};
use dtx_values::{Conn, EnlNo, Message, Outbox};

#[tactic(auto, using(crate::proofs::Writing::outgoing))]
impl Core {
    /// Whether exactly one enlistment was accepted.
    fn has_one(&self) -> bool
        ensures { result ≡ is_one self.now.state.desks }
    {
        self.desks.len() == 1
    }

    /// Whether this enlistment was accepted.
    fn has_desk(&self, e: EnlNo) -> bool
        ensures { result ≡ has_desk self.now.state e.value }
    {
        self.desks.iter().any(|d| d.enlistment == e)
    }

    /// Whether the connection of some enlistment is known.
    fn reaches_any(&self) -> bool
        ensures { result ≡ has (λ d. has (same_connection (Enl d.enlistment)) self.now.state.known) self.now.state.desks }
    {
        self.desks
            .iter()
            .any(|d| self.knows(Conn::Enl(d.enlistment)))
    }

    /// Whether this enlistment decides: SINGLE was sent to it, and no answer came.
    fn decides(&self, e: EnlNo) -> bool
        ensures { result ≡ decides self.now.state e.value }
    {
        is_given(self.stage) && self.has_desk(e)
    }

    /// Whether this enlistment's Aborted counts: it decides, or nothing is decided.
    fn hears_one(&self, e: EnlNo) -> bool
        ensures { result ≡ hears_one self.now.state e.value }
    {
        is_undecided(self.stage) || self.decides(e)
    }

    /// Whether the connection is of the enlistment that decides.
    pub(super) fn is_deciding(&self, c: Conn) -> bool
        ensures { result ≡ is_deciding self.now.state c }
    {
        match c {
            Conn::Enl(e) => self.decides(e),
            _ => false,
        }
    }

    /// COMMIT for a single phase: with exactly one enlistment it is that one's to decide, and the voter is asked. With none or
    /// several it counts as the end of b, which stays known.
    pub(super) fn commit_one_came(&mut self, out: &mut Outbox)
        requires { HasRoomFor 34 out.old }
        ensures kept { self.new ≡ after_got self.old Begin BeginCommitOne }
        ensures out { out.new ≡ written out.old (answers self.old Begin BeginCommitOne) }
    {
        let accepted = self.accepts();
        let is_one = self.has_one();
        self.commit |= is_active(self.stage);
        self.stage = sole_at(accepted, is_one, self.stage);
        self.ask_alone(accepted, is_one, out);
    }

    /// Where COMMIT for a single phase was accepted, asks the voter, or tells each of the abort where there isn't exactly one enlistment.
    fn ask_alone(&mut self, accepted: bool, is_one: bool, out: &mut Outbox)
        requires { HasRoomFor 34 out.old }
        ensures transaction { self.new.transaction ≡ self.old.transaction }
        ensures state { self.new.state ≡ follow_all self.old.state (sole_block accepted is_one self.old.state) }
        ensures out { out.new ≡ written out.old (sole_block accepted is_one self.old.state) }
    {
        if accepted {
            if is_one {
                self.send(Conn::Voter, Message::VoterAsk, out);
            } else {
                self.tell_abort(out);
            }
        }
    }

    /// The voter's YES: it is noted while nothing is decided, and in a single phase SINGLE is sent.
    pub(super) fn yes_came(&mut self, out: &mut Outbox)
        requires { HasRoomFor 16 out.old }
        ensures kept { self.new ≡ after_got self.old Voter VoterYes }
        ensures out { out.new ≡ written out.old (answers self.old Voter VoterYes) }
    {
        self.yes |= is_going(self.stage);
        self.give(out);
    }

    /// Sends SINGLE to the one enlistment, where COMMIT for a single phase was got: it decides from then on.
    fn give(&mut self, out: &mut Outbox)
        requires { HasRoomFor 16 out.old }
        ensures transaction { self.new.transaction ≡ self.old.transaction }
        ensures state { self.new.state ≡ follow_all self.old.state (single_sends self.old.state) }
        ensures out { out.new ≡ written out.old (single_sends self.old.state) }
    {
        if is_sole(self.stage) {
            self.send_each(Message::EnlistSingle, out);
            self.mark_given();
        }
    }

    /// Marks that its one enlistment decides, where SINGLE was sent.
    fn mark_given(&mut self)
        ensures transaction { self.new.transaction ≡ self.old.transaction }
        ensures state { self.new.state ≡ staged_if (has (λ d. has (same_connection (Enl d.enlistment)) self.old.state.known) self.old.state.desks) Given self.old.state }
    {
        if self.reaches_any() {
            self.stage = Stage::Given;
        }
    }

    /// The one that decides said committed: b and v are told.
    pub(super) fn one_committed_came(&mut self, e: EnlNo, out: &mut Outbox)
        requires { HasRoomFor 2 out.old }
        ensures kept { self.new ≡ after_got self.old (Enl e) EnlistOneCommitted }
        ensures out { out.new ≡ written out.old (answers self.old (Enl e) EnlistOneCommitted) }
    {
        let is_so = self.decides(e);
        self.settle(is_so, Message::BeginCommitted, Message::VoterCommit, out);
    }

    /// The one that decides said in doubt: b and v are told.
    pub(super) fn one_in_doubt_came(&mut self, e: EnlNo, out: &mut Outbox)
        requires { HasRoomFor 2 out.old }
        ensures kept { self.new ≡ after_got self.old (Enl e) EnlistOneInDoubt }
        ensures out { out.new ≡ written out.old (answers self.old (Enl e) EnlistOneInDoubt) }
    {
        let is_so = self.decides(e);
        self.settle(is_so, Message::BeginInDoubt, Message::VoterInDoubt, out);
    }

    /// The one that decides said aborted, or one did while nothing is decided: it counts as its NO.
    pub(super) fn one_aborted_came(&mut self, e: EnlNo, out: &mut Outbox)
        requires { HasRoomFor 34 out.old }
        ensures kept { self.new ≡ after_got self.old (Enl e) EnlistOneAborted }
        ensures out { out.new ≡ written out.old (answers self.old (Enl e) EnlistOneAborted) }
    {
        let counts = self.hears_one(e);
        vote_if(&mut self.desks, counts, e, Ballot::Refused);
        self.call_off(counts, out);
    }

    /// Where the test holds nothing more comes of the transaction in this life, and b and v are told this.
    fn settle(&mut self, is_so: bool, to_begin: Message, to_voter: Message, out: &mut Outbox)
        requires { HasRoomFor 2 out.old }
        ensures transaction { self.new.transaction ≡ self.old.transaction }
        ensures state { self.new.state ≡ staged_if is_so Answered self.old.state }
        ensures out { out.new ≡ written out.old (both_told is_so to_begin to_voter self.old.state) }
    {
        if is_so {
            self.stage = Stage::Answered;
            self.send(Conn::Begin, to_begin, out);
            self.send(Conn::Voter, to_voter, out);
        }
    }

    /// After the end of a connection: a doubt, where it was that of the one that decides; else an abort, where it came early.
    pub(super) fn lose(&mut self, is_doubt: bool, is_early: bool, out: &mut Outbox)
        requires { HasRoomFor 34 out.old }
        ensures transaction { self.new.transaction ≡ self.old.transaction }
        ensures state { self.new.state ≡ after_loss is_doubt is_early self.old.state }
        ensures out { out.new ≡ written out.old (loss_block is_doubt is_early self.old.state) }
    {
        if is_doubt {
            self.settle(true, Message::BeginInDoubt, Message::VoterInDoubt, out);
        } else {
            self.abort_if(is_early, out);
        }
    }
}
