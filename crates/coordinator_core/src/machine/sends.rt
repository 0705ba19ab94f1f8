//! What the coordinator sends. A message is sent only on a connection that is known.
ghost use Rattle.std.specs.Prelude.{◌≡◌, ◌++◌, [], if◌then◌else◌};
ghost use Rattle.dtx_values.specs.Outgoing.{written};
ghost use Rattle.dtx_values.specs.declared.message.Conn.TheVariants.{Again, Begin, Enl, Voter};
ghost use Rattle.dtx_values.specs.declared.message.Message.TheVariants.{EnlistPrepare, VoterAbort, VoterAsk};
ghost use Rattle.dtx_model.specs.declared.desk.Stage.TheVariants.{Aborted};
ghost use Rattle.dtx_model.specs.Coordinated.{abort_sends, commit_sends, follow_all, is_active, to, to_each, to_waiting};
ghost use Rattle.coordinator_core.specs.Hearing.{hears, told};
ghost use Rattle.coordinator_core.specs.Kept.{HasRoomFor, Uses, abort_block, aborted_if, off_block, staged_if};

use super::Core;
use crate::ballots::hears;
use crate::lists::{keep_unreached, leave};
use crate::stages::{is_active, is_undecided};
use crate::writer::send_down;
use dtx_model::{Desk, Stage};
use dtx_values::{Conn, EnlNo, Message, Outbox};

#[tactic(auto, using(crate::proofs::Writing::outgoing))]
impl Core {
    /// Sends a message.
    pub(super) fn send(&self, c: Conn, m: Message, out: &mut Outbox)
        requires { HasRoomFor 1 out.old }
        ensures out { out.new ≡ written out.old (to self.now.state c m) }
        ensures used { Uses 1 out.old out.new }
    {
        if self.knows(c) {
            send_down(c, m, out);
        }
    }

    /// Sends a message to an enlistment, where it hears it.
    fn send_to(&self, d: &Desk, m: Message, out: &mut Outbox)
        requires { HasRoomFor 1 out.old }
        ensures out { out.new ≡ written out.old (if hears m d.now.ballot then to self.now.state (Enl d.now.enlistment) m else []) }
        ensures used { Uses 1 out.old out.new }
    {
        if hears(m, d.ballot) {
            self.send(Conn::Enl(d.enlistment), m, out);
        }
    }

    /// Sends a message to each enlistment that hears it.
    pub(super) fn send_each(&self, m: Message, out: &mut Outbox)
        requires { HasRoomFor 16 out.old }
        ensures out { out.new ≡ written out.old (told self.now.state m self.now.state.desks) }
        ensures used { Uses 16 out.old out.new }
    {
        for d in self.desks() {
            self.send_to(d, m, out);
        }
    }

    /// Sends a message to each that waits.
    fn send_waiting(&self, m: Message, out: &mut Outbox)
        requires { HasRoomFor 16 out.old }
        ensures { out.new ≡ written out.old (to_waiting self.now.state m) }
    {
        for e in self.waits() {
            self.send(Conn::Again(*e), m, out);
        }
    }

    /// Answers each that waits: it waits no longer.
    fn answer_waiting(&mut self, m: Message, out: &mut Outbox)
        requires { HasRoomFor 16 out.old }
        ensures transaction { self.new.transaction ≡ self.old.transaction }
        ensures state { self.new.state ≡ follow_all self.old.state (to_waiting self.old.state m) }
        ensures out { out.new ≡ written out.old (to_waiting self.old.state m) }
    {
        self.send_waiting(m, out);
        keep_unreached(&mut self.waits, self.known.as_slice());
    }

    /// Answers one that came back, where its connection is known: it waits no longer.
    pub(super) fn answer(&mut self, e: EnlNo, m: Message, out: &mut Outbox)
        requires { HasRoomFor 1 out.old }
        ensures transaction { self.new.transaction ≡ self.old.transaction }
        ensures state { self.new.state ≡ follow_all self.old.state (to self.old.state (Again e) m) }
        ensures out { out.new ≡ written out.old (to self.old.state (Again e) m) }
    {
        if self.knows(Conn::Again(e)) {
            send_down(Conn::Again(e), m, out);
            leave(&mut self.waits, e);
        }
    }

    /// Asks the voter and each enlistment to prepare.
    pub(super) fn ask(&self, out: &mut Outbox)
        requires { HasRoomFor 17 out.old }
        ensures { out.new ≡ written out.old (if is_active self.now.state.stage then to self.now.state Voter VoterAsk ++ to_each self.now.state EnlistPrepare self.now.state.desks else []) }
    {
        if is_active(self.stage) {
            self.send(Conn::Voter, Message::VoterAsk, out);
            self.send_each(Message::EnlistPrepare, out);
        }
    }

    /// Tells the voter that it is aborted, unless it said NO.
    fn abort_voter(&self, out: &mut Outbox)
        requires { HasRoomFor 1 out.old }
        ensures out { out.new ≡ written out.old (if self.now.state.no then [] else to self.now.state Voter VoterAbort) }
        ensures used { Uses 1 out.old out.new }
    {
        if !self.no {
            self.send(Conn::Voter, Message::VoterAbort, out);
        }
    }

    /// Tells each that it is aborted: b, the voter unless it said NO, each enlistment that said neither NO nor READONLY, and each
    /// that waits.
    pub(super) fn tell_abort(&mut self, out: &mut Outbox)
        requires { HasRoomFor 34 out.old }
        ensures transaction { self.new.transaction ≡ self.old.transaction }
        ensures state { self.new.state ≡ follow_all self.old.state (abort_sends self.old.state) }
        ensures out { out.new ≡ written out.old (abort_sends self.old.state) }
    {
        self.send(Conn::Begin, Message::BeginAborted, out);
        self.abort_voter(out);
        self.send_each(Message::EnlistAbort, out);
        self.answer_waiting(Message::ReenlistAborted, out);
    }

    /// Aborts and tells each, where the test holds.
    pub(super) fn call_off(&mut self, is_so: bool, out: &mut Outbox)
        requires { HasRoomFor 34 out.old }
        ensures transaction { self.new.transaction ≡ self.old.transaction }
        ensures state { self.new.state ≡ follow_all (staged_if is_so Aborted self.old.state) (off_block is_so self.old.state) }
        ensures out { out.new ≡ written out.old (off_block is_so self.old.state) }
    {
        if is_so {
            self.stage = Stage::Aborted;
            self.tell_abort(out);
        }
    }

    /// Tells each that it is committed: b, the voter, each enlistment that said PREPARED, and each that waits.
    pub(super) fn tell_commit(&mut self, out: &mut Outbox)
        requires { HasRoomFor 34 out.old }
        ensures transaction { self.new.transaction ≡ self.old.transaction }
        ensures state { self.new.state ≡ follow_all self.old.state (commit_sends self.old.state) }
        ensures out { out.new ≡ written out.old (commit_sends self.old.state) }
    {
        self.send(Conn::Begin, Message::BeginCommitted, out);
        self.send(Conn::Voter, Message::VoterCommit, out);
        self.send_each(Message::EnlistCommit, out);
        self.answer_waiting(Message::ReenlistCommitted, out);
    }

    /// Aborts and tells each, where the test holds and nothing is decided.
    pub(super) fn abort_if(&mut self, is_cause: bool, out: &mut Outbox)
        requires { HasRoomFor 34 out.old }
        ensures transaction { self.new.transaction ≡ self.old.transaction }
        ensures state { self.new.state ≡ follow_all (aborted_if is_cause self.old.state) (abort_block is_cause self.old.state) }
        ensures out { out.new ≡ written out.old (abort_block is_cause self.old.state) }
    {
        if is_cause && is_undecided(self.stage) {
            self.stage = Stage::Aborted;
            self.tell_abort(out);
        }
    }
}
