//! The replies that are due, and what a reply writes.
ghost use Rattle.std.specs.Prelude.{◌≡◌, [], ◌∷◌, None, Some, false, find, is_some, map, true};
ghost use Rattle.dtx_values.specs.Outgoing.{written};
ghost use Rattle.dtx_values.specs.TxIds.{number_of};
ghost use Rattle.dtx_values.specs.Table.{rises_above, was_asked};
ghost use Rattle.dtx_values.specs.declared.entry.Entry.TheVariants.{Acked};
ghost use Rattle.dtx_values.specs.declared.note.Reply.TheVariants.{Vote as VoteReply};
ghost use Rattle.dtx_model.specs.Replies.{ack_on, all_due, answered_by, conn_due, due_of, fits, is_unsettled, is_volatile_row, may_still_answer, may_still_vote, note_at, note_of_conn, one_message, owes_outcome, owes_promotion, owes_request, owes_vote, owner_entries, promote_entries, reply_entries, request_message, request_of, row_note, vote_message, voted_by, with_note};
ghost use Rattle.dtx_model.specs.Steps.{Replies, after as world_after};
ghost use Rattle.dtx_model.specs.Words.{kth};
ghost use Rattle.dtx_model.specs.World.{World};
ghost use Rattle.dtx_values.specs.declared.row.Row.{Row};
ghost use Rattle.enlist_table.specs.Waiting.{is_waiting};
ghost use Rattle.half_parts.specs.Half.{Follows, HasRoom, IsRoom, after, first_due, fits_due, lower, may_owe, owes_more};

use super::LocalHalf;
use dtx_values::{
    Class, Conn, Dir, EnlNo, Entry, Message, Note, Outbox, Outcome, Reply, Request, Row, Vote,
};
use half_parts::branches::{branch_at, branch_of, owe_ack};

/// The message of a durable or promotable enlistment's vote.
fn vote_message(v: Vote) -> Message
    ensures { result ≡ vote_message v }
{
    match v {
        Vote::Yes => Message::EnlistPrepared,
        Vote::No => Message::EnlistNo,
        Vote::Done => Message::EnlistReadonly,
    }
}

/// What is requested of the coordinator for an owner's answer.
fn request_of(o: Outcome) -> Request
    ensures { result ≡ request_of o }
{
    match o {
        Outcome::Aborted => Request::Abort,
        _ => Request::Commit,
    }
}

/// The message of the request.
fn request_message(o: Outcome) -> Message
    ensures { result ≡ request_message o }
{
    match o {
        Outcome::Aborted => Message::BeginAbort,
        _ => Message::BeginCommit,
    }
}

/// What is said to the coordinator for an owner's answer.
fn one_message(o: Outcome) -> Message
    ensures { result ≡ one_message o }
{
    match o {
        Outcome::Committed => Message::EnlistOneCommitted,
        Outcome::Aborted => Message::EnlistOneAborted,
        Outcome::InDoubt => Message::EnlistOneInDoubt,
    }
}

/// Whether nothing is decided, or that it is in doubt.
fn is_unsettled(decided: Option<Outcome>) -> bool
    ensures { result ≡ is_unsettled decided }
{
    matches!(decided, None | Some(Outcome::InDoubt))
}

/// The one of the lower number; the second where the numbers are the same.
fn lower(x: Option<(EnlNo, Note)>, y: Option<(EnlNo, Note)>) -> Option<(EnlNo, Note)>
    ensures { result ≡ lower x y }
{
    match (x, y) {
        (Some(a), Some(b)) => {
            if a.0.get() < b.0.get() {
                Some(a)
            } else {
                Some(b)
            }
        }
        (Some(a), None) => Some(a),
        (None, y) => y,
    }
}

#[tactic(auto, using(half_parts::proofs::Writing::outgoing), unfolding(dtx_model::specs::Observed::track, dtx_model::specs::Half::heeds_all))]
impl LocalHalf {
    /// The connection of the last commit that the enlistment has to acknowledge.
    fn conn_due(&self, e: EnlNo) -> Option<Conn>
        ensures { result ≡ conn_due self.now.half.seen e.value }
    {
        branch_of(&self.branches, e)?.due
    }

    /// To what a reply of the enlistment is due; `None` exactly where none is.
    #[tactic(auto, unfolding(dtx_model::specs::Replies::due_of))]
    pub fn due_of(&self, e: EnlNo) -> Option<Note>
        ensures { result ≡ due_of self.now.half.seen e.value }
    {
        if self.is_gone(e) {
            return None;
        }
        if let Some(x) = self.table.state_of(e) {
            if let Some(note) = self.row_note(&x) {
                return Some(note);
            }
        }
        self.ack_note(e)
    }

    /// To what a reply of the enlistment with this row is due; `None` exactly where none is.
    pub fn due_note(&self, x: &Row) -> Option<Note>
        ensures { result ≡ note_at self.now.half.seen x.now.number.value (Some x.now) }
    {
        if self.is_gone(x.number) {
            return None;
        }
        if let Some(note) = self.row_note(x) {
            return Some(note);
        }
        self.ack_note(x.number)
    }

    /// The note to which an acknowledgement is due.
    fn ack_note(&self, e: EnlNo) -> Option<Note>
        ensures { result ≡ note_of_conn (conn_due self.now.half.seen e.value) }
    {
        match self.conn_due(e) {
            Some(_) => Some(Note::Commit),
            None => None,
        }
    }

    /// Whether a vote of the enlistment with this row may still come: a volatile's until something is decided, another's until it was told
    /// or the end of its connection is seen.
    fn may_still_vote(&self, x: &Row) -> bool
        ensures { result ≡ may_still_vote self.now.half.seen x.now }
    {
        if x.class.is_volatile() {
            self.decided.is_none()
        } else {
            self.proxy.knows(Conn::Enl(x.number)) && !self.was_told(x.number)
        }
    }

    /// Whether a vote of the enlistment with this row is due.
    fn owes_vote(&self, x: &Row) -> bool
        ensures { result ≡ owes_vote self.now.half.seen x.now }
    {
        x.is_marked() && !x.has_voted() && self.may_still_vote(x)
    }

    /// Whether the promotable with this row was asked to promote, and its reply is due.
    fn owes_promotion(&self, x: &Row) -> bool
        ensures { result ≡ owes_promotion self.now.half.seen x.now }
    {
        self.promote_asked
            && !self.promote_replied
            && x.class == Class::Promotable
            && self.decided.is_none()
    }

    /// Whether the promotable with this row was asked to commit in a single phase, and its answer is due.
    fn owes_request(&self, x: &Row) -> bool
        ensures { result ≡ owes_request self.now.half.seen x.now }
    {
        self.single_asked
            && !self.requested
            && x.class == Class::Promotable
            && self.decided.is_none()
    }

    /// Whether the owner's answer may still come: until something is decided. Of an owner that the coordinator let decide it may come until
    /// it came, also where the local side is in doubt.
    fn may_still_answer(&self) -> bool
        ensures { result ≡ may_still_answer self.now.half.seen }
    {
        if self.handover.is_over() {
            !self.answered && is_unsettled(self.decided)
        } else {
            self.decided.is_none()
        }
    }

    /// Whether the enlistment with this row was handed the commit, and its answer is due.
    fn owes_outcome(&self, x: &Row) -> bool
        ensures { result ≡ owes_outcome self.now.half.seen x.now }
    {
        self.is_handed(x.number) && self.may_still_answer()
    }

    /// To what a reply of the enlistment with this row is due where it isn't lost, acknowledgements left out.
    fn row_note(&self, x: &Row) -> Option<Note>
        ensures { result ≡ row_note self.now.half.seen x.now }
    {
        if self.owes_vote(x) {
            return Some(Note::Prepare);
        }
        if self.owes_promotion(x) {
            return Some(Note::Promote);
        }
        if self.owes_outcome(x) {
            return Some(Note::Hand);
        }
        if self.owes_request(x) {
            return Some(Note::Single);
        }
        None
    }

    /// Whether the commit was handed over, a promotable was asked and didn't reply, or a commit wasn't acknowledged.
    fn owes_more(&self) -> bool
        ensures { result ≡ owes_more self.now.half.seen }
    {
        self.handed.is_some()
            || (self.promote_asked && !self.promote_replied)
            || (self.single_asked && !self.requested)
            || owe_ack(&self.branches)
    }

    /// Whether something else than votes may be due. Where nothing else may, nothing is due of a row that wasn't asked to prepare, or voted.
    pub fn may_owe_more(&self) -> bool
        ensures exact { result ≡ owes_more self.now.half.seen }
        ensures votes { result ≡ false → (x : Row) → is_waiting x ≡ false → note_at self.now.half.seen x.number.value (Some x) ≡ None }
    {
        self.owes_more()
    }

    /// Whether a vote is awaited, or something else may be due.
    fn may_owe(&self) -> bool
        ensures { result ≡ may_owe self.now.half.seen }
    {
        self.table.waits() || self.owes_more()
    }

    /// Whether a reply may be due: a vote is awaited, the commit was handed over, a promotable was asked and
    /// didn't reply, or a commit wasn't acknowledged. Where none may be, the rows needn't be looked through.
    pub fn may_be_due(&self) -> bool
        ensures exact { result ≡ may_owe self.now.half.seen }
        ensures none { result ≡ false → all_due self.now.half.seen ≡ [] }
    {
        self.may_owe()
    }

    /// The numbers of the rows rise.
    fn rows_rise(&self)
        ensures { rises_above 0 self.now.half.seen.table ≡ true }
    {
        let _ = self.table.rows();
    }

    /// The lowest enlistment with a row of which a reply is due, with the note.
    fn first_by_rows(&self) -> Option<(EnlNo, Note)>
        ensures { result ≡ first_due self.now.half.seen (map (λ x. x.number) self.now.half.seen.table) }
    {
        for x in self.table.rows() {
            if let Some(note) = self.due_note(x) {
                return Some((x.number, note));
            }
        }
        None
    }

    /// The enlistment with the note to which a reply of it is due.
    fn with_note(&self, e: EnlNo) -> Option<(EnlNo, Note)>
        ensures { result ≡ with_note e (due_of self.now.half.seen e.value) }
    {
        let note = self.due_of(e)?;
        Some((e, note))
    }

    /// The lowest enlistment of which a reply is due, with the note; `None` exactly where none is due.
    pub fn due(&self) -> Option<(EnlNo, Note)>
        ensures { result ≡ kth (all_due self.now.half.seen) 1 }
    {
        self.rows_rise();
        let mut first = self.first_by_rows();
        let mut i = self.branches.len();
        while i > 0 {
            i -= 1;
            let b = branch_at(&self.branches, i);
            first = lower(self.with_note(b.enlistment), first);
        }
        first
    }

    /// Whether the reply fits the note to which one of the enlistment is due. Where none is due, each
    /// fits, and `reply` answers false.
    pub fn fits(&self, e: EnlNo, r: Reply) -> bool
        ensures { result ≡ fits_due r (due_of self.now.half.seen e.value) }
    {
        match (self.due_of(e), r) {
            (None, _) => true,
            (Some(Note::Prepare), Reply::Vote(_))
            | (Some(Note::Promote), Reply::Promote(_))
            | (Some(Note::Hand | Note::Single), Reply::Owner(_))
            | (Some(Note::Commit), Reply::Ack) => true,
            _ => false,
        }
    }

    /// Whether the enlistment is volatile.
    fn is_volatile(&self, e: EnlNo) -> bool
        ensures { result ≡ is_volatile_row self.now.half.seen e.value }
    {
        self.table
            .rows()
            .iter()
            .any(|x| x.number == e && x.class.is_volatile())
    }

    /// Writes what follows of a vote: a volatile's No is a veto, and a durable or promotable sends its vote.
    fn after_vote(&mut self, e: EnlNo, v: Vote, out: &mut Outbox)
        requires { IsRoom 35 1 out.old }
        ensures state { self.new ≡ after [] self.old (voted_by self.old.half e v) }
        ensures out { out.new ≡ written out.old (voted_by self.old.half e v) }
    {
        if self.is_volatile(e) {
            self.veto_if(v.is_no(), out);
        } else {
            self.send_up(Conn::Enl(e), vote_message(v), out);
        }
    }

    /// Takes a vote.
    fn vote(&mut self, e: EnlNo, v: Vote, out: &mut Outbox)
        requires asked { was_asked e.value self.old.half.seen.table ≡ true }
        requires room { HasRoom out.old }
        ensures state { self.new ≡ after [] self.old (reply_entries self.old.half e (VoteReply v)) }
        ensures out { out.new ≡ written out.old (reply_entries self.old.half e (VoteReply v)) }
    {
        self.write(Entry::Voted(e, v), out);
        self.after_vote(e, v, out);
    }

    /// Takes the reply of a promotable that was asked to promote: BEGIN is sent, or it is a veto.
    fn promote_reply(&mut self, e: EnlNo, ok: bool, out: &mut Outbox)
        requires { HasRoom out.old }
        ensures state { self.new ≡ after [] self.old (promote_entries self.old.half e ok) }
        ensures out { out.new ≡ written out.old (promote_entries self.old.half e ok) }
    {
        self.write(Entry::PromoteReply(e, ok), out);
        if ok {
            self.write(Entry::Sent(Conn::Begin, Dir::Up, Message::BeginBegin), out);
        } else {
            self.veto(out);
        }
    }

    /// Writes what follows of an owner's answer to the handing: where it is promoted the coordinator is told, and decides; else that decides.
    fn after_answer(&mut self, e: EnlNo, o: Outcome, out: &mut Outbox)
        requires { IsRoom 34 1 out.old }
        ensures state { self.new ≡ after [] self.old (answered_by self.old.half e o) }
        ensures out { out.new ≡ written out.old (answered_by self.old.half e o) }
    {
        if self.handover.is_over() {
            self.send_up(Conn::Enl(e), one_message(o), out);
        } else {
            self.decide(o, out);
        }
    }

    /// Takes the answer of an owner: one that was asked in a single phase requests it of the coordinator, any other was handed the commit.
    fn owner_reply(&mut self, e: EnlNo, o: Outcome, note: Note, out: &mut Outbox)
        requires { HasRoom out.old }
        ensures state { self.new ≡ after [] self.old (owner_entries self.old.half e o (Some note)) }
        ensures out { out.new ≡ written out.old (owner_entries self.old.half e o (Some note)) }
    {
        if note == Note::Single {
            self.write(Entry::Requested(e, request_of(o)), out);
            self.send_up(Conn::Begin, request_message(o), out);
        } else {
            self.write(Entry::OwnerAnswered(e, o), out);
            self.after_answer(e, o, out);
        }
    }

    /// Takes an acknowledgement, which goes to the connection of the last commit.
    fn acknowledge(&mut self, e: EnlNo, out: &mut Outbox)
        requires { HasRoom out.old }
        ensures state { self.new ≡ after [] self.old (Acked e ∷ ack_on self.old.half.seen (conn_due self.old.half.seen e.value)) }
        ensures out { out.new ≡ written out.old (Acked e ∷ ack_on self.old.half.seen (conn_due self.old.half.seen e.value)) }
    {
        let due = self.conn_due(e);
        self.write(Entry::Acked(e), out);
        match due {
            Some(Conn::Enl(f)) => self.send_up(Conn::Enl(f), Message::EnlistAck, out),
            Some(Conn::Again(f)) => self.send_up(Conn::Again(f), Message::ReenlistAck, out),
            _ => {}
        }
    }

    /// Takes a reply to this note, to which one is due.
    #[tactic(auto, unfolding(dtx_model::specs::Replies::reply_entries))]
    fn take_reply(&mut self, e: EnlNo, note: Note, r: Reply, out: &mut Outbox)
        requires due { due_of self.old.half.seen e.value ≡ Some note }
        requires fits { fits r note ≡ true }
        requires room { HasRoom out.old }
        ensures state { self.new ≡ after [] self.old (reply_entries self.old.half e r) }
        ensures out { out.new ≡ written out.old (reply_entries self.old.half e r) }
    {
        match r {
            Reply::Vote(v) => self.vote(e, v, out),
            Reply::Promote(ok) => self.promote_reply(e, ok, out),
            Reply::Owner(o) => self.owner_reply(e, o, note, out),
            Reply::Ack => self.acknowledge(e, out),
        }
    }

    /// Takes a reply; false exactly where none of the enlistment is due, and then nothing changes.
    pub fn reply(&mut self, e: EnlNo, r: Reply, out: &mut Outbox) -> bool
        requires fits { fits_due r (due_of self.old.half.seen e.value) ≡ true }
        requires room { HasRoom out.old }
        ensures due { result ≡ is_some (due_of self.old.half.seen e.value) }
        ensures state { result ≡ true → self.new ≡ after [] self.old (reply_entries self.old.half e r) }
        ensures out { result ≡ true → out.new ≡ written out.old (reply_entries self.old.half e r) }
        ensures unchanged { result ≡ false → self.new ≡ self.old }
        ensures unwritten { result ≡ false → out.new ≡ out.old }
        ensures runs { (w : World) → Follows (number_of self.old.transaction) w self.old.half → result ≡ true → Follows (number_of self.old.transaction) (world_after (number_of self.old.transaction) w (Replies e r)) self.new.half }
    {
        match self.due_of(e) {
            Some(note) => {
                self.take_reply(e, note, r, out);
                true
            }
            None => false,
        }
    }
}
