//! The book of one transaction.
ghost use Rattle.std.specs.Prelude.{◌≡◌, List, [], ◌∷◌, ◌&&◌, not, true, IfOk, None};
ghost use Rattle.dtx_values.specs.declared.entry.Entry.{Entry};
ghost use Rattle.dtx_values.specs.declared.message.Conn.TheVariants.{Begin};
ghost use Rattle.dtx_values.specs.declared.message.Dir.TheVariants.{Up};
ghost use Rattle.dtx_values.specs.Lines.{has_line};
ghost use Rattle.dtx_model.specs.Outcome.{agree, all_vote, by_owner, by_seal, doubt, evidence, hears_doubt, is_first_veto, is_just, is_veto, is_veto_end, may_tell, ready};

use crate::checked::Why;
use crate::doubts::Doubts;
use crate::heard::Heard;
use crate::marks::Marks;
use crate::members::Members;
use crate::owner::{Lasting, Owner};
use crate::voters::Voters;
use crate::wires::{Wires, may_carry};
use dtx_values::{Conn, Dir, Entry, Message, Outcome, Party, Request, Vote};
use std::alloc::{AllocError, Global};

/// What is known of a transaction by its entries so far.
#[derive(Drop)]
pub struct Book {
    marks: Marks,
    heard: Heard,
    owner: Owner,
    doubts: Doubts,
    /// A veto came before which no evidence stood.
    vetoed: bool,
    voters: Voters,
    members: Members,
    wires: Wires,
}

impl Book {
    ghost use Rattle.trace_checker.specs.Kept.{IsBookOf};
    ghost use Rattle.trace_checker.specs.Loss.{IsKept, IsLossOf};

    /// The book of no entries.
    pub fn new(alloc: Global) -> Book
        ensures { IsBookOf [] result }
    {
        Book {
            marks: Marks::NONE,
            heard: Heard::NOTHING,
            owner: Owner::NOBODY,
            doubts: Doubts::NONE,
            vetoed: false,
            voters: Voters::new(alloc),
            members: Members::new(alloc),
            wires: Wires::new(alloc),
        }
    }

    /// Whether the durables and promotables vote too.
    fn all_vote(&self) -> bool
        ensures { (h : List Entry) → IsBookOf h self.now → result ≡ all_vote h }
    {
        self.marks.promoted && !self.marks.single
    }

    /// Whether commit was asked, each clone is complete, and each voter voted yes or done.
    #[tactic(auto, using(dtx_model::proofs::Reading::reading), unfolding(dtx_model::specs::Outcome::ready))]
    fn is_ready(&self) -> bool
        ensures { (h : List Entry) → IsBookOf h self.now → result ≡ ready h }
    {
        self.marks.commit
            && self.voters.are_clones_complete()
            && self.voters.have_volatiles_voted()
            && (!self.all_vote() || self.voters.have_durables_voted())
    }

    /// Whether it is evident by the seal.
    #[tactic(auto, using(crate::proofs::Owned::seal_is), unfolding(dtx_model::specs::Outcome::by_seal))]
    fn is_by_seal(&self) -> bool
        ensures { (h : List Entry) → IsBookOf h self.now → result ≡ by_seal h }
    {
        self.marks.sealed && !self.marks.promoted && self.owner.lasting == Lasting::Nobody
    }

    /// Whether it is evident by the owner.
    #[tactic(auto, using(crate::proofs::Owned::owner_nobody, crate::proofs::Owned::owner_several))]
    fn is_by_owner(&self) -> bool
        ensures { (h : List Entry) → IsBookOf h self.now → result ≡ by_owner h }
    {
        match self.owner.lasting {
            Lasting::One(n) => self.owner.able
                && self.members.at(n).has_decided(self.marks.promoted),
            Lasting::Nobody => false,
            Lasting::Several => false,
        }
    }

    /// Whether it may be told committed. Evidence can come and go, so it is asked each time.
    #[tactic(auto, unfolding(dtx_model::specs::Outcome::evidence, dtx_model::specs::Outcome::by_log))]
    fn is_evident(&self) -> bool
        ensures { (h : List Entry) → IsBookOf h self.now → result ≡ evidence h }
    {
        self.is_ready()
            && (self.is_by_seal()
                || self.is_by_owner()
                || (self.marks.promoted && self.marks.recorded))
    }

    /// Whether it is in doubt.
    #[tactic(auto, unfolding(dtx_model::specs::Outcome::doubt, dtx_model::specs::Outcome::owner_doubt, dtx_model::specs::Outcome::coordinator_doubt, dtx_model::specs::Outcome::single_doubt))]
    fn is_in_doubt(&self) -> bool
        ensures { (h : List Entry) → IsBookOf h self.now → result ≡ doubt h }
    {
        let heard = &self.heard;
        let unheard = self.marks.yes && heard.begin_end && heard.voter_end && !heard.outcome;
        self.doubts.unsure || self.doubts.lost_owner || unheard || self.doubts.lost_single
    }

    /// Whether this party may hear that it is in doubt.
    fn hears_doubt(&self, p: Party) -> bool
        ensures { (h : List Entry) → IsBookOf h self.now → result ≡ hears_doubt h p }
    {
        match p {
            Party::Client => true,
            Party::Enl(e) => self.members.of(e).volatile,
        }
    }

    /// Whether this party may be told this outcome.
    #[tactic(auto, unfolding(dtx_model::specs::Outcome::may_tell))]
    fn may_tell(&self, p: Party, o: Outcome) -> bool
        ensures { (h : List Entry) → IsBookOf h self.now → result ≡ may_tell h p o }
    {
        match o {
            Outcome::Committed => self.is_evident(),
            Outcome::Aborted => self.vetoed && !self.is_evident(),
            Outcome::InDoubt => self.hears_doubt(p) && self.is_in_doubt(),
        }
    }

    /// Whether what is told or decided by the entry may be.
    #[inline(always)]
    fn is_just(&self, x: &Entry) -> bool
        ensures { (h : List Entry) → IsBookOf h self.now → result ≡ is_just h x.now }
    {
        match *x {
            Entry::Told(p, o) => self.may_tell(p, o),
            Entry::Decided(o) => self.may_tell(Party::Client, o),
            _ => true,
        }
    }

    /// Whether the end of this connection, seen on this side, is a veto.
    fn is_veto_end(&self, c: Conn, d: Dir) -> bool
        ensures { (h : List Entry) → IsBookOf h self.now → result ≡ is_veto_end h c d }
    {
        match (d, c) {
            (Dir::Down, Conn::Begin | Conn::Voter) => !self.marks.yes,
            (Dir::Down, Conn::Enl(e)) => !self.marks.yes && !self.members.of(e).voted,
            (Dir::Up, Conn::Begin) => !self.heard.commit,
            (Dir::Up, Conn::Voter) => !self.heard.yes,
            (Dir::Up, Conn::Enl(e)) => {
                let row = self.members.of(e);
                !row.heard && !row.single
            }
            (_, Conn::Again(_)) => false,
        }
    }

    /// Whether the entry is a veto.
    #[inline(always)]
    fn is_veto(&self, x: &Entry) -> bool
        ensures { (h : List Entry) → IsBookOf h self.now → result ≡ is_veto h x.now }
    {
        match *x {
            Entry::RollbackAsked | Entry::TimedOut => !self.marks.yes && !self.marks.handed,
            Entry::Voted(_, v) => v == Vote::No,
            Entry::OwnerAnswered(_, o) => o == Outcome::Aborted,
            Entry::PromoteReply(_, fine) | Entry::Restarted(fine) => !fine,
            Entry::Requested(_, r) => r == Request::Abort,
            Entry::LogFull => true,
            Entry::CommitAsked => !self.voters.are_rollbacks_complete(),
            Entry::Lost(e) => {
                let row = self.members.of(e);
                !row.voted && !row.handed
            }
            Entry::Down(c, d) => self.is_veto_end(c, d),
            // COMMIT for a single phase where not exactly one enlistment came, or a message without a line, counts as an end.
            Entry::Got(Conn::Begin, Dir::Up, Message::BeginCommitOne) => {
                !self.heard.lone && self.is_veto_end(Conn::Begin, Dir::Up)
            }
            Entry::Got(c, d, m) => !may_carry(c, d, &m) && self.is_veto_end(c, d),
            _ => false,
        }
    }

    /// Whether the entry is a veto before which no evidence stands.
    #[inline(always)]
    fn is_first_veto(&self, x: &Entry) -> bool
        ensures { (h : List Entry) → IsBookOf h self.now → result ≡ is_first_veto h x.now }
    {
        self.is_veto(x) && !self.is_evident()
    }

    /// Whether all agree with the entry, where they agreed before it.
    #[tactic(auto, unfolding(dtx_model::specs::Outcome::agree))]
    #[inline(always)]
    fn does_agree(&self, x: &Entry) -> bool
        ensures { (h : List Entry) → IsBookOf h self.now → agree h ≡ true → result ≡ agree (x.now ∷ h) }
    {
        let mut after = self.marks;
        after.follow(x);
        let again = self.marks.decided && matches!(x, Entry::Decided(_));
        !(after.committed && after.aborted) && !again
    }

    /// Notes the entry, unless it loses something of what was kept so far: then the first of the three comes back.
    #[tactic(auto, using(crate::proofs::Losing::losing))]
    #[inline(always)]
    pub fn note(&mut self, x: &Entry) -> Result<Option<Why>, AllocError>
        ensures lost { IfOk result (λ loss. (h : List Entry) → IsBookOf h self.old → IsKept h → IsLossOf (x.now ∷ h) loss) }
        ensures noted { IfOk result (λ loss. loss ≡ None → (h : List Entry) → IsBookOf h self.old → IsBookOf (x.now ∷ h) self.new) }
    {
        if !self.is_just(x) {
            return Ok(Some(Why::Justified));
        }
        if !self.does_agree(x) {
            return Ok(Some(Why::Agree));
        }
        let is_first_veto = self.is_first_veto(x);
        if !self.wires.cross(x)? {
            return Ok(Some(Why::Wire));
        }
        self.vetoed |= is_first_veto;
        self.doubts.follow(&self.members, x);
        self.marks.follow(x);
        self.heard.follow(x);
        self.owner.follow(x);
        self.voters.follow(x)?;
        self.members.follow(x)?;
        Ok(None)
    }
}
