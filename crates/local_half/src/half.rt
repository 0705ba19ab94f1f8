//! What the local side of a transaction knows of its calls and its history.
ghost use Rattle.std.specs.Prelude.{ℕ, ◌&&◌, ◌≡◌, ◌≤◌, ◌↔◌, [], ◌∷◌, ◌++◌, length, is_some, true, false, find, None, Some, IfOk, IfSome};
ghost use Rattle.dtx_values.specs.Lines.{has_line};
ghost use Rattle.dtx_values.specs.TxIds.{number_of};
ghost use Rattle.dtx_values.specs.Outgoing.{written};
ghost use Rattle.dtx_values.specs.Table.{rises_above};
ghost use Rattle.dtx_values.specs.declared.entry.Answer.TheVariants.{Fine, Wait};
ghost use Rattle.dtx_values.specs.declared.entry.Ask.TheVariants.{Prepare};
ghost use Rattle.dtx_values.specs.declared.entry.Entry.TheVariants.{Answered, Asked, Decided, Down as Ended, Enlisted, Got, Promoting, Reenlisted, Sent, Told};
ghost use Rattle.dtx_values.specs.declared.message.Dir.TheVariants.{Up, Down};
ghost use Rattle.dtx_values.specs.declared.limits.TheConstants.{CONNECTIONS, DURABLES, ENLISTMENTS};
ghost use Rattle.dtx_values.specs.declared.words.Class.{Class};
ghost use Rattle.dtx_values.specs.declared.number.RmNo.{RmNo};
ghost use Rattle.dtx_model.specs.declared.waiting.Wanted.TheVariants.{Place};
ghost use Rattle.dtx_model.specs.Answers.{has_promotion, local_answer};
ghost use Rattle.dtx_model.specs.Caused.{is_new, is_unpromoted};
ghost use Rattle.dtx_model.specs.Half.{fails_if, half_of, heeds, is_gone, is_promoting, stands, was_told};
ghost use Rattle.dtx_model.specs.Observed.{is_branch, track};
ghost use Rattle.dtx_model.specs.Words.{has};
ghost use Rattle.dtx_model.specs.Promotes.{identifier_of};
ghost use Rattle.dtx_model.specs.Waiting.{is_place_of};
ghost use Rattle.dtx_model.specs.World.{World};
ghost use Rattle.tm_proxy.specs.News.{news_of};
ghost use Rattle.half_parts.specs.Half.{Follows, IsRoom, after, is_free, is_its_own, is_made_by_waiting};
ghost use Rattle.local_half.specs.Rights.{right_seen};
ghost use Rattle.half_parts.specs.Taken.{HasPlace, IsFor, MaySend, MayTakeIn, with_waiter};
ghost use Rattle.local_half.specs.Told.{act_at, promoted_at};

use dependent_clones::Clones;
use dtx_model::{Branch, Listener, Wanted};
use dtx_values::{
    Answer, Ask, CALLS, Call, Cause, Class, CloneKind, Conn, DURABLES, Dir, ENLISTMENTS, End,
    EnlNo, Entry, Message, Outbox, Outcome, Party, RmNo, Row, TxId, insert_in_order,
};
use durable_enlist::owner_of;
use enlist_table::EnlistTable;
use half_parts::branches::{BranchChange, change, is_enlisted, note_got, note_sent};
use half_parts::listeners::{is_gone, lose, regain, tell, was_told};
use half_parts::outgoing::put_out;
use half_parts::waits::{self, wanted_by};
use phase_zero::Waves;
use promotion::{Handover, HandoverAct, Right};
use std::alloc::{AllocError, Global};
use std::marker::Model;
use tm_proxy::{Proxy, ProxyNews};
use volatile_enlist::take_vote;

mod acts;
mod answers;
mod arrivals;
mod decisions;
mod facts;
mod replies;

/// The local side of one transaction. Contracts see what it knows of its calls and its history. Only the
/// constructor takes memory; each call writes into an outbox that has room.
///
/// # The life of a transaction
///
/// 1. *Begun*: it has a timeout, and its clock runs. Enlistments and dependent clones are added.
/// 2. *Commit asked*: no clone is added any more. A rollback clone that isn't complete is a veto.
/// 3. *Phase zero*: the Zero enlistments are asked to prepare, in waves. Enlistments are still
///    added, and a Zero one among them waits for the next wave. It is over once each Zero one voted
///    and each blocking clone is complete.
/// 4. *Sealed*: no enlistment is added any more, and a rollback comes too late.
/// 5. *Phase one*: the One enlistments are asked to prepare.
/// 6. *Handed*: once each volatile enlistment voted, the commit is handed to the owner, which is the
///    one durable or promotable enlistment. Its answer decides.
/// 7. *Decided*: committed after phase one where there is no owner. Earlier a vote No, a rollback,
///    a timeout, an open rollback clone or a lost enlistment decides that it is aborted; a lost owner
///    after the handing, that it is in doubt. Nothing is decided twice.
/// 8. *Promoted*: a marshal call, or a durable call that can't own the commit beside what stands, makes the
///    coordinator decide. The call waits until the transaction is handed over, and `got` and `down` take what
///    the coordinator sends. A commit, an abort, in doubt, or the loss of both connections after yes decides then.
///    Where its one durable can own the commit, COMMIT asks for a single phase: the coordinator hands that durable the
///    commit once the local side said yes. Its answer goes to the coordinator, and decides nothing here.
/// 9. *Told*: the enlistments are told the outcome in order of number, and then the client.
///
/// # Driving one
///
/// A call writes its entry and its facts. What follows of it are steps: the replies that are due, and
/// the local act where none is. At most three steps of each enlistment come, and four more.
///
/// ```text
/// out.clear();
/// half.call(actor, line, &call, &mut out);
/// keep(out.entries());
/// for _ in 0..STEPS {
///     out.clear();
///     let stepped = match half.due() {
///         Some((e, note)) => {
///             let reply = reply_to(e, note);
///             half.fits(e, reply) && half.reply(e, reply, &mut out)
///         }
///         None => half.act(&mut out),
///     };
///     if !stepped {
///         break;
///     }
///     keep(out.entries());
/// }
/// ```
///
/// Each condition of a call has a test: `is_its_own` and `is_free` those of `call`, `gone_answer` that
/// of `gone`, `is_accepted` that of `reenlist`, `fits` that of `reply`, and `room` and `send_room` of the
/// outbox. A cleared outbox has room for each.
/// An enlistment that stays silent is passed over by a loop over `rows` and `due_note`; where
/// `may_be_due` is false, each has nothing to reply to. `gone` writes what follows of the loss; the
/// entry of the call is put into the outbox before it.
///
/// # What holds of such a program
///
/// The *world* of a transaction is the calls that were entered there and the history. A new half
/// `Follows` the world of no calls and no entries. The clauses `runs` of `call`, `gone`, `reply` and
/// `act` say that a half which follows a world follows the world after the step, where each call has
/// a line of its own. So a program that drives a half by this loop has a world that its own calls made,
/// and the entries that it keeps are the history of that world. `own_outcome` of the crate `outcome_law`
/// is the law of these worlds, promoted or not: where no two calls make the same enlistment or the same
/// clone, and each restart found what may be found there (`tied`), all that anybody was told is
/// `justified`, and no two were told opposite outcomes (`agree`). `is_unpromoted` says whether a promotion
/// began; where none did, no restart comes, and the history is `tied`.
#[derive(Drop)]
pub struct LocalHalf {
    transaction: TxId,
    /// The timeout in milliseconds, once it is begun.
    limit: Option<u32>,
    clock: u64,
    commit: bool,
    sealed: bool,
    table: EnlistTable,
    clones: Clones,
    listeners: Vec<Listener>,
    /// Whether one of the listeners may be lost. Mostly none is, and then they needn't be looked through.
    any_lost: bool,
    /// The durable or promotable enlistment that its call enlisted, with its manager. A second one
    /// would promote the transaction.
    manager: Option<(EnlNo, RmNo)>,
    waves: Waves,
    handed: Option<EnlNo>,
    decided: Option<Outcome>,
    told_client: Option<Outcome>,
    handover: Handover,
    promote_asked: bool,
    promote_replied: bool,
    single_asked: bool,
    requested: bool,
    /// Whether the owner of the commit answered.
    answered: bool,
    yes: bool,
    /// Its ends of the connections to the coordinator.
    proxy: Proxy,
    /// The enlistments at the coordinator.
    branches: Vec<Branch>,
    /// The calls that wait, by their lines.
    waits: Vec<(u32, Wanted)>,
}

impl Model for LocalHalf {
    ghost use Rattle.std.specs.Prelude.{◌≤◌, ◌≡◌, ◌||◌, [], true, false, is_some, length, vec_capacity};
    ghost use Rattle.dtx_values.specs.declared.limits.TheConstants.{CALLS, DURABLES, ENLISTMENTS};
    ghost use Rattle.dtx_values.specs.Table.{how_many};
    ghost use Rattle.dtx_model.specs.Words.{put};
    ghost use Rattle.half_parts.specs.Half.{Known};
    ghost use Rattle.half_parts.specs.Linked.{AreLinked, AreRows, is_lost};
    ghost use Rattle.half_parts.specs.Waits.{AreWaiting};

    ghost Value = { Known };

    ghost view = { λ m. record {
      transaction = m.transaction;
      half = record {
        seen = record {
          limit = m.limit;
          clock = m.clock;
          commit = m.commit;
          sealed = m.sealed;
          table = m.table;
          clones = m.clones;
          listeners = m.listeners.items;
          handed = m.handed;
          decided = m.decided;
          told_client = m.told_client;
          cause = m.handover.cause;
          promoted = m.handover.over;
          failed = m.handover.failed;
          handover = m.handover.stands;
          promote_asked = m.promote_asked;
          promote_replied = m.promote_replied;
          single_asked = m.single_asked;
          requested = m.requested;
          answered = m.answered;
          yes = m.yes;
          ends = m.proxy;
          branches = m.branches.items;
        };
        waits = m.waits.items;
        managers = put m.manager [];
      };
    } };

    ghost invariant = { λ m. (ENLISTMENTS ≤ vec_capacity m.listeners) × (DURABLES ≤ vec_capacity m.branches) × (CALLS ≤ vec_capacity m.waits)
        × (length m.listeners.items ≡ length m.table)
        × AreRows m.limit m.handover.over m.table m.manager m.waits.items
        × AreWaiting m.table m.waits.items
        × AreLinked (is_some m.decided) m.table m.waits.items m.branches.items m.proxy
        × (m.handover.failed ≡ true → is_some m.decided ≡ true)
        × ((m.handover.over || is_some m.handover.cause) ≡ false → m.waits.items ≡ [])
        × (m.any_lost ≡ false → how_many is_lost m.listeners.items ≡ 0) };
}

/// An enlistment that was told nothing yet.
fn listener(e: EnlNo) -> Listener
    ensures { result ≡ record { enlistment = e; told = false; lost = false } }
{
    Listener {
        enlistment: e,
        told: false,
        lost: false,
    }
}

impl LocalHalf {
    /// The local side of this transaction, of which nothing is known yet.
    ///
    /// # Errors
    ///
    /// [`AllocError`] where memory ran out.
    #[tactic(auto, unfolding(dtx_model::specs::Observed::observe))]
    pub fn new(alloc: Global, t: TxId) -> Result<Self, AllocError>
        ensures { IfOk result (λ m. m ≡ record { transaction = t; half = half_of [] [] }) }
    {
        Ok(LocalHalf {
            transaction: t,
            limit: None,
            clock: 0,
            commit: false,
            sealed: false,
            table: EnlistTable::new(alloc)?,
            clones: Clones::new(alloc)?,
            listeners: Vec::with_capacity(alloc, ENLISTMENTS)?,
            any_lost: false,
            manager: None,
            waves: Waves::new(),
            handed: None,
            decided: None,
            told_client: None,
            handover: Handover::new(),
            promote_asked: false,
            promote_replied: false,
            single_asked: false,
            requested: false,
            answered: false,
            yes: false,
            proxy: Proxy::new(),
            branches: Vec::with_capacity(alloc, DURABLES)?,
            waits: Vec::with_capacity(alloc, CALLS)?,
        })
    }

    /// The transaction.
    pub fn transaction(&self) -> TxId
        ensures { result ≡ self.now.transaction }
    {
        self.transaction
    }

    /// Whether it was begun.
    pub fn is_begun(&self) -> bool
        ensures { result ≡ is_some self.now.half.seen.limit }
    {
        self.limit.is_some()
    }

    /// The rows of its enlistments, in order of number. No two have the same number.
    pub fn rows(&self) -> &[Row]
        ensures rows { result.now ≡ self.now.half.seen.table }
        ensures rise { rises_above 0 self.now.half.seen.table ≡ true }
    {
        self.table.rows()
    }

    /// Whether the enlistment stands.
    pub fn stands(&self, e: EnlNo) -> bool
        ensures { result ≡ stands self.now.half.seen e.value }
    {
        self.table.stands(e)
    }

    /// Whether the enlistment is lost.
    pub fn is_gone(&self, e: EnlNo) -> bool
        ensures { result ≡ is_gone self.now.half.seen e.value }
    {
        self.any_lost && is_gone(&self.listeners, e)
    }

    /// How it was decided.
    pub fn decided(&self) -> Option<Outcome>
        ensures { result ≡ self.now.half.seen.decided }
    {
        self.decided
    }

    /// Whether the transaction is promoted.
    pub fn is_promoted(&self) -> bool
        ensures { result ≡ self.now.half.seen.promoted }
    {
        self.handover.is_over()
    }

    /// What it knows of the connections to the coordinator, in their order.
    pub fn ends(&self) -> &[End]
        ensures { result.now ≡ self.now.half.seen.ends }
    {
        self.proxy.ends()
    }

    /// What holds of each half: there are at most 32 enlistments, and 16 of them at the coordinator. It does nothing when it runs; a caller's proof asks for it.
    pub fn is_few(&self)
        ensures rows { length self.now.half.seen.table ≤ ENLISTMENTS }
        ensures branches { length self.now.half.seen.branches ≤ DURABLES }
        ensures ends { length self.now.half.seen.ends ≤ CONNECTIONS }
    {
        let _ = &self.table;
    }

    /// The enlistments whose ENLIST was sent, in order of number.
    pub fn branches(&self) -> &[Branch]
        ensures { result.now ≡ self.now.half.seen.branches }
    {
        self.branches.as_slice()
    }

    /// What the client was told.
    pub fn told_client(&self) -> Option<Outcome>
        ensures { result ≡ self.now.half.seen.told_client }
    {
        self.told_client
    }

    /// Whether the half itself answers the call: await, do, lose, gone, reenlist and recovered are
    /// answered above it.
    pub fn is_its_own(c: &Call) -> bool
        ensures { result ≡ is_its_own c.now }
    {
        match *c {
            Call::Await(_)
            | Call::Do(_, _, _)
            | Call::Lose(_, _, _, _)
            | Call::Gone(_)
            | Call::Reenlist(_)
            | Call::Recovered(_, _) => false,
            _ => true,
        }
    }

    /// Whether what the call makes is new: there is no enlistment and no clone of its number.
    fn is_new(&self, c: &Call) -> bool
        ensures { result ≡ is_new self.now.half.seen c.now }
    {
        match *c {
            Call::Volatile(_, e, _, _)
            | Call::Durable(_, e, _, _)
            | Call::Promotable(_, e, _, _, _, _) => !self.stands(e),
            Call::Clone(_, c, _) => !self.clones.stands(c),
            _ => true,
        }
    }

    /// Whether a call waits for the place of the enlistment that this call makes.
    fn is_made_by_waiting(&self, c: &Call) -> bool
        ensures { result ≡ is_made_by_waiting self.now.half.waits c.now }
    {
        match *c {
            Call::Volatile(_, e, _, _)
            | Call::Durable(_, e, _, _)
            | Call::Promotable(_, e, _, _, _, _) => waits::is_awaited(&self.waits, e),
            _ => false,
        }
    }

    /// Whether what the call of this line makes is new, and no call waits for it, nor at this line.
    pub fn is_free(&self, line: u32, c: &Call) -> bool
        ensures { result ≡ is_free self.now.half line c.now }
    {
        self.is_new(c) && !self.is_made_by_waiting(c) && !waits::waits_at(&self.waits, line)
    }

    /// Whether the coordinator accepted the enlistment: it may come back.
    pub fn is_accepted(&self, e: EnlNo) -> bool
        ensures { result ≡ has (λ b. is_branch e.value b && b.enlisted) self.now.half.seen.branches }
    {
        is_enlisted(&self.branches, e)
    }

    /// Whether no promotion began.
    pub fn is_unpromoted(&self) -> bool
        ensures { (w : World) → Follows (number_of self.now.transaction) w self.now.half → result ≡ is_unpromoted w.past }
    {
        self.handover.cause().is_none()
    }

    /// The transaction's identifier at the coordinator.
    fn identifier(&self) -> u128
        ensures { result ≡ identifier_of (number_of self.now.transaction) }
    {
        self.transaction.identifier()
    }

    /// Whether the enlistment was told the outcome.
    fn was_told(&self, e: EnlNo) -> bool
        ensures { result ≡ was_told self.now.half.seen e.value }
    {
        was_told(&self.listeners, e)
    }

    /// Whether a promotion is under way.
    fn is_promoting(&self) -> bool
        ensures { result ≡ is_promoting self.now.half.seen }
    {
        self.handover.is_under_way()
    }

    /// Adds an enlistment to the table, and to whom the outcome is told.
    #[tactic(auto, unfolding(dtx_model::specs::Observed::track))]
    fn enlist(&mut self, e: EnlNo, class: Class)
        requires { HasPlace self.old.half e class }
        ensures transaction { self.new.transaction ≡ self.old.transaction }
        ensures half { self.new.half ≡ heeds [] self.old.half (Enlisted e class) }
    {
        match self.table.add(e, class) {
            Ok(()) => insert_in_order(&mut self.listeners, listener(e)),
            Err(_) => unreachable!(),
        }
    }

    /// Marks in the table that the enlistment was asked to prepare.
    #[tactic(auto, unfolding(dtx_model::specs::Observed::track))]
    fn ask(&mut self, e: EnlNo)
        ensures transaction { self.new.transaction ≡ self.old.transaction }
        ensures half { self.new.half ≡ heeds [] self.old.half (Asked e Prepare) }
    {
        let _ = self.table.set_asked(e);
    }

    /// Takes the call of this line away, which was answered.
    #[tactic(auto, unfolding(dtx_model::specs::Observed::track))]
    fn unwait(&mut self, n: u32, x: Answer)
        requires { MayTakeIn self.old.half (Answered n x) }
        ensures transaction { self.new.transaction ≡ self.old.transaction }
        ensures half { self.new.half ≡ heeds [] self.old.half (Answered n x) }
    {
        waits::remove(&mut self.waits, n);
    }

    /// Keeps that the call of this line waits, and what for, once a promotion began.
    #[tactic(auto, unfolding(dtx_model::specs::Observed::track, dtx_model::specs::Answers::local_answer))]
    fn wait(&mut self, line: u32, c: &Call)
        requires own { is_its_own c.now ≡ true }
        requires started { has_promotion self.old.half.seen ≡ true }
        requires waits { local_answer (number_of self.old.transaction) self.old.half c.now 0 ≡ Wait }
        requires new { is_free self.old.half line c.now ≡ true }
        ensures { self.new ≡ with_waiter line c.now self.old }
    {
        waits::add(&mut self.waits, line, wanted_by(c));
    }

    /// Keeps that the call of this line waits, and what for, and starts a promotion for this cause.
    #[tactic(auto, unfolding(dtx_model::specs::Observed::track, dtx_model::specs::Half::heeds_all, dtx_model::specs::Answers::local_answer))]
    fn wait_first(&mut self, line: u32, c: &Call, cause: Cause, out: &mut Outbox)
        requires own { is_its_own c.now ≡ true }
        requires unstarted { has_promotion self.old.half.seen ≡ false }
        requires waits { local_answer (number_of self.old.transaction) self.old.half c.now 0 ≡ Wait }
        requires new { is_free self.old.half line c.now ≡ true }
        requires room { IsRoom 1 0 out.old }
        ensures state { self.new ≡ after [] (with_waiter line c.now self.old) (Promoting cause ∷ []) }
        ensures out { out.new ≡ written out.old (Promoting cause ∷ []) }
    {
        let owner = owner_of(&self.table);
        self.handover.start(cause, owner);
        waits::add(&mut self.waits, line, wanted_by(c));
        put_out(Entry::Promoting(cause), out);
    }

    /// Notes a message that is sent.
    #[tactic(auto, unfolding(dtx_model::specs::Observed::track))]
    fn send(&mut self, c: Conn, m: Message)
        requires { MaySend self.old.half c m }
        ensures transaction { self.new.transaction ≡ self.old.transaction }
        ensures half { self.new.half ≡ heeds [] self.old.half (Sent c Up m) }
    {
        note_sent(&mut self.branches, c, &m);
        self.proxy.sent(c, &m);
    }

    /// Notes a message that was got, and says what it tells.
    #[tactic(auto, unfolding(dtx_model::specs::Observed::track, dtx_model::specs::Half::heeds_all))]
    fn hear(&mut self, c: Conn, m: Message) -> ProxyNews
        ensures news { result ≡ news_of c m }
        ensures unfit { (result ≡ ProxyNews.Unfit) ↔ (has_line c Down m ≡ false) }
        ensures state { self.new ≡ after [] self.old (Got c Down m ∷ []) }
    {
        note_got(&mut self.branches, c, &m);
        self.proxy.got(c, m)
    }

    /// Notes the end of a connection.
    #[tactic(auto, unfolding(dtx_model::specs::Observed::track, dtx_model::specs::Half::heeds_all))]
    fn hear_end(&mut self, c: Conn)
        ensures { self.new ≡ after [] self.old (Ended c Down ∷ []) }
    {
        let _ = self.proxy.down(c);
    }

    /// Notes that an outcome was told.
    #[tactic(auto, unfolding(dtx_model::specs::Observed::track))]
    fn tell(&mut self, party: Party, o: Outcome)
        ensures transaction { self.new.transaction ≡ self.old.transaction }
        ensures half { self.new.half ≡ heeds [] self.old.half (Told party o) }
    {
        match party {
            Party::Client => self.told_client = Some(o),
            Party::Enl(e) => {
                tell(&mut self.listeners, e);
                if o == Outcome::Aborted {
                    change(&mut self.branches, e, BranchChange::Aborted);
                }
            }
        }
    }

    /// Notes that an enlistment comes back.
    #[tactic(auto, unfolding(dtx_model::specs::Observed::track))]
    fn regain(&mut self, e: EnlNo)
        ensures transaction { self.new.transaction ≡ self.old.transaction }
        ensures half { self.new.half ≡ heeds [] self.old.half (Reenlisted e) }
    {
        regain(&mut self.listeners, e);
        change(&mut self.branches, e, BranchChange::Due(None));
    }

    /// Takes an entry into the state.
    #[tactic(auto, unfolding(dtx_model::specs::Observed::track))]
    fn take_in(&mut self, x: Entry)
        requires { MayTakeIn self.old.half x }
        ensures transaction { self.new.transaction ≡ self.old.transaction }
        ensures half { self.new.half ≡ heeds [] self.old.half x }
    {
        // The tables can't refuse here: the condition says that they take what the entry adds. Whoever writes an entry looked at the tables before.
        match x {
            Entry::Began(d) => self.limit = Some(d),
            Entry::Clock(n) => self.clock = n,
            Entry::CommitAsked => self.commit = true,
            Entry::Sealed => self.sealed = true,
            Entry::LocalYes => self.yes = true,
            Entry::Requested(_, _) => self.requested = true,
            Entry::PromoteReply(_, _) => self.promote_replied = true,
            Entry::Enlisted(e, class) => self.enlist(e, class),
            Entry::Cloned(c, kind) => {
                let _ = self
                    .clones
                    .clone_of(c, kind == CloneKind::Block, self.commit);
            }
            Entry::Completed(c) => {
                let _ = self.clones.complete(c);
            }
            Entry::Asked(e, Ask::Prepare) => self.ask(e),
            Entry::Asked(_, Ask::Promote) => self.promote_asked = true,
            Entry::Asked(_, Ask::Single) => self.single_asked = true,
            Entry::Voted(e, v) => {
                let _ = take_vote(&mut self.table, e, v);
            }
            Entry::Handed(e) => self.handed = Some(e),
            Entry::OwnerAnswered(_, _) => self.answered = true,
            Entry::Lost(e) => {
                self.any_lost = true;
                lose(&mut self.listeners, e);
            }
            Entry::Reenlisted(e) => self.regain(e),
            Entry::Acked(e) => change(&mut self.branches, e, BranchChange::Acked),
            Entry::Told(party, o) => self.tell(party, o),
            Entry::Answered(n, answer) => self.unwait(n, answer),
            Entry::Sent(c, Dir::Up, m) => self.send(c, m),
            Entry::Init(_) | Entry::RollbackAsked | Entry::TimedOut | Entry::Late => {}
            _ => unreachable!(),
        }
    }

    /// Puts the entry out, with the message that it sends, and takes it into the state.
    #[tactic(auto, unfolding(dtx_model::specs::Half::heeds_all))]
    fn write(&mut self, x: Entry, out: &mut Outbox)
        requires taken { MayTakeIn self.old.half x }
        requires room { IsFor x out.old }
        ensures state { self.new ≡ after [] self.old (x ∷ []) }
        ensures out { out.new ≡ written out.old (x ∷ []) }
    {
        self.take_in(x);
        put_out(x, out);
    }

    /// Decides: a promotion that is under way fails.
    #[tactic(auto, unfolding(dtx_model::specs::Observed::track, dtx_model::specs::Half::heeds_all))]
    fn end(&mut self, o: Outcome, out: &mut Outbox)
        requires { IsRoom 2 0 out.old }
        ensures state { self.new ≡ after [] self.old (fails_if (is_promoting self.old.half.seen) ++ Decided o ∷ []) }
        ensures out { out.new ≡ written out.old (fails_if (is_promoting self.old.half.seen) ++ Decided o ∷ []) }
        ensures decided { self.new.half.seen.decided ≡ Some o }
        ensures waits { self.new.half.waits ≡ self.old.half.waits }
        ensures few { length self.new.half.waits ≤ 32 }
    {
        if self.handover.is_under_way() {
            self.handover.fail();
            put_out(Entry::PromotionFailed, out);
        }
        self.decided = Some(o);
        put_out(Entry::Decided(o), out);
    }

    /// Tells the handover, and says what it does next. By its last act the transaction is promoted.
    #[tactic(auto, unfolding(dtx_model::specs::Observed::track, dtx_model::specs::Half::heeds_all))]
    fn hand_on(&mut self, news: &ProxyNews, out: &mut Outbox) -> HandoverAct
        requires { IsRoom 1 0 out.old }
        ensures act { result ≡ act_at self.old.half.seen news.now }
        ensures state { self.new ≡ after [] self.old (promoted_at (number_of self.old.transaction) self.old.half.seen.cause result) }
        ensures out { out.new ≡ written out.old (promoted_at (number_of self.old.transaction) self.old.half.seen.cause result) }
    {
        let act = self.handover.got(news);
        if act == HandoverAct::Over {
            if let Some(cause) = self.handover.cause() {
                put_out(Entry::Promoted(self.transaction.identifier(), cause), out);
            }
        }
        act
    }

    /// Enlists where a call waited for the place, and answers the call.
    #[tactic(auto, unfolding(dtx_model::specs::Observed::track, dtx_model::specs::Half::heeds_all))]
    fn give_place(&mut self, e: EnlNo, n: u32, class: Class, out: &mut Outbox)
        requires waits { (r : RmNo) × (f : EnlNo) × (find (is_place_of e.value) self.old.half.waits ≡ Some (n, Place f r class)) }
        requires promoted { self.old.half.seen.promoted ≡ true }
        requires room { IsRoom 2 0 out.old }
        ensures state { self.new ≡ after [] self.old (Enlisted e class ∷ Answered n Fine ∷ []) }
        ensures out { out.new ≡ written out.old (Enlisted e class ∷ Answered n Fine ∷ []) }
    {
        match self.table.add(e, class) {
            Ok(()) => insert_in_order(&mut self.listeners, listener(e)),
            Err(_) => unreachable!(),
        }
        waits::remove(&mut self.waits, n);
        put_out(Entry::Enlisted(e, class), out);
        put_out(Entry::Answered(n, Answer::Fine), out);
    }

    /// Where the right to decide the outcome stands, by what it has seen.
    pub fn right(&self) -> Right
        ensures { result ≡ right_seen self.now.half.seen }
    {
        self.handover.place(
            self.handed.is_some(),
            self.proxy.was_commit_sent(),
            self.decided.is_some(),
        )
    }
}
