//! The machine's state, and what may be asked of it.
ghost use Rattle.std.specs.Prelude.{◌≡◌, ◌≤◌, ◌↔◌, ◌&&◌, ◌||◌, not, true, length};
ghost use Rattle.dtx_values.specs.Ends.{is_in, same_connection};
ghost use Rattle.dtx_values.specs.TxIds.{number_of};
ghost use Rattle.dtx_values.specs.declared.entry.Entry.TheVariants.{Got};
ghost use Rattle.dtx_values.specs.declared.limits.TheConstants.{DURABLES};
ghost use Rattle.dtx_values.specs.declared.message.Conn.TheVariants.{Again};
ghost use Rattle.dtx_values.specs.declared.message.Dir.TheVariants.{Up};
ghost use Rattle.dtx_model.specs.Coordinated.{accepts, but, desks_after, follow, has_voted, is_desk_of, is_early, is_finished, is_prepared, is_ready, known_after, may_free, may_log, nothing, waits_after, without};
ghost use Rattle.dtx_model.specs.Promotes.{identifier_of};
ghost use Rattle.dtx_model.specs.Words.{each, has};
ghost use Rattle.coordinator_core.specs.Kept.{IsFew};

use crate::ballots::{is_prepared, is_ready};
use crate::lists::{is_enlisting, is_known, is_same};
use crate::stages::{is_active, is_recorded};
use arrayvec::ArrayVec;
use dtx_model::{Desk, Stage};
use dtx_values::{
    CONNECTIONS, Conn, DURABLES, Dir, EnlNo, Message, RmNo, TxId, has_line, is_opening,
};
use std::marker::Model;

mod arrivals;
mod log;
mod sends;
mod single;

/// The coordinator's side of one transaction. Contracts see the transaction and what the coordinator knows of it. No call takes
/// memory; each writes into an outbox that has room for 40 entries and 40 messages.
///
/// # Driving one
///
/// The caller writes the entry of what happened, and then makes the call, which puts the rest of the block out.
///
/// - A message that came is `got`, and an end `down`. Where `got` answers false the connection doesn't carry the message:
///   the caller loses that connection, and calls no `down` for it.
/// - `act` says what is to be done at the log. After a record was appended comes `logged`, where the log is full `log_full`, and
///   after one was freed `freed`.
/// - Where the log stops, `stopped`; where it was opened again, `restarted` with the record that it has of this transaction.
///   While it stands stopped `act` is `None`, and the caller delivers nothing.
/// - Where a manager's recovery is over, `recovery_over`.
///
/// In a single phase nothing is logged. The stage is `Sole` once COMMIT of that name was got with exactly one enlistment, `Given` once
/// SINGLE was sent to that one, which then decides, and `Answered` once it said committed or in doubt, or was lost.
///
/// Each condition has a test: `has_room` that of `got`, `room` and `send_room` of the outbox those of the room, `may_log` and
/// `may_free` those of `logged`, `log_full` and `freed`, and `is_stopped` those of `stopped` and `restarted`.
#[derive(Drop)]
pub struct Core {
    transaction: TxId,
    stage: Stage,
    commit: bool,
    yes: bool,
    no: bool,
    /// The enlistments that were accepted, by number.
    desks: ArrayVec<Desk, DURABLES>,
    /// The connections whose opening message was got and whose end wasn't seen, in their order.
    known: ArrayVec<Conn, CONNECTIONS>,
    /// Who came back and waits for the decision, by number.
    waits: ArrayVec<EnlNo, DURABLES>,
    /// The managers that have recovered: the bit of each is 1.
    recovered: u32,
    stopped: bool,
}

impl Model for Core {
    ghost use Rattle.coordinator_core.specs.Kept.{Kept};

    ghost Value = { Kept };

    ghost view = { λ c. record {
      transaction = c.transaction;
      state = record {
        stage = c.stage;
        commit = c.commit;
        yes = c.yes;
        no = c.no;
        desks = c.desks.items;
        known = c.known.items;
        waits = c.waits.items;
        recovered = c.recovered;
        stopped = c.stopped;
      };
    } };
}

impl Core {
    /// The coordinator's side of this transaction, of which nothing came yet.
    pub fn new(t: TxId) -> Core
        ensures { result ≡ record { transaction = t; state = nothing } }
    {
        Core {
            transaction: t,
            stage: Stage::Idle,
            commit: false,
            yes: false,
            no: false,
            desks: ArrayVec::new(),
            known: ArrayVec::new(),
            waits: ArrayVec::new(),
            recovered: 0,
            stopped: false,
        }
    }

    /// Whether it stands stopped.
    pub fn is_stopped(&self) -> bool
        ensures { result ≡ self.now.state.stopped }
    {
        self.stopped
    }

    /// How far the transaction is.
    pub fn stage(&self) -> Stage
        ensures { result ≡ self.now.state.stage }
    {
        self.stage
    }

    /// The enlistments that were accepted, by number.
    pub fn desks(&self) -> &[Desk]
        ensures desks { result.now ≡ self.now.state.desks }
        ensures few { length result.now ≤ DURABLES }
    {
        self.desks.as_slice()
    }

    /// Who came back and waits for the decision, by number.
    fn waits(&self) -> &[EnlNo]
        ensures waits { result.now ≡ self.now.state.waits }
        ensures few { length result.now ≤ DURABLES }
    {
        self.waits.as_slice()
    }

    /// Whether the manager's recovery is over.
    pub fn has_recovered(&self, r: RmNo) -> bool
        ensures { result ≡ is_in r.value self.now.state.recovered }
    {
        (self.recovered >> r.get()) % 2 == 1
    }

    /// Whether the record can be appended: COMMIT for two phases and YES were got, and each enlistment said PREPARED or READONLY.
    #[tactic(auto, unfolding(dtx_model::specs::Coordinated::may_log))]
    pub fn may_log(&self) -> bool
        ensures { result ≡ may_log self.now.state }
    {
        !self.stopped && is_active(self.stage) && self.commit && self.yes && self.all_ready()
    }

    /// Whether the record can be freed: it stands, and each enlistment that said PREPARED acknowledged the commit, or its manager
    /// has recovered.
    #[tactic(auto, unfolding(dtx_model::specs::Coordinated::may_free))]
    pub fn may_free(&self) -> bool
        ensures { result ≡ may_free self.now.state }
    {
        !self.stopped && is_recorded(self.stage) && self.all_finished()
    }

    /// Whether each enlistment said PREPARED or READONLY.
    fn all_ready(&self) -> bool
        ensures { result ≡ each (λ d. is_ready d.ballot) self.now.state.desks }
    {
        self.desks.iter().all(|d| is_ready(d.ballot))
    }

    /// Whether each enlistment that said PREPARED is finished.
    fn all_finished(&self) -> bool
        ensures { result ≡ each (λ d. not (is_prepared d.ballot) || is_finished self.now.state.recovered d) self.now.state.desks }
    {
        self.desks
            .iter()
            .all(|d| !is_prepared(d.ballot) || self.is_finished(d))
    }

    /// Whether it acknowledged the commit in this life of the coordinator, or its manager has recovered.
    fn is_finished(&self, d: &Desk) -> bool
        ensures { result ≡ is_finished self.now.state.recovered d.now }
    {
        d.acked || self.has_recovered(d.manager)
    }

    /// Whether a message can be got: what is kept after it fits.
    pub fn has_room(&self, c: Conn, m: Message) -> bool
        ensures { (result ≡ true) ↔ IsFew (follow self.now.state (Got c Up m)) }
    {
        self.desks_after(c, m) <= DURABLES
            && self.known_after(c, m) <= CONNECTIONS
            && self.waits_after(c, m) <= DURABLES
    }

    /// How many enlistments there are after a message.
    fn desks_after(&self, c: Conn, m: Message) -> usize
        ensures { result ≡ length (desks_after self.now.state (Got c Up m)) }
    {
        let count = self.desks.len();
        if self.accepts() && is_enlisting(c, m) {
            count + 1
        } else {
            count
        }
    }

    /// How many connections are known after a message.
    fn known_after(&self, c: Conn, m: Message) -> usize
        ensures { result ≡ length (known_after (Got c Up m) self.now.state.known) }
    {
        if !has_line(c, Dir::Up, m) {
            return self.others(c);
        }
        if is_opening(c, m) {
            return self.others(c) + 1;
        }
        self.known.len()
    }

    /// How many connections are known besides this one.
    fn others(&self, c: Conn) -> usize
        ensures count { result ≡ length (without c self.now.state.known) }
        ensures few { result ≤ CONNECTIONS }
    {
        self.known.iter().filter(|d| !is_same(c, **d)).count()
    }

    /// How many wait after a message.
    fn waits_after(&self, c: Conn, m: Message) -> usize
        ensures { result ≡ length (waits_after (Got c Up m) self.now.state.waits) }
    {
        match c {
            Conn::Again(e) => self.waits_again(e, m),
            _ => self.waits.len(),
        }
    }

    /// How many wait after a message on the connection of a reenlistment.
    fn waits_again(&self, e: EnlNo, m: Message) -> usize
        ensures { result ≡ length (waits_after (Got (Again e) Up m) self.now.state.waits) }
    {
        match m {
            Message::ReenlistReenlist(_) => self.others_wait(e) + 1,
            Message::ReenlistAck => self.waits.len(),
            _ => self.others_wait(e),
        }
    }

    /// How many wait besides this one.
    fn others_wait(&self, e: EnlNo) -> usize
        ensures count { result ≡ length (but e.value self.now.state.waits) }
        ensures few { result ≤ DURABLES }
    {
        self.waits.iter().filter(|f| e != **f).count()
    }

    /// Whether an enlistment is accepted: the transaction is active, and COMMIT wasn't got.
    fn accepts(&self) -> bool
        ensures { result ≡ accepts self.now.state }
    {
        is_active(self.stage) && !self.commit
    }

    /// Whether a connection is known.
    fn knows(&self, c: Conn) -> bool
        ensures { result ≡ has (same_connection c) self.now.state.known }
    {
        is_known(self.known.as_slice(), c)
    }

    /// Whether an end of the connection comes before its COMMIT, YES or vote.
    fn is_early(&self, c: Conn) -> bool
        ensures { result ≡ is_early self.now.state c }
    {
        match c {
            Conn::Begin => !self.commit,
            Conn::Voter => !self.yes,
            Conn::Enl(e) => !self.has_voted(e),
            Conn::Again(_) => false,
        }
    }

    /// Whether an enlistment voted.
    fn has_voted(&self, e: EnlNo) -> bool
        ensures { result ≡ has (λ d. is_desk_of e.value d && has_voted d) self.now.state.desks }
    {
        self.desks
            .iter()
            .any(|d| d.enlistment == e && d.ballot.is_some())
    }

    /// The transaction's identifier.
    fn identifier(&self) -> u128
        ensures { result ≡ identifier_of (number_of self.now.transaction) }
    {
        self.transaction.identifier()
    }
}
