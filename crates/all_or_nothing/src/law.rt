//! The laws of the calls of a manager.
ghost use Rattle.std.specs.Prelude.{ℕ, IsTrue, List, [], Option, Some};
ghost use Rattle.dtx_values.specs.declared.tx_id.TxId.{TxId};
ghost use Rattle.transactions.specs.Events.{note_in};
ghost use Rattle.transactions.specs.Hearing.{Given, HearsNote};
ghost use Rattle.transactions.specs.Scoping.{ConcludesAll};
ghost use Rattle.transactions.specs.Slots.{Standing};
ghost use Rattle.transactions.specs.Turning.{StoppedAfter, TurnedUpTo};
ghost use Rattle.transactions.specs.declared.event.Event.{Event};
ghost use Rattle.all_or_nothing.specs.Whole.{AreReady, IsAllOrNothing, IsAsked, IsBeginning, IsBetween, IsCall, IsEntry, IsGivenUp, IsNumbering};

use crate::holder::Holder;
use log_epochs::no_transaction_is_an_epoch;
use outside::{Clock, Disk};
use record_laws::{records_votes, tells_by_record};

/// A call of a manager of whose transaction objects hear keeps all or nothing, for that transaction and for every other, whichever device call of whichever disk failed in it: whatever a crash may leave
/// then of the log and of what the objects hold, each transaction is whole in it. (Presumed abort; when a transaction is whole is a definition of this project, in `recovery_laws`.)
///
/// [`TransactionManager::commit`](transactions::TransactionManager::commit) is such a call, by its clause `heard`. What holds of the transaction's run is what
/// [`TransactionManager::has_run`](transactions::TransactionManager::has_run) ensures.
pub fn call_keeps_all_or_nothing<D: Disk, C: Clock, O: Holder>()
    ensures { (t : TxId) (m n : Standing D C) (o p : O) → IsTrue D.honest → IsAllOrNothing D.image O.place O.keeps O.leaves O.sound m o → IsCall D.honest D.image O.gives [] t m n o p → IsAllOrNothing D.image O.place O.keeps O.leaves O.sound n p }
{
    O::hold();
    records_votes();
    tells_by_record();
    no_transaction_is_an_epoch();
}

/// A reply that an object put off keeps all or nothing, where the objects are as they are to be once it is given: for a yes the enlistment's work is held for good, for an acknowledgement it is marked.
///
/// [`TransactionManager::reply`](transactions::TransactionManager::reply) is such a call, by its clause `heard`.
pub fn reply_keeps_all_or_nothing<D: Disk, C: Clock, O: Holder>()
    ensures { (gs : List Given) (t : TxId) (m n : Standing D C) (o p : O) → IsTrue D.honest → IsAllOrNothing D.image O.place O.keeps O.leaves O.sound m o → AreReady O.place O.keeps O.leaves gs t m o → IsCall D.honest D.image O.gives gs t m n o p → IsAllOrNothing D.image O.place O.keeps O.leaves O.sound n p }
{
    O::hold();
    records_votes();
    tells_by_record();
    no_transaction_is_an_epoch();
}

/// What comes next in a transaction may be asked: that keeps all or nothing, whether or not an event came, while the objects haven't heard it yet. So may be asked by
/// [`TransactionManager::next`](transactions::TransactionManager::next) and [`TransactionManager::poll`](transactions::TransactionManager::poll), by their clauses `comes`, `stays`, `logged`, `others` and
/// `time`. What holds of the transaction's run is what [`TransactionManager::has_run`](transactions::TransactionManager::has_run) ensures.
pub fn asking_keeps_all_or_nothing<D: Disk, C: Clock, O: Holder>()
    ensures { (e : Option Event) (t : TxId) (m n : Standing D C) (o : O) → IsTrue D.honest → IsAllOrNothing D.image O.place O.keeps O.leaves O.sound m o → IsAsked D.honest D.image e t m n → IsAllOrNothing D.image O.place O.keeps O.leaves O.sound n o }
{
    O::hold();
    records_votes();
    tells_by_record();
    no_transaction_is_an_epoch();
}

/// The objects that hear what came, before any other call, keep all or nothing. And then they are as they are to be where what they replied is given by
/// [`TransactionManager::reply`](transactions::TransactionManager::reply).
pub fn hearing_keeps_all_or_nothing<D: Disk, C: Clock, O: Holder>()
    ensures whole { (e : Event) (gs : List Given) (t : TxId) (m n : Standing D C) (o p : O) → IsTrue D.honest → IsAllOrNothing D.image O.place O.keeps O.leaves O.sound m o → IsAsked D.honest D.image (Some e) t m n → HearsNote O.gives (note_in e) o gs p → IsAllOrNothing D.image O.place O.keeps O.leaves O.sound n p }
    ensures ready { (e : Event) (gs : List Given) (t : TxId) (m n : Standing D C) (o p : O) → IsTrue D.honest → IsAllOrNothing D.image O.place O.keeps O.leaves O.sound m o → IsAsked D.honest D.image (Some e) t m n → HearsNote O.gives (note_in e) o gs p → AreReady O.place O.keeps O.leaves gs t n p }
{
    O::hold();
    records_votes();
    tells_by_record();
    no_transaction_is_an_epoch();
}

/// A call that only enters keeps all or nothing, such as [`TransactionManager::begin_commit`](transactions::TransactionManager::begin_commit),
/// [`TransactionManager::enlist_volatile`](transactions::TransactionManager::enlist_volatile) and [`TransactionManager::dependent_clone`](transactions::TransactionManager::dependent_clone).
pub fn entry_keeps_all_or_nothing<D: Disk, C: Clock, O: Holder>()
    ensures { (t : TxId) (m n : Standing D C) (o : O) → IsTrue D.honest → IsAllOrNothing D.image O.place O.keeps O.leaves O.sound m o → IsEntry D.honest D.image D.faults t m n → IsAllOrNothing D.image O.place O.keeps O.leaves O.sound n o }
{
    O::hold();
    records_votes();
    tells_by_record();
    no_transaction_is_an_epoch();
}

/// The beginning of a transaction keeps all or nothing, where its number is above all that were given before, and the objects hear no enlistment of it yet.
pub fn beginning_keeps_all_or_nothing<D: Disk, C: Clock, O: Holder>()
    ensures { (t : TxId) (m n : Standing D C) (o : O) → IsTrue D.honest → IsAllOrNothing D.image O.place O.keeps O.leaves O.sound m o → IsBeginning D.honest D.image D.faults O.place t m n o → IsAllOrNothing D.image O.place O.keeps O.leaves O.sound n o }
{
    no_transaction_is_an_epoch();
}

/// A transaction that can't be begun keeps all or nothing, though an epoch may have begun at the log.
pub fn refusal_keeps_all_or_nothing<D: Disk, C: Clock, O: Holder>()
    ensures { (m n : Standing D C) (o : O) → IsAllOrNothing D.image O.place O.keeps O.leaves O.sound m o → IsNumbering D.image m n → IsAllOrNothing D.image O.place O.keeps O.leaves O.sound n o }
{
    no_transaction_is_an_epoch();
}

/// What a program does to its objects between two calls keeps all or nothing, where it only says of an enlistment where they hear it from now on: at its manager's resource, or in passing if it is volatile.
///
/// Whose it is [`TransactionManager::enlist_durable`](transactions::TransactionManager::enlist_durable) ensures by `manager`, and that it is volatile
/// [`TransactionManager::enlist_volatile`](transactions::TransactionManager::enlist_volatile) by `volatile`.
pub fn objects_keep_all_or_nothing<D: Disk, C: Clock, O: Holder>()
    ensures { (m : Standing D C) (o p : O) → IsAllOrNothing D.image O.place O.keeps O.leaves O.sound m o → IsBetween O.place O.keeps O.leaves O.sound m o p → IsAllOrNothing D.image O.place O.keeps O.leaves O.sound m p }
{}

/// Turns of the manager keep all or nothing: [`TransactionManager::pump`](transactions::TransactionManager::pump), by its clauses `heard` and `stopped`.
pub fn pump_keeps_all_or_nothing<D: Disk, C: Clock, O: Holder>()
    ensures turned { (k : ℕ) (m n : Standing D C) (c : C) (r : ℕ) (o p : O) → IsTrue D.honest → IsAllOrNothing D.image O.place O.keeps O.leaves O.sound m o → TurnedUpTo D.faults D.honest D.image O.gives k (record m { clock = c; reading = r }) n o p → IsAllOrNothing D.image O.place O.keeps O.leaves O.sound n p }
    ensures stopped { (m n : Standing D C) (c : C) (r : ℕ) (o p : O) → IsTrue D.honest → IsAllOrNothing D.image O.place O.keeps O.leaves O.sound m o → StoppedAfter D.faults D.honest D.image O.gives (record m { clock = c; reading = r }) n o p → IsAllOrNothing D.image O.place O.keeps O.leaves O.sound n p }
{
    O::hold();
    records_votes();
    tells_by_record();
    no_transaction_is_an_epoch();
}

/// The end of a scope keeps all or nothing, whatever it does to the scope's transaction, and to those of scopes that were closed too early:
/// [`TransactionManager::dispose`](transactions::TransactionManager::dispose) and [`TransactionManager::finish`](transactions::TransactionManager::finish), by their clause `steps`.
pub fn scope_keeps_all_or_nothing<D: Disk, C: Clock, O: Holder>()
    ensures { (m n : Standing D C) (o p : O) → IsTrue D.honest → IsAllOrNothing D.image O.place O.keeps O.leaves O.sound m o → ConcludesAll D.honest D.image O.gives m n o p → IsAllOrNothing D.image O.place O.keeps O.leaves O.sound n p }
{
    O::hold();
    records_votes();
    tells_by_record();
    no_transaction_is_an_epoch();
}

/// The end of a transaction keeps all or nothing, and so does that nobody holds it any more.
pub fn end_keeps_all_or_nothing<D: Disk, C: Clock, O: Holder>()
    ensures { (t : TxId) (m n : Standing D C) (o : O) → IsAllOrNothing D.image O.place O.keeps O.leaves O.sound m o → IsGivenUp t m n → IsAllOrNothing D.image O.place O.keeps O.leaves O.sound n o }
{}
