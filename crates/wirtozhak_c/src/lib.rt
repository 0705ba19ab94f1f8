//! The transaction manager for programs in C, and in whatever calls C: a static library of 22 functions, with the header `c/wirtozhak.h`.
//!
//! A handle holds a [`HostManager`], or none. Each export takes it out, calls it, and puts it back; it says what the manager's call says of what the handle held and holds.
//! Nothing here calls back, and nothing touches a file or a clock.
#![tactic(auto)]

ghost use Rattle.std.specs.Prelude.{◌≡◌, None, Result, Option, if◌then◌else◌, is_some};
ghost use Rattle.dtx_values.specs.declared.call.Call.TheVariants.{Commit, Complete, Gone, Rollback, Tick};
ghost use Rattle.dtx_values.specs.declared.number.CloneNo.{CloneNo};
ghost use Rattle.dtx_values.specs.declared.number.EnlNo.{EnlNo};
ghost use Rattle.dtx_values.specs.declared.number.RmNo.{RmNo};
ghost use Rattle.host_manager.specs.Calls.{ClonesBy, EnlistsBy, EntersBy, IdentifiesBy, TakesBy};
ghost use Rattle.host_manager.specs.Lives.{Begins, HoldsLog, IsNew, Recovers, SaysOutcome, Starts};
ghost use Rattle.host_manager.specs.Polls.{Ends, GoesOn, Replies, SaysTold};
ghost use Rattle.transactions.specs.declared.kind.Kind.TheVariants.{Durable, Volatile};
ghost use Rattle.wirtozhak_c.specs.Codes.{IsClone, IsEnlistment, IsManager, clone_kind, code_of, host_code, number_or_none, option_of, outcome_word, phases_of, reply_of, timeout_of};
ghost use Rattle.wirtozhak_c.specs.Holding.{Reads, Calls, ComesTo, DoesWith, Opens};
ghost use Rattle.wirtozhak_c.specs.Words.{GivesBytes, GivesWork, IsDone, IsIdentifier, IsNext, IsWritten, MayNot};

mod code;
mod giving;
mod handle;
mod loose;
mod words;

use code::{CLOSED, MEMORY, NO_SUCH, OK, OPEN, UNKNOWN, host_code};
use giving::{
    copied, done, give_clone, give_enlistment, give_identifier, give_next, give_number,
    give_outcome, give_taken, give_told, host_done, next_work,
};
pub use handle::Handle;
use host_manager::HostManager;
use std::alloc::Global;
pub use words::{EventWords, Sixteen, Work};
use words::{
    clone_kind, clone_of, enlistment_of, manager_of, option_of, phases_of, reply_of, timeout_of,
};

// Answers CLOSED where the handle is closed; else takes the manager out of it, makes the call, puts the manager back, and is what the call gave.
macro_rules! calling {
    ($alloc:ident, $h:ident, $m:ident => $call:expr) => {{
        if !$h.is_open() {
            return CLOSED;
        }
        let mut $m = $h.take($alloc);
        let given = $call;
        $h.put($m);
        given
    }};
}

/// Opens a handle that is closed: a manager over the log with these bytes, which it copies; over an empty log, which it makes, where there are none. The disk has work to do then.
#[unsafe(no_mangle)]
pub extern "C" fn wz_open(alloc: Global, h: &mut Handle, log: &[u8]) -> i32
    ensures { Opens (λ m. IsNew m × HoldsLog log.now m) (MayNot log.now) h.old.held.value h.new.held.value result }
{
    if h.is_open() {
        return OPEN;
    }
    let Ok(bytes) = Vec::from_slice(alloc, log) else {
        return MEMORY;
    };
    let m = match HostManager::open(alloc, bytes) {
        Ok(m) => m,
        Err(e) => return host_code(e),
    };
    let Ok(b) = Box::new(alloc, m) else {
        return MEMORY;
    };
    h.put(b);
    OK
}

/// Closes a handle, and forgets what goes on.
#[unsafe(no_mangle)]
pub extern "C" fn wz_close(alloc: Global, h: &mut Handle) -> i32
    ensures closed { h.new.held.value ≡ None }
    ensures answer { result ≡ (if is_some h.old.held.value then OK else CLOSED) }
{
    if !h.is_open() {
        return CLOSED;
    }
    drop(h.take(alloc));
    OK
}

/// What came of an enlistment of an earlier life: 1 committed, 2 aborted.
#[unsafe(no_mangle)]
pub extern "C" fn wz_outcome(
    alloc: Global,
    h: &mut Handle,
    tx: u64,
    enlistment: u32,
    outcome: &mut u32,
) -> i32
    ensures { Calls (λ m n a. (o : Option EnlNo) × IsEnlistment enlistment o
        × DoesWith NO_SUCH (λ e. Reads (SaysOutcome tx e) (λ r. IsWritten host_code (λ x. outcome_word (Some x)) r outcome.old outcome.new)) o m n a) h.old.held.value h.new.held.value result }
{
    if !h.is_open() {
        return CLOSED;
    }
    let Some(e) = enlistment_of(enlistment) else {
        return NO_SUCH;
    };
    give_outcome(calling!(alloc, h, m => m.outcome(tx, e)), outcome)
}

/// A resource manager has recovered: it asked for each enlistment that it had prepared, and did its part.
#[unsafe(no_mangle)]
pub extern "C" fn wz_recovered(alloc: Global, h: &mut Handle, rm: u32) -> i32
    ensures { Calls (λ m n a. (o : Option RmNo) × IsManager rm o × DoesWith NO_SUCH (λ r. ComesTo (Recovers r) (IsDone host_code)) o m n a) h.old.held.value h.new.held.value result }
{
    if !h.is_open() {
        return CLOSED;
    }
    let Some(r) = manager_of(rm) else {
        return NO_SUCH;
    };
    host_done(calling!(alloc, h, m => m.recovered(r)))
}

/// Begins an epoch at the log: the numbers of transactions are above all that were given before. The disk has work to do then.
#[unsafe(no_mangle)]
pub extern "C" fn wz_start(alloc: Global, h: &mut Handle) -> i32
    ensures { Calls (ComesTo Starts (IsDone host_code)) h.old.held.value h.new.held.value result }
{
    host_done(calling!(alloc, h, m => m.start()))
}

/// Begins a transaction, with a timeout of so many milliseconds; ten minutes where they are 0.
#[unsafe(no_mangle)]
pub extern "C" fn wz_begin(alloc: Global, h: &mut Handle, milliseconds: u32, tx: &mut u64) -> i32
    ensures { Calls (ComesTo (Begins (timeout_of milliseconds)) (λ r. IsWritten host_code (λ x. x) r tx.old tx.new)) h.old.held.value h.new.held.value result }
{
    let timeout = timeout_of(milliseconds);
    give_number(calling!(alloc, h, m => m.begin(timeout)), tx)
}

/// What the host is to do next in the log's file; with this call it says that it did the one before. Nothing, once it did all.
#[unsafe(no_mangle)]
pub extern "C" fn wz_disk(alloc: Global, h: &mut Handle, work: &mut Work) -> i32
    ensures { Calls (GivesWork work.old work.new) h.old.held.value h.new.held.value result }
{
    calling!(alloc, h, m => next_work(&mut m, work))
}

/// Puts the bytes that the host is to write, where [`wz_disk`] gave a write of this length last.
#[unsafe(no_mangle)]
pub extern "C" fn wz_bytes(alloc: Global, h: &mut Handle, into: &mut [u8]) -> i32
    ensures { Calls (GivesBytes into.old into.new) h.old.held.value h.new.held.value result }
{
    calling!(alloc, h, m => copied(m.request(), into))
}

/// Enlists a volatile resource, which may enlist others while it prepares where `during_prepare` is 1.
#[unsafe(no_mangle)]
pub extern "C" fn wz_enlist_volatile(
    alloc: Global,
    h: &mut Handle,
    tx: u64,
    during_prepare: u32,
    enlistment: &mut u32,
) -> i32
    ensures { Calls (DoesWith UNKNOWN (λ k. ComesTo (EnlistsBy tx (Volatile k)) (λ r. IsWritten code_of (λ (e : EnlNo). e.value) r enlistment.old enlistment.new)) (option_of during_prepare)) h.old.held.value h.new.held.value result }
{
    if !h.is_open() {
        return CLOSED;
    }
    let Some(k) = option_of(during_prepare) else {
        return UNKNOWN;
    };
    give_enlistment(
        calling!(alloc, h, m => m.enlist_volatile(tx, k)),
        enlistment,
    )
}

/// Enlists a durable resource of a resource manager, which may also commit in a single phase where `single` is 1.
#[unsafe(no_mangle)]
pub extern "C" fn wz_enlist_durable(
    alloc: Global,
    h: &mut Handle,
    tx: u64,
    rm: u32,
    single: u32,
    enlistment: &mut u32,
) -> i32
    ensures { Calls (λ m n a. (o : Option RmNo) × IsManager rm o
        × DoesWith NO_SUCH (λ r. DoesWith UNKNOWN (λ p. ComesTo (EnlistsBy tx (Durable r p)) (λ x. IsWritten code_of (λ (e : EnlNo). e.value) x enlistment.old enlistment.new)) (phases_of single)) o m n a) h.old.held.value h.new.held.value result }
{
    if !h.is_open() {
        return CLOSED;
    }
    let Some(r) = manager_of(rm) else {
        return NO_SUCH;
    };
    let Some(p) = phases_of(single) else {
        return UNKNOWN;
    };
    give_enlistment(
        calling!(alloc, h, m => m.enlist_durable(tx, r, p)),
        enlistment,
    )
}

/// Enlists a resource that owns the commit, and can promote the transaction; 0 where another resource is enlisted already.
#[unsafe(no_mangle)]
pub extern "C" fn wz_enlist_promotable(
    alloc: Global,
    h: &mut Handle,
    tx: u64,
    rm: u32,
    enlistment: &mut u32,
) -> i32
    ensures { Calls (λ m n a. (o : Option RmNo) × IsManager rm o
        × DoesWith NO_SUCH (λ r. ComesTo (TakesBy tx r) (λ x. IsWritten code_of number_or_none x enlistment.old enlistment.new)) o m n a) h.old.held.value h.new.held.value result }
{
    if !h.is_open() {
        return CLOSED;
    }
    let Some(r) = manager_of(rm) else {
        return NO_SUCH;
    };
    give_taken(
        calling!(alloc, h, m => m.enlist_promotable(tx, r)),
        enlistment,
    )
}

/// Makes a dependent clone, for which the commit waits; or which vetoes a commit that is asked for before it is complete, where `rollback` is 1.
#[unsafe(no_mangle)]
pub extern "C" fn wz_clone(
    alloc: Global,
    h: &mut Handle,
    tx: u64,
    rollback: u32,
    clone: &mut u32,
) -> i32
    ensures { Calls (DoesWith UNKNOWN (λ k. ComesTo (ClonesBy tx k) (λ r. IsWritten code_of (λ (c : CloneNo). c.value) r clone.old clone.new)) (clone_kind rollback)) h.old.held.value h.new.held.value result }
{
    if !h.is_open() {
        return CLOSED;
    }
    let Some(k) = clone_kind(rollback) else {
        return UNKNOWN;
    };
    give_clone(calling!(alloc, h, m => m.dependent_clone(tx, k)), clone)
}

/// Completes a dependent clone.
#[unsafe(no_mangle)]
pub extern "C" fn wz_complete(alloc: Global, h: &mut Handle, tx: u64, clone: u32) -> i32
    ensures { Calls (λ m n a. (o : Option CloneNo) × IsClone clone o × DoesWith NO_SUCH (λ c. ComesTo (EntersBy tx (λ t. Complete c)) (IsDone code_of)) o m n a) h.old.held.value h.new.held.value result }
{
    if !h.is_open() {
        return CLOSED;
    }
    let Some(c) = clone_of(clone) else {
        return NO_SUCH;
    };
    done(calling!(alloc, h, m => m.complete(tx, c)))
}

/// The identifier of a transaction, in sixteen bytes, the first most significant; `NOTHING` where it is to be promoted first, as it then is.
#[unsafe(no_mangle)]
pub extern "C" fn wz_identifier(
    alloc: Global,
    h: &mut Handle,
    tx: u64,
    sixteen: &mut Sixteen,
) -> i32
    ensures { Calls (ComesTo (IdentifiesBy tx) (λ r. IsIdentifier r sixteen.old.bytes sixteen.new.bytes)) h.old.held.value h.new.held.value result }
{
    give_identifier(calling!(alloc, h, m => m.identifier(tx)), sixteen)
}

/// Asks for the commit of a transaction. What comes of it is in [`wz_next`].
#[unsafe(no_mangle)]
pub extern "C" fn wz_commit(alloc: Global, h: &mut Handle, tx: u64) -> i32
    ensures { Calls (ComesTo (EntersBy tx (λ t. Commit t.t)) (IsDone code_of)) h.old.held.value h.new.held.value result }
{
    done(calling!(alloc, h, m => m.commit(tx)))
}

/// Asks for the rollback of a transaction.
#[unsafe(no_mangle)]
pub extern "C" fn wz_rollback(alloc: Global, h: &mut Handle, tx: u64) -> i32
    ensures { Calls (ComesTo (EntersBy tx (λ t. Rollback t.t)) (IsDone code_of)) h.old.held.value h.new.held.value result }
{
    done(calling!(alloc, h, m => m.rollback(tx)))
}

/// Time goes on in a transaction, by so many milliseconds.
#[unsafe(no_mangle)]
pub extern "C" fn wz_tick(alloc: Global, h: &mut Handle, tx: u64, milliseconds: u32) -> i32
    ensures { Calls (ComesTo (EntersBy tx (λ t. Tick t.t milliseconds)) (IsDone code_of)) h.old.held.value h.new.held.value result }
{
    done(calling!(alloc, h, m => m.tick(tx, milliseconds)))
}

/// The connection of an enlistment is lost.
#[unsafe(no_mangle)]
pub extern "C" fn wz_lost(alloc: Global, h: &mut Handle, tx: u64, enlistment: u32) -> i32
    ensures { Calls (λ m n a. (o : Option EnlNo) × IsEnlistment enlistment o × DoesWith NO_SUCH (λ e. ComesTo (EntersBy tx (λ t. Gone e)) (IsDone code_of)) o m n a) h.old.held.value h.new.held.value result }
{
    if !h.is_open() {
        return CLOSED;
    }
    let Some(e) = enlistment_of(enlistment) else {
        return NO_SUCH;
    };
    done(calling!(alloc, h, m => m.lost(tx, e)))
}

/// What comes next in a transaction: what an enlistment is asked, or the outcome that one or the client is told; or that first the disk has work to do; or nothing.
#[unsafe(no_mangle)]
pub extern "C" fn wz_next(alloc: Global, h: &mut Handle, tx: u64, event: &mut EventWords) -> i32
    ensures { Calls (ComesTo (GoesOn tx) (λ r. IsNext r event.old event.new)) h.old.held.value h.new.held.value result }
{
    give_next(calling!(alloc, h, m => m.next(tx)), event)
}

/// The reply of an enlistment.
#[unsafe(no_mangle)]
pub extern "C" fn wz_reply(
    alloc: Global,
    h: &mut Handle,
    tx: u64,
    enlistment: u32,
    reply: u32,
) -> i32
    ensures { Calls (λ m n a. (o : Option EnlNo) × IsEnlistment enlistment o
        × DoesWith NO_SUCH (λ e. DoesWith UNKNOWN (λ r. ComesTo (Replies tx e r) (IsDone host_code)) (reply_of reply)) o m n a) h.old.held.value h.new.held.value result }
{
    if !h.is_open() {
        return CLOSED;
    }
    let Some(e) = enlistment_of(enlistment) else {
        return NO_SUCH;
    };
    let Some(r) = reply_of(reply) else {
        return UNKNOWN;
    };
    host_done(calling!(alloc, h, m => m.reply(tx, e, r)))
}

/// What the client was told: 0 nothing, 1 committed, 2 aborted, 3 in doubt.
#[unsafe(no_mangle)]
pub extern "C" fn wz_told(alloc: Global, h: &mut Handle, tx: u64, outcome: &mut u32) -> i32
    ensures { Calls (Reads (SaysTold tx) (λ r. IsWritten host_code outcome_word r outcome.old outcome.new)) h.old.held.value h.new.held.value result }
{
    give_told(calling!(alloc, h, m => m.told(tx)), outcome)
}

/// Forgets a transaction of which nothing is left to do.
#[unsafe(no_mangle)]
pub extern "C" fn wz_end(alloc: Global, h: &mut Handle, tx: u64) -> i32
    ensures { Calls (ComesTo (Ends tx) (IsDone host_code)) h.old.held.value h.new.held.value result }
{
    host_done(calling!(alloc, h, m => m.end(tx)))
}
