//! Whom a transaction still owes an outcome.
ghost use Rattle.std.specs.Prelude.{◌≡◌, ◌++◌, ◌==◌, IfOk, OnOk, List, length};
ghost use Rattle.dtx_model.specs.Entries.{is_told};
ghost use Rattle.dtx_model.specs.Replies.{with_name};
ghost use Rattle.dtx_model.specs.Tied.{is_recovery};
ghost use Rattle.dtx_model.specs.Words.{has, past_of};
ghost use Rattle.dtx_values.specs.declared.number.EnlNo.{EnlNo};
ghost use Rattle.dtx_values.specs.declared.script.Line.{Line};
ghost use Rattle.outcome_reasons.specs.Owed.{has_recovered, is_owed, owed, owes_if, prepared, prepared_after};
ghost use Rattle.script_calls.specs.Managers.{AreManagers};

use crate::said::Why;
use dtx_values::{Conn, Dir, EnlNo, Entry, Message, Party, RmNo, place_in_order};
use std::alloc::{AllocError, Global};

/// Whether the enlistment is one of these.
fn is_among(found: &[EnlNo], e: EnlNo) -> bool
    ensures { result ≡ has (λ f. e.value == f.value) found.now }
{
    found.iter().any(|f| e == *f)
}

/// Adds an enlistment, unless it is there.
fn add_one(found: &mut Vec<EnlNo>, e: EnlNo) -> Result<(), AllocError>
    ensures { OnOk result (found.new.items ≡ with_name e found.old.items) }
{
    if is_among(found, e) {
        return Ok(());
    }
    let place = place_in_order(found, e.get());
    match found.insert(place, e) {
        Ok(()) => Ok(()),
        Err(_) => Err(AllocError),
    }
}

/// Adds the enlistment that says PREPARED with this entry.
fn add_prepared(found: &mut Vec<EnlNo>, x: &Entry) -> Result<(), AllocError>
    ensures { OnOk result (found.new.items ≡ prepared_after x.now found.old.items) }
{
    match *x {
        Entry::Sent(Conn::Enl(e), Dir::Up, Message::EnlistPrepared) => add_one(found, e),
        _ => Ok(()),
    }
}

/// The enlistments that said PREPARED, by number.
fn prepared(alloc: Global, h: &[Entry]) -> Result<Vec<EnlNo>, AllocError>
    ensures { IfOk result (λ v. v.items ≡ prepared (past_of h.now)) }
{
    let mut found = Vec::new(alloc);
    for x in h {
        add_prepared(&mut found, x)?;
    }
    Ok(found)
}

/// Whether the entry tells e an outcome.
fn is_told(e: EnlNo, x: &Entry) -> bool
    ensures { result ≡ is_told e.value x.now }
{
    match *x {
        Entry::Told(Party::Enl(f), _) => e == f,
        _ => false,
    }
}

/// Whether the entry says that the manager has recovered.
fn is_recovery(r: RmNo, x: &Entry) -> bool
    ensures { result ≡ is_recovery r.value x.now }
{
    match *x {
        Entry::Recovered(q) => r == q,
        _ => false,
    }
}

/// Whether e was told an outcome.
fn has_told(h: &[Entry], e: EnlNo) -> bool
    ensures { result ≡ has (λ x. is_told e.value x) h.now }
{
    h.iter().any(|x| is_told(e, x))
}

/// Whether this manager has recovered.
fn has_recovery(r: RmNo, h: &[Entry]) -> bool
    ensures { result ≡ has (λ x. is_recovery r.value x) h.now }
{
    h.iter().any(|x| is_recovery(r, x))
}

/// Whether there is a manager, and it has recovered.
#[tactic(auto, using(dtx_model::proofs::Reading::reading))]
fn has_recovered(r: Option<RmNo>, h: &[Entry]) -> bool
    ensures { result ≡ has_recovered r (past_of h.now) }
{
    match r {
        Some(r) => has_recovery(r, h),
        None => false,
    }
}

/// Whether e wasn't told an outcome, and its manager has not recovered.
#[tactic(auto, using(dtx_model::proofs::Reading::reading))]
fn is_owed(managers: &[Option<RmNo>], h: &[Entry], e: EnlNo) -> bool
    requires { length managers.now ≡ EnlNo.MAX }
    ensures { (s : List Line) → AreManagers s s managers.now → result ≡ is_owed s (past_of h.now) e }
{
    !has_told(h, e) && !has_recovered(managers[e.index()], h)
}

/// Adds e, where the transaction still owes it an outcome.
fn add_if_owed(
    said: &mut Vec<Why>,
    managers: &[Option<RmNo>],
    h: &[Entry],
    e: EnlNo,
) -> Result<(), AllocError>
    requires { length managers.now ≡ EnlNo.MAX }
    ensures { OnOk result ((s : List Line) → AreManagers s s managers.now → said.new.items ≡ said.old.items ++ owes_if (is_owed s (past_of h.now) e) e) }
{
    if is_owed(managers, h, e) {
        said.push(Why::Owes(e))?;
    }
    Ok(())
}

/// Adds whom the transaction still owes an outcome.
pub(crate) fn add_owed(
    alloc: Global,
    said: &mut Vec<Why>,
    managers: &[Option<RmNo>],
    h: &[Entry],
) -> Result<(), AllocError>
    requires { length managers.now ≡ EnlNo.MAX }
    ensures { OnOk result ((s : List Line) → AreManagers s s managers.now → said.new.items ≡ said.old.items ++ owed s (past_of h.now)) }
{
    let found = prepared(alloc, h)?;
    for e in &found {
        add_if_owed(said, managers, h, *e)?;
    }
    Ok(())
}
