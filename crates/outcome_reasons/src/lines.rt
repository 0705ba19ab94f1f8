//! What is said of each transaction of a trace.
ghost use Rattle.std.specs.Prelude.{◌≡◌, ◌++◌, All, IfOk, OnOk, length, map};
ghost use Rattle.dtx_model.specs.Entries.{client_told_of};
ghost use Rattle.dtx_model.specs.Words.{has, latest, past_of};
ghost use Rattle.dtx_values.specs.declared.number.EnlNo.{EnlNo};
ghost use Rattle.outcome_reasons.specs.Claims.{HaveOneEnding, Holds};
ghost use Rattle.outcome_reasons.specs.Commits.{evident};
ghost use Rattle.outcome_reasons.specs.Doubts.{doubtful};
ghost use Rattle.outcome_reasons.specs.First.{first_of};
ghost use Rattle.outcome_reasons.specs.Vetoes.{vetoing};
ghost use Rattle.outcome_reasons.specs.Whys.{aborted_line, by_number, committed_line, doubt_line, doubt_lines, ended_in, is_began, is_ended, outcome_lines, said_if, said_of, whys};
ghost use Rattle.script_calls.specs.Managers.{AreManagers};

use crate::callers::number_at;
use crate::commits::first_evidence;
use crate::doubts::{at_coordinator, first_doubt};
use crate::histories::{History, histories_of, nested_lines};
use crate::opens::open_reason;
use crate::owed::add_owed;
use crate::promotions::add_promotion;
use crate::said::{DoubtReason, Why};
use crate::vetoes::first_veto;
use dtx_values::{EnlNo, Entry, Line, Outcome, Party, RmNo, ScopeNo, Script, TxNo};
use entry_lists::Trace;
use script_calls::managers_of;
use std::alloc::{AllocError, Global};

/// What the client was told.
fn told(h: &[Entry]) -> Option<Outcome>
    ensures { result ≡ latest client_told_of (past_of h.now) }
{
    let mut told = None;
    for x in h {
        if let Entry::Told(Party::Client, outcome) = *x {
            told = Some(outcome);
        }
    }
    told
}

/// Whether the entry begins the transaction.
fn is_began(x: &Entry) -> bool
    ensures { result ≡ is_began x.now }
{
    matches!(x, Entry::Began(_))
}

/// Whether the transaction of this history was begun.
pub fn is_begun(h: &[Entry]) -> bool
    ensures begun { result ≡ has (λ x. is_began x) h.now }
{
    h.iter().any(|x| is_began(x))
}

/// What is said of a commit.
fn committed_line(numbers: &[u64], h: &[Entry]) -> Why
    ensures { result ≡ committed_line (past_of numbers.now) (first_of evident (past_of h.now)) }
{
    match first_evidence(h) {
        Some((i, reason)) => Why::Committed(reason, number_at(numbers, i)),
        None => Why::Unjust(Outcome::Committed),
    }
}

/// What is said of an abort.
fn aborted_line(lines: &[Line], nested: &[(u32, ScopeNo)], numbers: &[u64], h: &[Entry]) -> Why
    ensures { result ≡ aborted_line (first_of (vetoing lines.now (past_of nested.now) (past_of numbers.now)) (past_of h.now)) }
{
    match first_veto(lines, nested, numbers, h) {
        Some((_, (reason, moment))) => Why::Aborted(reason, moment),
        None => Why::Unjust(Outcome::Aborted),
    }
}

/// What is said of a doubt.
fn doubt_line(numbers: &[u64], found: Option<(usize, DoubtReason)>) -> Why
    ensures { result ≡ doubt_line (past_of numbers.now) found }
{
    match found {
        Some(doubt) => Why::InDoubt(doubt.1, number_at(numbers, doubt.0)),
        None => Why::Unjust(Outcome::InDoubt),
    }
}

/// Whether it came of the ends of both connections.
fn is_ended(reason: DoubtReason) -> bool
    ensures { result ≡ is_ended reason }
{
    matches!(reason, DoubtReason::Ended(_, _))
}

/// The same of a doubt that was found.
fn ended_in(found: Option<(usize, DoubtReason)>) -> bool
    ensures { result ≡ ended_in found }
{
    match found {
        Some(doubt) => is_ended(doubt.1),
        None => false,
    }
}

/// Adds what is said of an outcome in doubt, and where both connections ended what the coordinator decided.
fn add_doubt(said: &mut Vec<Why>, numbers: &[u64], h: &[Entry]) -> Result<(), AllocError>
    ensures { OnOk result (said.new.items ≡ said.old.items ++ doubt_lines (past_of numbers.now) (past_of h.now) (first_of (doubtful (past_of numbers.now)) (past_of h.now))) }
{
    let found = first_doubt(numbers, h);
    said.push(doubt_line(numbers, found))?;
    if ended_in(found) {
        said.push(at_coordinator(numbers, h))?;
    }
    Ok(())
}

/// Adds what is said of the outcome.
fn add_outcome(
    said: &mut Vec<Why>,
    lines: &[Line],
    nested: &[(u32, ScopeNo)],
    numbers: &[u64],
    h: &[Entry],
) -> Result<(), AllocError>
    ensures { OnOk result (said.new.items ≡ said.old.items ++ outcome_lines lines.now (past_of nested.now) (past_of numbers.now) (past_of h.now) (latest client_told_of (past_of h.now))) }
{
    match told(h) {
        Some(Outcome::Committed) => said.push(committed_line(numbers, h))?,
        Some(Outcome::Aborted) => said.push(aborted_line(lines, nested, numbers, h))?,
        Some(Outcome::InDoubt) => add_doubt(said, numbers, h)?,
        None => said.push(Why::Open(open_reason(lines, numbers, h)))?,
    }
    Ok(())
}

/// What is said of a transaction.
fn said_of(
    alloc: Global,
    lines: &[Line],
    nested: &[(u32, ScopeNo)],
    managers: &[Option<RmNo>],
    numbers: &[u64],
    h: &[Entry],
) -> Result<Vec<Why>, AllocError>
    requires { length managers.now ≡ EnlNo.MAX }
    ensures { IfOk result (λ v. AreManagers lines.now lines.now managers.now → v.items ≡ said_of lines.now (past_of nested.now) (past_of numbers.now) (past_of h.now)) }
{
    let mut said = Vec::new(alloc);
    add_promotion(&mut said, lines, numbers, h)?;
    add_outcome(&mut said, lines, nested, numbers, h)?;
    add_owed(alloc, &mut said, managers, h)?;
    Ok(said)
}

/// Adds what is said of transaction t.
fn add_said(all: &mut Vec<(TxNo, Why)>, t: TxNo, said: &[Why]) -> Result<(), AllocError>
    ensures { OnOk result (map by_number all.new.items ≡ map by_number all.old.items ++ map (λ w. (t.value, w)) said.now) }
{
    for x in said {
        all.push((t, *x))?;
    }
    Ok(())
}

/// Adds what is said of transaction t, where it was begun.
fn add_of(
    alloc: Global,
    all: &mut Vec<(TxNo, Why)>,
    lines: &[Line],
    nested: &[(u32, ScopeNo)],
    managers: &[Option<RmNo>],
    t: TxNo,
    h: &History,
) -> Result<(), AllocError>
    requires { length managers.now ≡ EnlNo.MAX }
    ensures { OnOk result (AreManagers lines.now lines.now managers.now → map by_number all.new.items ≡ map by_number all.old.items ++ said_if lines.now (past_of nested.now) t.value h.now) }
{
    if !is_begun(&h.entries) {
        return Ok(());
    }
    let said = said_of(alloc, lines, nested, managers, &h.numbers, &h.entries)?;
    add_said(all, t, &said)?;
    Ok(())
}

/// Why each transaction of a trace that was begun was promoted, why it ended as it did or is open, and whom it still owes an outcome: in order of number.
///
/// It says of a transaction, in this order: why it was promoted, where a promotion began; one outcome; what the coordinator decided, where its connections ended in doubt; and each
/// enlistment that it owes. The words are a definition of this project.
///
/// # Errors
///
/// [`AllocError`] where memory ran out.
pub fn why(alloc: Global, script: &Script, trace: &Trace) -> Result<Vec<(TxNo, Why)>, AllocError>
    ensures whys { IfOk result (λ v. map by_number v.items ≡ whys script.now trace.now) }
    ensures endings { IfOk result (λ v. HaveOneEnding trace.now (map by_number v.items)) }
    ensures holds { IfOk result (λ v. All (λ x. Holds script.now trace.now x.0 x.1) (map by_number v.items)) }
{
    let lines = script.lines();
    let managers = managers_of(alloc, lines)?;
    let nested = nested_lines(alloc, trace)?;
    let histories = histories_of(alloc, trace)?;
    let mut all = Vec::new(alloc);
    for (i, h) in histories.iter().enumerate() {
        let t = TxNo::new(i as u32 + 1).unwrap();
        add_of(alloc, &mut all, lines, &nested, &managers, t, h)?;
    }
    Ok(all)
}
