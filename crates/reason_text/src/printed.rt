//! The lines that say why.
ghost use Rattle.std.specs.Prelude.{◌≡◌, ◌∷◌, ◌++◌, [], IfOk, OnOk};
ghost use Rattle.dtx_model.specs.Grammar.{transaction_name};
ghost use Rattle.reason_text.specs.Phrases.{phrases_text};
ghost use Rattle.reason_text.specs.Sentences.{by_entry, by_line, outcome_said, promotion_said, said_text, why_line, why_text};

use crate::aborts::push_abort;
use crate::outcomes::{push_commit, push_doubt, push_open, push_promotion};
use crate::phrases::{Head, push_phrases};
use crate::places::{push_by_entry, push_by_line};
use dtx_values::{Outcome, Script, TxNo};
use entry_lists::Trace;
use outcome_reasons::{CommitReason, DoubtReason, Moment, PromotionReason, Why, why};
use std::alloc::{AllocError, Global};

/// Appends the words before a reason.
fn push_title(text: &mut Vec<u8>, words: &[u8]) -> Result<(), AllocError>
    ensures { OnOk result (text.new.items ≡ text.old.items ++ words.now) }
{
    text.extend_from_slice(words)
}

/// Appends why a promotion began, after these words.
fn push_promoted(
    text: &mut Vec<u8>,
    words: &[u8],
    reason: PromotionReason,
    m: Moment,
) -> Result<(), AllocError>
    ensures { OnOk result (text.new.items ≡ text.old.items ++ (words.now ++ (phrases_text (promotion_said m.caller reason) ++ phrases_text (by_line m)))) }
{
    push_title(text, words)?;
    push_promotion(text, m.caller, reason)?;
    push_by_line(text, m)
}

/// Appends what the evidence of a commit is.
fn push_committed(text: &mut Vec<u8>, reason: CommitReason, n: u64) -> Result<(), AllocError>
    ensures { OnOk result (text.new.items ≡ text.old.items ++ said_text (Why.Committed reason n)) }
{
    push_title(text, b" committed: ")?;
    push_commit(text, reason)?;
    push_by_entry(text, n)
}

/// Appends why an outcome is in doubt.
fn push_in_doubt(text: &mut Vec<u8>, reason: DoubtReason, n: u64) -> Result<(), AllocError>
    ensures { OnOk result (text.new.items ≡ text.old.items ++ said_text (Why.InDoubt reason n)) }
{
    push_title(text, b" in doubt: ")?;
    push_doubt(text, reason)?;
    push_by_entry(text, n)
}

/// The words of an outcome.
fn outcome_words(outcome: Outcome) -> &'static [u8]
    ensures { result.now ≡ outcome_said outcome }
{
    match outcome {
        Outcome::Committed => b"committed",
        Outcome::Aborted => b"aborted",
        Outcome::InDoubt => b"in doubt",
    }
}

/// Appends these words and an entry's number.
fn push_decided(text: &mut Vec<u8>, words: &[u8], n: u64) -> Result<(), AllocError>
    ensures { OnOk result (text.new.items ≡ text.old.items ++ (words.now ++ phrases_text (by_entry n))) }
{
    push_title(text, words)?;
    push_by_entry(text, n)
}

/// Appends what is said of a transaction.
fn push_said(text: &mut Vec<u8>, why: Why) -> Result<(), AllocError>
    ensures { OnOk result (text.new.items ≡ text.old.items ++ said_text why) }
{
    match why {
        Why::Promoted(reason, m) => push_promoted(text, b" promoted: ", reason, m),
        Why::PromotionFailed(reason, m) => push_promoted(text, b" promotion failed: ", reason, m),
        Why::Committed(reason, n) => push_committed(text, reason, n),
        Why::Aborted(reason, m) => {
            push_title(text, b" aborted: ")?;
            push_abort(text, reason, m)
        }
        Why::InDoubt(reason, n) => push_in_doubt(text, reason, n),
        Why::Unjust(outcome) => push_phrases(
            text,
            &[
                (Head::Nothing, b" "),
                (Head::Nothing, outcome_words(outcome)),
                (Head::Nothing, b": nothing justifies it"),
            ],
        ),
        Why::CoordinatorCommitted(n) => push_decided(text, b" at the coordinator: committed", n),
        Why::CoordinatorAborted(n) => push_decided(text, b" at the coordinator: aborted", n),
        Why::CoordinatorUndecided => push_title(text, b" at the coordinator: nothing was decided"),
        Why::Open(reason) => {
            push_title(text, b" open: ")?;
            push_open(text, reason)
        }
        Why::Owes(e) => push_phrases(
            text,
            &[
                (Head::Nothing, b" owes "),
                (
                    Head::Enlistment(Some(e)),
                    b": it said PREPARED and hasn't heard",
                ),
            ],
        ),
    }
}

/// Appends what is said of a transaction, after its name.
///
/// # Errors
///
/// [`AllocError`] where memory ran out.
pub fn push_why(text: &mut Vec<u8>, t: TxNo, why: Why) -> Result<(), AllocError>
    ensures text { OnOk result (text.new.items ≡ text.old.items ++ (transaction_name t.value ++ said_text why)) }
{
    push_phrases(text, &[(Head::Transaction(t), b"")])?;
    push_said(text, why)
}

/// Appends a line.
fn push_line(text: &mut Vec<u8>, t: TxNo, why: Why) -> Result<(), AllocError>
    ensures { OnOk result (text.new.items ≡ text.old.items ++ why_line (t.value, why)) }
{
    push_why(text, t, why)?;
    text.extend_from_slice(b"\n")
}

/// The text of why each transaction of a trace was promoted, why it ended as it did or is open, and whom it still owes an outcome: a line for each, in order of the transactions'
/// numbers. The words are a definition of this project.
///
/// # Errors
///
/// [`AllocError`] where memory ran out.
pub fn why_text(alloc: Global, script: &Script, trace: &Trace) -> Result<Vec<u8>, AllocError>
    ensures text { IfOk result (λ v. v.items ≡ why_text script.now trace.now) }
{
    let mut text = Vec::new(alloc);
    let lines = why(alloc, script, trace)?;
    for x in &lines {
        push_line(&mut text, x.0, x.1)?;
    }
    Ok(text)
}
