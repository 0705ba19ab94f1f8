//! Why a transaction was promoted, committed, in doubt or open.
ghost use Rattle.std.specs.Prelude.{◌≡◌, ◌++◌, OnOk};
ghost use Rattle.reason_text.specs.Phrases.{phrases_text};
ghost use Rattle.reason_text.specs.Sentences.{commit_said, doubt_said, note_said, open_said, promotion_said, roots_said, same_root};

use crate::aborts::push_root;
use crate::phrases::{Head, push_one, push_phrases, push_words};
use dtx_values::{EnlNo, Note};
use outcome_reasons::{Caller, CommitReason, DoubtReason, OpenReason, PromotionReason, Root};
use std::alloc::AllocError;

/// Appends why a promotion began.
pub(crate) fn push_promotion(
    text: &mut Vec<u8>,
    by: Option<Caller>,
    reason: PromotionReason,
) -> Result<(), AllocError>
    ensures { OnOk result (text.new.items ≡ text.old.items ++ phrases_text (promotion_said by reason)) }
{
    match reason {
        PromotionReason::Identifier => {
            push_phrases(text, &[(Head::Caller(by), b" asked for its identifier")])
        }
        PromotionReason::Second(e, f) => push_phrases(
            text,
            &[
                (Head::Enlistment(e), b" is a second durable, beside "),
                (Head::Enlistment(f), b""),
            ],
        ),
        PromotionReason::Beside(e, f) => push_phrases(
            text,
            &[
                (Head::Enlistment(e), b" is a durable beside the promotable "),
                (Head::Enlistment(f), b""),
            ],
        ),
        PromotionReason::Two(e) => push_phrases(
            text,
            &[(
                Head::Enlistment(e),
                b" is a durable that has two phases alone",
            )],
        ),
    }
}

/// Appends what the evidence of a commit is.
pub(crate) fn push_commit(text: &mut Vec<u8>, reason: CommitReason) -> Result<(), AllocError>
    ensures { OnOk result (text.new.items ≡ text.old.items ++ phrases_text (commit_said reason)) }
{
    match reason {
        CommitReason::Sealed => push_phrases(
            text,
            &[(
                Head::Nothing,
                b"all voted yes or done, and nobody owned the commit",
            )],
        ),
        CommitReason::Owner(e) => push_phrases(
            text,
            &[(
                Head::Enlistment(Some(e)),
                b", which was handed the commit, answered committed",
            )],
        ),
        CommitReason::Logged => push_phrases(
            text,
            &[(
                Head::Nothing,
                b"all voted yes or done, and the coordinator's record was in the log",
            )],
        ),
    }
}

/// Whether two ends have one cause.
fn same_root(b: Root, v: Root) -> bool
    ensures { result ≡ same_root b v }
{
    match (b, v) {
        (Root::Cut(c, n), Root::Cut(d, m)) => c == d && n == m,
        (Root::Stopped(n), Root::Stopped(m)) => n == m,
        (Root::Unsaid(c), Root::Unsaid(d)) => c == d,
        _ => false,
    }
}

/// Appends the causes of two ends.
#[tactic(auto, using(crate::proofs::Joined::joined))]
fn push_roots(text: &mut Vec<u8>, b: Root, v: Root) -> Result<(), AllocError>
    ensures { OnOk result (text.new.items ≡ text.old.items ++ phrases_text (roots_said b v)) }
{
    push_root(text, b)?;
    if same_root(b, v) {
        return Ok(());
    }
    push_words(text, b" and ")?;
    push_root(text, v)
}

/// Appends why both connections ended, and when.
#[tactic(auto, using(crate::proofs::Joined::joined))]
fn push_both_ended(text: &mut Vec<u8>, b: Root, v: Root) -> Result<(), AllocError>
    ensures { OnOk result (text.new.items ≡ text.old.items ++ phrases_text (doubt_said (DoubtReason.Ended b v))) }
{
    push_roots(text, b, v)?;
    push_words(
        text,
        b": b and v ended after the local yes, and no outcome had come",
    )
}

/// Appends why the coordinator doesn't know what the one decided that it let decide.
#[tactic(auto, using(crate::proofs::Joined::joined))]
fn push_unheard(text: &mut Vec<u8>, r: Root, e: EnlNo) -> Result<(), AllocError>
    ensures { OnOk result (text.new.items ≡ text.old.items ++ phrases_text (doubt_said (DoubtReason.Unheard r e))) }
{
    push_root(text, r)?;
    push_phrases(
        text,
        &[
            (Head::Nothing, b": the coordinator had let "),
            (
                Head::Enlistment(Some(e)),
                b" decide, and no answer had come",
            ),
        ],
    )
}

/// Appends why an outcome is in doubt.
pub(crate) fn push_doubt(text: &mut Vec<u8>, reason: DoubtReason) -> Result<(), AllocError>
    ensures { OnOk result (text.new.items ≡ text.old.items ++ phrases_text (doubt_said reason)) }
{
    match reason {
        DoubtReason::Answered(e) => {
            push_one(text, e, b", which was handed the commit, answered in doubt")
        }
        DoubtReason::Lost(e) => push_one(
            text,
            e,
            b" was lost after it was handed the commit, without an answer",
        ),
        DoubtReason::Ended(b, v) => push_both_ended(text, b, v),
        DoubtReason::Unheard(r, e) => push_unheard(text, r, e),
    }
}

/// The words of a note.
fn note_words(note: Note) -> &'static [u8]
    ensures { result.now ≡ note_said note }
{
    match note {
        Note::Prepare => b"prepare",
        Note::Promote => b"promote",
        Note::Single => b"single",
        Note::Hand => b"the hand",
        _ => b"a note",
    }
}

/// Appends why a transaction is open.
pub(crate) fn push_open(text: &mut Vec<u8>, reason: OpenReason) -> Result<(), AllocError>
    ensures { OnOk result (text.new.items ≡ text.old.items ++ phrases_text (open_said reason)) }
{
    match reason {
        OpenReason::NotAsked => push_words(text, b"nobody asked for the commit or a rollback"),
        OpenReason::OpenClone(c) => push_phrases(
            text,
            &[
                (Head::Nothing, b"the blocking clone "),
                (Head::Clone(Some(c)), b" isn't complete"),
            ],
        ),
        OpenReason::Silent(e, note, n) => push_phrases(
            text,
            &[
                (Head::Enlistment(Some(e)), b" hasn't answered "),
                (Head::Nothing, note_words(note)),
                (Head::Nothing, b" (entry "),
                (Head::Number(n), b")"),
            ],
        ),
        OpenReason::Unsettled => push_words(text, b"it isn't settled"),
    }
}
