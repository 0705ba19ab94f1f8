//! Why a transaction aborted.
ghost use Rattle.std.specs.Prelude.{◌≡◌, ◌∷◌, ◌++◌, [], None, OnOk, codes};
ghost use Rattle.reason_text.specs.Phrases.{phrases_text};
ghost use Rattle.reason_text.specs.Sentences.{abort_said, abort_text, early_said, end_said, is_by_line, root_said, side_said};

use crate::phrases::{Head, push_one, push_phrases, push_words};
use crate::places::{push_by_entry, push_by_line};
use dtx_values::{Conn, Dir, ScopeNo};
use outcome_reasons::{AbortReason, Caller, Moment, Root};
use std::alloc::AllocError;

/// Appends in which line a connection was cut.
fn push_cut(text: &mut Vec<u8>, c: Conn, n: u32) -> Result<(), AllocError>
    ensures { OnOk result (text.new.items ≡ text.old.items ++ phrases_text (root_said (Root.Cut c n))) }
{
    let line = u64::from(n);
    push_phrases(
        text,
        &[
            (Head::Connection(c), b" was cut in line "),
            (Head::Number(line), b""),
        ],
    )
}

/// Appends why a connection ended.
pub(crate) fn push_root(text: &mut Vec<u8>, root: Root) -> Result<(), AllocError>
    ensures { OnOk result (text.new.items ≡ text.old.items ++ phrases_text (root_said root)) }
{
    match root {
        Root::Cut(c, n) => push_cut(text, c, n),
        Root::Stopped(n) => push_phrases(
            text,
            &[
                (Head::Nothing, b"the coordinator stopped at entry "),
                (Head::Number(n), b""),
            ],
        ),
        Root::Unsaid(c) => push_phrases(text, &[(Head::Connection(c), b" ended")]),
    }
}

/// Appends which side saw the end of a connection.
fn push_side(text: &mut Vec<u8>, d: Dir) -> Result<(), AllocError>
    ensures { OnOk result (text.new.items ≡ text.old.items ++ phrases_text (side_said d)) }
{
    match d {
        Dir::Down => push_phrases(
            text,
            &[(Head::Nothing, b", and the local side saw its end before ")],
        ),
        Dir::Up => push_phrases(
            text,
            &[(Head::Nothing, b", and the coordinator saw its end before ")],
        ),
    }
}

/// Appends what the end of a connection came before.
fn push_early(text: &mut Vec<u8>, c: Conn, d: Dir) -> Result<(), AllocError>
    ensures { OnOk result (text.new.items ≡ text.old.items ++ phrases_text (early_said c d)) }
{
    match (c, d) {
        (Conn::Begin | Conn::Voter, Dir::Down) => push_phrases(
            text,
            &[(Head::Nothing, b"its yes")],
        ),
        (Conn::Begin, Dir::Up) => push_phrases(text, &[(Head::Nothing, b"COMMIT came")]),
        (Conn::Voter, Dir::Up) => push_phrases(text, &[(Head::Nothing, b"YES came")]),
        (Conn::Enl(_) | Conn::Again(_), _) => push_phrases(
            text,
            &[(Head::Nothing, b"the vote of "), (Head::Connection(c), b"")],
        ),
    }
}

/// Appends why a connection ended, and what its end came before.
#[tactic(auto, using(crate::proofs::Joined::joined))]
fn push_end(text: &mut Vec<u8>, root: Root, c: Conn, d: Dir) -> Result<(), AllocError>
    ensures { OnOk result (text.new.items ≡ text.old.items ++ phrases_text (end_said root c d)) }
{
    push_root(text, root)?;
    push_side(text, d)?;
    push_early(text, c, d)
}

/// Appends which scope a client closed, and the one that was open above it.
fn push_nested(text: &mut Vec<u8>, by: Head, q: ScopeNo, r: ScopeNo) -> Result<(), AllocError>
    ensures { OnOk result (text.new.items ≡ text.old.items ++ phrases_text ((by, codes " closed ") ∷ (Head.Scope q, codes " while ") ∷ (Head.Scope r, codes " was open above it") ∷ [])) }
{
    push_phrases(
        text,
        &[
            (by, b" closed "),
            (Head::Scope(q), b" while "),
            (Head::Scope(r), b" was open above it"),
        ],
    )
}

/// Appends the clock and the timeout.
fn push_times(text: &mut Vec<u8>, clock: u64, limit: u32) -> Result<(), AllocError>
    ensures { OnOk result (text.new.items ≡ text.old.items ++ phrases_text (abort_said None (AbortReason.TimedOut clock limit))) }
{
    push_phrases(
        text,
        &[
            (Head::Nothing, b"its clock reached "),
            (Head::Number(clock), b" ms, and its timeout is "),
            (Head::Number(u64::from(limit)), b" ms"),
        ],
    )
}

/// Appends two phrases.
fn push_two(
    text: &mut Vec<u8>,
    first: Head,
    after: &[u8],
    second: Head,
    end: &[u8],
) -> Result<(), AllocError>
    ensures { OnOk result (text.new.items ≡ text.old.items ++ phrases_text ((first, after.now) ∷ (second, end.now) ∷ [])) }
{
    push_phrases(text, &[(first, after), (second, end)])
}

/// Appends what justified an abort.
fn push_reason(
    text: &mut Vec<u8>,
    by: Option<Caller>,
    reason: AbortReason,
) -> Result<(), AllocError>
    ensures { OnOk result (text.new.items ≡ text.old.items ++ phrases_text (abort_said by reason)) }
{
    let by = Head::Caller(by);
    match reason {
        AbortReason::RolledBack => push_phrases(text, &[(by, b" rolled it back")]),
        AbortReason::Unfinished(q) => {
            push_two(
                text,
                by,
                b" closed ",
                Head::Scope(q),
                b", which wasn't finished",
            )
        }
        AbortReason::Nested(q, r) => push_nested(text, by, q, r),
        AbortReason::TimedOut(clock, limit) => push_times(text, clock, limit),
        AbortReason::OpenClone(c) => push_two(
            text,
            by,
            b" asked for the commit while the clone ",
            Head::Clone(c),
            b" wasn't complete",
        ),
        AbortReason::Lost(e) => push_one(text, e, b" was lost before it voted"),
        AbortReason::VotedNo(e) => push_one(text, e, b" voted no"),
        AbortReason::OwnerAborted(e) => {
            push_one(text, e, b", which was handed the commit, answered aborted")
        }
        AbortReason::NotPromoted(e) => push_one(text, e, b" couldn't be promoted"),
        AbortReason::Requested(e) => push_one(text, e, b" requested the abort"),
        AbortReason::Ended(root, c, d) => push_end(text, root, c, d),
        AbortReason::LogFull => push_words(text, b"the coordinator's log was full"),
        AbortReason::NoRecord => push_words(
            text,
            b"the coordinator was started again, and its log had no record",
        ),
    }
}

/// Whether a call gave it.
fn is_by_line(reason: AbortReason) -> bool
    ensures { result ≡ is_by_line reason }
{
    matches!(
        reason,
        AbortReason::RolledBack
            | AbortReason::Unfinished(_)
            | AbortReason::Nested(_, _)
            | AbortReason::TimedOut(_, _)
            | AbortReason::OpenClone(_)
            | AbortReason::Lost(_)
    )
}

/// Appends what justified an abort, and where it stands.
pub(crate) fn push_abort(
    text: &mut Vec<u8>,
    reason: AbortReason,
    m: Moment,
) -> Result<(), AllocError>
    ensures { OnOk result (text.new.items ≡ text.old.items ++ abort_text reason m) }
{
    push_reason(text, m.caller, reason)?;
    if is_by_line(reason) {
        push_by_line(text, m)
    } else {
        push_by_entry(text, m.entry)
    }
}
