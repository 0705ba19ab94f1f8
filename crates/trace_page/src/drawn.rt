//! The marks of a picture as they are drawn.
ghost use Rattle.std.specs.Prelude.{◌≡◌, ◌∷◌, ◌++◌, OnOk, codes, length, slice_index_or};
ghost use Rattle.dtx_model.specs.Words.{past_of};
ghost use Rattle.trace_page.specs.Geometry.{x_of, y_of};
ghost use Rattle.trace_page.specs.Drawn.{arrow_kind, decision_kind, mark_text, marked, number_text, row_line, row_text, rows_text, said_at, said_line, words_kind};

use crate::geometry::{x_of, y_of};
use crate::labels::push_label;
use crate::pieces::{Point, push_line, push_words_at, push_words_end};
use dtx_values::{Entry, Line, Outcome};
use outcome_reasons::{History, number_at};
use reason_text::{Head, push_phrases};
use std::alloc::{AllocError, Global};
use trace_picture::{Label, Lane, Lanes, Mark, Spot, mark_of};

/// The style of an arrow.
fn arrow_kind(tone: Option<Outcome>) -> &'static [u8]
    ensures { result.now ≡ arrow_kind tone }
{
    match tone {
        None => b"arrow",
        Some(Outcome::Committed) => b"arrow committed",
        Some(Outcome::Aborted) => b"arrow aborted",
        Some(Outcome::InDoubt) => b"arrow indoubt",
    }
}

/// The style of a decision.
fn decision_kind(o: Outcome) -> &'static [u8]
    ensures { result.now ≡ decision_kind o }
{
    match o {
        Outcome::Committed => b"decided committed",
        Outcome::Aborted => b"decided aborted",
        Outcome::InDoubt => b"decided indoubt",
    }
}

/// On which side of a line's start its words stand.
fn words_kind(from: Lane, to: Lane) -> &'static [u8]
    ensures { result.now ≡ words_kind from to }
{
    match (from, to) {
        (Lane::Local, Lane::Client(_) | Lane::Enlistment(_))
        | (Lane::Coordinator, Lane::Local | Lane::Between) => b"before",
        _ => b"after",
    }
}

/// A place in the picture, in pixels.
fn point(l: &Lanes, lane: Lane, row: usize) -> Point
    ensures x { result.x ≡ x_of l.now lane }
    ensures y { result.y ≡ y_of row }
{
    Point {
        x: x_of(l, lane),
        y: y_of(row),
    }
}

/// Appends the words of a mark.
fn push_said_at(
    alloc: Global,
    text: &mut Vec<u8>,
    lines: &[Line],
    l: &Lanes,
    kind: &[u8],
    at: Spot,
    label: Label,
) -> Result<(), AllocError>
    ensures { OnOk result (text.new.items ≡ text.old.items ++ said_at lines.now l.now kind.now at.lane at.row label) }
{
    push_words_at(text, kind, point(l, at.lane, at.row))?;
    push_label(alloc, text, lines, label)?;
    push_words_end(text)
}

/// Appends a line with its words.
fn push_said_line(
    alloc: Global,
    text: &mut Vec<u8>,
    lines: &[Line],
    l: &Lanes,
    kind: &[u8],
    from: Spot,
    to: Spot,
    label: Label,
) -> Result<(), AllocError>
    ensures { OnOk result (text.new.items ≡ text.old.items ++ said_line lines.now l.now kind.now from to label) }
{
    push_line(
        text,
        kind,
        point(l, from.lane, from.row),
        point(l, to.lane, to.row),
    )?;
    push_said_at(
        alloc,
        text,
        lines,
        l,
        words_kind(from.lane, to.lane),
        from,
        label,
    )
}

/// Appends a line in a row.
fn push_row_line(
    text: &mut Vec<u8>,
    l: &Lanes,
    kind: &[u8],
    from: Lane,
    to: Lane,
    row: usize,
) -> Result<(), AllocError>
    ensures { OnOk result (text.new.items ≡ text.old.items ++ row_line l.now kind.now from to row) }
{
    push_line(text, kind, point(l, from, row), point(l, to, row))
}

/// Appends a connection that is cut.
fn push_cut(
    alloc: Global,
    text: &mut Vec<u8>,
    lines: &[Line],
    l: &Lanes,
    row: usize,
    label: Label,
) -> Result<(), AllocError>
    ensures { OnOk result (text.new.items ≡ text.old.items ++ mark_text lines.now l.now (Mark.Cut row label)) }
{
    let between = Spot {
        lane: Lane::Between,
        row,
    };
    push_row_line(text, l, b"cut", Lane::Local, Lane::Coordinator, row)?;
    push_said_at(alloc, text, lines, l, b"cut", between, label)
}

/// Appends the end of a connection, as a side sees it.
fn push_end(
    alloc: Global,
    text: &mut Vec<u8>,
    lines: &[Line],
    l: &Lanes,
    at: Spot,
    label: Label,
) -> Result<(), AllocError>
    ensures { OnOk result (text.new.items ≡ text.old.items ++ mark_text lines.now l.now (Mark.End at label)) }
{
    push_row_line(text, l, b"end", at.lane, at.lane, at.row)?;
    push_said_at(alloc, text, lines, l, b"ended", at, label)
}

/// Appends a stop or a start of the coordinator.
fn push_still(
    alloc: Global,
    text: &mut Vec<u8>,
    lines: &[Line],
    l: &Lanes,
    row: usize,
    label: Label,
) -> Result<(), AllocError>
    ensures { OnOk result (text.new.items ≡ text.old.items ++ mark_text lines.now l.now (Mark.Still row label)) }
{
    let coordinator = Spot {
        lane: Lane::Coordinator,
        row,
    };
    push_row_line(text, l, b"still", Lane::Coordinator, Lane::Log, row)?;
    push_said_at(alloc, text, lines, l, b"still", coordinator, label)
}

/// Appends a mark.
fn push_mark(
    alloc: Global,
    text: &mut Vec<u8>,
    lines: &[Line],
    l: &Lanes,
    m: Mark,
) -> Result<(), AllocError>
    ensures { OnOk result (text.new.items ≡ text.old.items ++ mark_text lines.now l.now m) }
{
    match m {
        Mark::Arrow(from, to, tone, label) => {
            push_said_line(alloc, text, lines, l, arrow_kind(tone), from, to, label)
        }
        Mark::Lost(from, label) => {
            let to = Spot {
                lane: Lane::Between,
                row: from.row,
            };
            push_said_line(alloc, text, lines, l, b"arrow lost", from, to, label)
        }
        Mark::Event(at, label) => push_said_at(alloc, text, lines, l, b"event", at, label),
        Mark::Cut(row, label) => push_cut(alloc, text, lines, l, row, label),
        Mark::End(at, label) => push_end(alloc, text, lines, l, at, label),
        Mark::Still(row, label) => push_still(alloc, text, lines, l, row, label),
        Mark::Decision(row, o, label) => push_at_local(
            alloc,
            text,
            lines,
            l,
            decision_kind(o),
            row,
            label,
        ),
        Mark::Note(row, label) => push_at_local(alloc, text, lines, l, b"note", row, label),
    }
}

/// Appends words at the local side.
fn push_at_local(
    alloc: Global,
    text: &mut Vec<u8>,
    lines: &[Line],
    l: &Lanes,
    kind: &[u8],
    row: usize,
    label: Label,
) -> Result<(), AllocError>
    ensures { OnOk result (text.new.items ≡ text.old.items ++ said_at lines.now l.now kind.now Lane.Local row label) }
{
    let at = Spot {
        lane: Lane::Local,
        row,
    };
    push_said_at(alloc, text, lines, l, kind, at, label)
}

/// Appends a mark, where there is one.
fn push_marked(
    alloc: Global,
    text: &mut Vec<u8>,
    lines: &[Line],
    l: &Lanes,
    m: Option<Mark>,
) -> Result<(), AllocError>
    ensures { OnOk result (text.new.items ≡ text.old.items ++ marked lines.now l.now m) }
{
    match m {
        Some(m) => push_mark(alloc, text, lines, l, m),
        None => Ok(()),
    }
}

/// Appends the number of an entry, at the left of its row.
fn push_number(text: &mut Vec<u8>, row: usize, n: u64) -> Result<(), AllocError>
    ensures { OnOk result (text.new.items ≡ text.old.items ++ number_text row n) }
{
    let at = Point {
        x: 40,
        y: y_of(row),
    };
    push_words_at(text, b"number", at)?;
    push_phrases(text, &[(Head::Number(n), b"")])?;
    push_words_end(text)
}

/// Appends a row.
#[tactic(auto, using(trace_picture::proofs::Places::places))]
fn push_row(
    alloc: Global,
    text: &mut Vec<u8>,
    lines: &[Line],
    l: &Lanes,
    came: &[usize],
    h: &[Entry],
    x: &Entry,
    n: u64,
) -> Result<(), AllocError>
    ensures { OnOk result (text.new.items ≡ text.old.items ++ row_text lines.now l.now (past_of came.now) (past_of h.now) x.now n) }
{
    push_number(text, h.len(), n)?;
    let mark = mark_of(alloc, lines, came, h, x)?;
    push_marked(alloc, text, lines, l, mark)
}

/// Appends the rows of a picture.
pub(crate) fn push_rows(
    alloc: Global,
    text: &mut Vec<u8>,
    lines: &[Line],
    l: &Lanes,
    came: &[usize],
    rows: &History,
) -> Result<(), AllocError>
    ensures { OnOk result (text.new.items ≡ text.old.items ++ rows_text lines.now l.now (past_of came.now) rows.now.numbers rows.now.entries) }
{
    let h: &[Entry] = &rows.entries;
    for (i, x) in h.iter().enumerate() {
        let n = number_at(&rows.numbers, i);
        push_row(alloc, text, lines, l, came, &h[..i], x, n)?;
    }
    Ok(())
}
