//! The page of a trace.
ghost use Rattle.std.specs.Prelude.{◌≡◌, ◌++◌, IfOk, OnOk, codes, length, map};
ghost use Rattle.std.specs.List.{flat_map};
ghost use Rattle.dtx_model.specs.Grammar.{transaction_name};
ghost use Rattle.dtx_model.specs.TraceText.{trace_text};
ghost use Rattle.dtx_model.specs.Words.{has, past_of};
ghost use Rattle.outcome_reasons.specs.Whys.{by_number, is_began};
ghost use Rattle.trace_page.specs.Page.{drawn, heading, page, paragraph, paragraph_of, picture, picture_end, picture_head, right_of, section_if, sections, why_kind};
ghost use Rattle.trace_picture.specs.Lanes.{promotes};
ghost use Rattle.trace_page.specs.Geometry.{y_of};

use crate::columns::push_lanes;
use crate::drawn::push_rows;
use crate::geometry::{end_of, y_of};
use crate::laws::one_page;
use crate::style::push_style;
use dtx_values::{Entry, Script, TxNo};
use entry_lists::Trace;
use outcome_reasons::{History, Why, is_begun, why};
use reason_text::{Head, push_phrases, push_why};
use std::alloc::{AllocError, Global};
use trace_lines::print_trace;
use trace_picture::{Lanes, arrived_of, each_got_has_its_arrow, lanes_of, rows_of};

/// The colour of what is said.
fn why_kind(why: Why) -> &'static [u8]
    ensures { result.now ≡ why_kind why }
{
    match why {
        Why::Committed(_, _) | Why::CoordinatorCommitted(_) => b"committed",
        Why::Aborted(_, _) | Why::CoordinatorAborted(_) => b"aborted",
        Why::InDoubt(_, _) => b"indoubt",
        _ => b"other",
    }
}

/// Appends a paragraph.
fn push_paragraph(text: &mut Vec<u8>, x: (TxNo, Why)) -> Result<(), AllocError>
    ensures { OnOk result (text.new.items ≡ text.old.items ++ paragraph (by_number x)) }
{
    text.extend_from_slice(b"<p class=\"")?;
    text.extend_from_slice(why_kind(x.1))?;
    text.extend_from_slice(b"\">")?;
    push_why(text, x.0, x.1)?;
    text.extend_from_slice(b"</p>\n")
}

/// Appends a paragraph, where it is of transaction t.
fn push_paragraph_of(text: &mut Vec<u8>, t: TxNo, x: (TxNo, Why)) -> Result<(), AllocError>
    ensures { OnOk result (text.new.items ≡ text.old.items ++ paragraph_of t.value (by_number x)) }
{
    if t == x.0 {
        push_paragraph(text, x)?;
    }
    Ok(())
}

/// Appends the paragraphs of transaction t.
fn push_paragraphs(text: &mut Vec<u8>, t: TxNo, whys: &[(TxNo, Why)]) -> Result<(), AllocError>
    ensures { OnOk result (text.new.items ≡ text.old.items ++ flat_map (paragraph_of t.value) (map by_number whys.now)) }
{
    for x in whys {
        push_paragraph_of(text, t, *x)?;
    }
    Ok(())
}

/// Where the picture ends at the right.
fn right_of(l: &Lanes, far: bool) -> u64
    ensures { result ≡ right_of l.now far }
{
    if far { end_of(l, 690) } else { end_of(l, 560) }
}

/// Appends what a picture begins with.
#[tactic(auto, unfolding(crate::specs::Page::picture_head))]
fn push_picture_head(text: &mut Vec<u8>, x: u64, y: u64) -> Result<(), AllocError>
    ensures { OnOk result (text.new.items ≡ text.old.items ++ picture_head x y) }
{
    push_phrases(
        text,
        &[
            (Head::Nothing, b"<div><svg viewBox=\"0 0 "),
            (Head::Number(x), b" "),
            (Head::Number(y), b"\" width=\""),
            (Head::Number(x), b"\" height=\""),
            (Head::Number(y), b"\">\n"),
        ],
    )
}

/// Appends what a picture ends with.
#[tactic(auto, unfolding(crate::specs::Page::picture_end))]
fn push_picture_end(text: &mut Vec<u8>) -> Result<(), AllocError>
    ensures { OnOk result (text.new.items ≡ text.old.items ++ picture_end) }
{
    text.extend_from_slice(b"</svg></div>\n")
}

/// Whether the entry promotes.
fn is_promoting(x: &Entry) -> bool
    ensures { result ≡ promotes x.now }
{
    matches!(x, Entry::Promoting(_) | Entry::Sent(_, _, _))
}

/// Whether one of them promotes.
fn has_promoting(h: &[Entry]) -> bool
    ensures { result ≡ has (λ x. promotes x) h.now }
{
    h.iter().any(|x| is_promoting(x))
}

/// The same, of them newest first.
#[tactic(auto, using(dtx_model::proofs::Reading::reading))]
fn was_promoting(h: &[Entry]) -> bool
    ensures { result ≡ has (λ x. promotes x) (past_of h.now) }
{
    has_promoting(h)
}

/// Whether the transaction was begun, of its entries newest first.
#[tactic(auto, using(dtx_model::proofs::Reading::reading))]
fn was_begun(h: &[Entry]) -> bool
    ensures { result ≡ has (λ x. is_began x) (past_of h.now) }
{
    is_begun(h)
}

/// The place of the row after the last.
#[tactic(auto, using(trace_picture::proofs::Places::places))]
fn foot_of(h: &[Entry]) -> u64
    ensures { result ≡ y_of (length (past_of h.now)) }
{
    y_of(h.len())
}

/// Appends a picture with these lanes, of rows among which these are those of what came, down to this place.
fn push_drawn(
    alloc: Global,
    text: &mut Vec<u8>,
    script: &Script,
    rows: &History,
    lanes: &Lanes,
    came: &[usize],
    far: bool,
    foot: u64,
) -> Result<(), AllocError>
    ensures { OnOk result (text.new.items ≡ text.old.items ++ drawn script.now rows.now lanes.now (past_of came.now) far foot) }
{
    push_picture_head(text, right_of(lanes, far), foot)?;
    push_lanes(text, lanes, &rows.entries, foot, far)?;
    push_rows(alloc, text, script.lines(), lanes, came, rows)?;
    push_picture_end(text)
}

/// Appends a picture.
#[tactic(auto, unfolding(crate::specs::Page::picture))]
fn push_picture(
    alloc: Global,
    text: &mut Vec<u8>,
    script: &Script,
    rows: &History,
) -> Result<(), AllocError>
    ensures { OnOk result (text.new.items ≡ text.old.items ++ picture script.now rows.now) }
{
    let h: &[Entry] = &rows.entries;
    let lanes = lanes_of(alloc, h)?;
    let came = arrived_of(alloc, h)?;
    push_drawn(
        alloc,
        text,
        script,
        rows,
        &lanes,
        &came,
        was_promoting(h),
        foot_of(h),
    )
}

/// Appends the heading of a transaction.
fn push_heading(text: &mut Vec<u8>, t: TxNo) -> Result<(), AllocError>
    ensures { OnOk result (text.new.items ≡ text.old.items ++ heading t.value) }
{
    push_phrases(
        text,
        &[(Head::Nothing, b"<h2>"), (Head::Transaction(t), b"</h2>\n")],
    )
}

/// Appends what the page has of a transaction that was begun, whose rows these are.
fn push_begun(
    alloc: Global,
    text: &mut Vec<u8>,
    script: &Script,
    whys: &[(TxNo, Why)],
    t: TxNo,
    rows: &History,
) -> Result<(), AllocError>
    ensures { OnOk result (text.new.items ≡ text.old.items ++ (heading t.value ++ (flat_map (paragraph_of t.value) (map by_number whys.now) ++ picture script.now rows.now))) }
{
    push_heading(text, t)?;
    push_paragraphs(text, t, whys)?;
    push_picture(alloc, text, script, rows)
}

/// Appends what the page has of a transaction, whose rows these are.
fn push_section(
    alloc: Global,
    text: &mut Vec<u8>,
    script: &Script,
    whys: &[(TxNo, Why)],
    t: TxNo,
    rows: &History,
) -> Result<(), AllocError>
    ensures { OnOk result (text.new.items ≡ text.old.items ++ section_if script.now (map by_number whys.now) t.value rows.now) }
{
    if was_begun(&rows.entries) {
        push_begun(alloc, text, script, whys, t, rows)?;
    }
    Ok(())
}

/// Appends what the page has of each transaction.
fn push_sections(
    alloc: Global,
    text: &mut Vec<u8>,
    script: &Script,
    trace: &Trace,
    whys: &[(TxNo, Why)],
) -> Result<(), AllocError>
    ensures { OnOk result (text.new.items ≡ text.old.items ++ sections script.now (map by_number whys.now) trace.now) }
{
    for i in 0..TxNo::MAX {
        let t = TxNo::new(i + 1).unwrap();
        let rows = rows_of(alloc, trace, t)?;
        push_section(alloc, text, script, whys, t, &rows)?;
    }
    Ok(())
}

/// Appends the trace in the plain form.
fn push_trace(alloc: Global, text: &mut Vec<u8>, trace: &Trace) -> Result<(), AllocError>
    ensures { OnOk result (text.new.items ≡ text.old.items ++ (codes "<pre>" ++ (trace_text trace.now ++ codes "</pre>\n"))) }
{
    let plain = print_trace(alloc, trace, false)?;
    text.extend_from_slice(b"<pre>")?;
    text.extend_from_slice(&plain)?;
    text.extend_from_slice(b"</pre>\n")
}

/// The page of a trace of this script, in HTML: for each transaction that was begun, in order of number, why it ended so and a picture of its entries; and at the end the trace in
/// the plain form. It needs nothing from elsewhere. Its form is this project's own.
///
/// # Errors
///
/// [`AllocError`] where memory ran out.
#[tactic(auto, unfolding(crate::specs::Page::page))]
pub fn page(alloc: Global, script: &Script, trace: &Trace) -> Result<Vec<u8>, AllocError>
    ensures page { IfOk result (λ v. v.items ≡ page script.now trace.now) }
{
    // These do nothing when they run. They bring in that a page has one trace, and that each message that comes has an arrow from where it was sent.
    one_page();
    each_got_has_its_arrow();
    let whys = why(alloc, script, trace)?;
    let mut text = Vec::new(alloc);
    push_style(&mut text)?;
    push_sections(alloc, &mut text, script, trace, &whys)?;
    push_trace(alloc, &mut text, trace)?;
    Ok(text)
}
