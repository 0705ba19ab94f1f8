//! How a page looks.
ghost use Rattle.std.specs.Prelude.{◌≡◌, ◌++◌, OnOk};
ghost use Rattle.trace_page.specs.Style.{colours, head, heads, lines_style, marks_style, style, words_style};

use reason_text::{Head, push_phrases};
use std::alloc::AllocError;

/// Appends the head of the page.
#[tactic(auto, unfolding(crate::specs::Style::head))]
fn push_head(text: &mut Vec<u8>) -> Result<(), AllocError>
    ensures { OnOk result (text.new.items ≡ text.old.items ++ head) }
{
    push_phrases(
        text,
        &[
            (Head::Nothing, b"<!doctype html>\n"),
            (Head::Nothing, b"<html lang='en'>\n"),
            (Head::Nothing, b"<meta charset='utf-8'>\n"),
            (
                Head::Nothing,
                b"<meta name='viewport' content='width=device-width'>\n",
            ),
            (Head::Nothing, b"<title>dtx</title>\n"),
        ],
    )
}

/// Appends the colours, and the style of the words beside the pictures.
#[tactic(auto, unfolding(crate::specs::Style::colours))]
fn push_colours(text: &mut Vec<u8>) -> Result<(), AllocError>
    ensures { OnOk result (text.new.items ≡ text.old.items ++ colours) }
{
    push_phrases(
        text,
        &[
            (Head::Nothing, b"<style>\n"),
            (
                Head::Nothing,
                b":root{color-scheme:light dark;--ink:#222;--paper:#fff;--soft:#777;--rule:#bbb;--run:#446;--good:#187a3a;--bad:#b02020;--doubt:#946200;--client:#e8f0fb;--list:#f4ecf9;--side:#fdf3e1}\n",
            ),
            (
                Head::Nothing,
                b"@media(prefers-color-scheme:dark){:root{--ink:#ddd;--paper:#181a1f;--soft:#999;--rule:#555;--run:#aab8d8;--good:#5cc47f;--bad:#f07a7a;--doubt:#e0aa45;--client:#22344f;--list:#3a2a47;--side:#47391f}}\n",
            ),
            (
                Head::Nothing,
                b"body{font:14px/1.45 system-ui,sans-serif;margin:20px;color:var(--ink);background:var(--paper)}\n",
            ),
            (Head::Nothing, b"h2{font-size:16px;margin:28px 0 6px}\n"),
            (
                Head::Nothing,
                b"p{margin:2px 0;padding:5px 10px;border-left:4px solid var(--soft);background:color-mix(in srgb,var(--soft) 10%,var(--paper))}\n",
            ),
            (
                Head::Nothing,
                b"p.committed{border-color:var(--good)}p.aborted{border-color:var(--bad)}p.indoubt{border-color:var(--doubt)}\n",
            ),
        ],
    )
}

/// Appends the style of the words of a picture.
#[tactic(auto, unfolding(crate::specs::Style::words_style))]
fn push_words_style(text: &mut Vec<u8>) -> Result<(), AllocError>
    ensures { OnOk result (text.new.items ≡ text.old.items ++ words_style) }
{
    push_phrases(
        text,
        &[
            (Head::Nothing, b"div,pre{overflow-x:auto;margin-top:10px}\n"),
            (
                Head::Nothing,
                b"pre{font:12px/1.4 ui-monospace,monospace}\n",
            ),
            (
                Head::Nothing,
                b"svg text{font:11px ui-monospace,monospace;fill:var(--ink);stroke:var(--paper);stroke-width:3px;paint-order:stroke}\n",
            ),
            (
                Head::Nothing,
                b"svg .title{font-weight:bold;text-anchor:middle;stroke:none}\n",
            ),
            (
                Head::Nothing,
                b"svg .number{fill:var(--soft);text-anchor:end;transform:translateY(4px)}\n",
            ),
            (
                Head::Nothing,
                b"svg .event{fill:var(--soft);font-style:italic;transform:translate(8px,4px)}\n",
            ),
            (
                Head::Nothing,
                b"svg .note{fill:var(--soft);transform:translate(8px,4px)}\n",
            ),
            (
                Head::Nothing,
                b"svg .decided{font-weight:bold;transform:translate(8px,4px)}\n",
            ),
            (
                Head::Nothing,
                b"svg .after{transform:translate(8px,-4px)}\n",
            ),
            (
                Head::Nothing,
                b"svg .before{text-anchor:end;transform:translate(-8px,-4px)}\n",
            ),
            (
                Head::Nothing,
                b"svg text.cut{fill:var(--bad);text-anchor:middle;transform:translateY(-3px)}\n",
            ),
            (
                Head::Nothing,
                b"svg .ended{fill:var(--bad);transform:translate(10px,4px)}\n",
            ),
            (
                Head::Nothing,
                b"svg text.still{stroke:none;transform:translate(-2px,4px)}\n",
            ),
        ],
    )
}

/// Appends the style of its lines and boxes.
#[tactic(auto, unfolding(crate::specs::Style::lines_style))]
fn push_lines_style(text: &mut Vec<u8>) -> Result<(), AllocError>
    ensures { OnOk result (text.new.items ≡ text.old.items ++ lines_style) }
{
    push_phrases(
        text,
        &[
            (
                Head::Nothing,
                b"svg path{fill:none;stroke:var(--run);stroke-width:1.2}\n",
            ),
            (
                Head::Nothing,
                b"svg .lane{stroke:var(--rule);stroke-dasharray:3 3}\n",
            ),
            (
                Head::Nothing,
                b"svg .box{fill:var(--paper);stroke:var(--soft);rx:5px;transform:translateX(-50px)}\n",
            ),
            (
                Head::Nothing,
                b"svg .client{fill:var(--client)}svg .enlistment{fill:var(--list)}svg .side{fill:var(--side)}\n",
            ),
            (Head::Nothing, b"svg .arrow{marker-end:url(#run)}\n"),
            (
                Head::Nothing,
                b"svg path.committed{stroke:var(--good);marker-end:url(#good)}svg text.committed{fill:var(--good)}\n",
            ),
            (
                Head::Nothing,
                b"svg path.aborted{stroke:var(--bad);marker-end:url(#bad)}svg text.aborted{fill:var(--bad)}\n",
            ),
            (
                Head::Nothing,
                b"svg path.indoubt{stroke:var(--doubt);marker-end:url(#doubt)}svg text.indoubt{fill:var(--doubt)}\n",
            ),
        ],
    )
}

/// Appends the style of what is lost, cut or stopped, and of the heads of the arrows.
#[tactic(auto, unfolding(crate::specs::Style::marks_style))]
fn push_marks_style(text: &mut Vec<u8>) -> Result<(), AllocError>
    ensures { OnOk result (text.new.items ≡ text.old.items ++ marks_style) }
{
    push_phrases(
        text,
        &[
            (
                Head::Nothing,
                b"svg .lost{stroke:var(--bad);stroke-dasharray:4 3;marker-end:url(#cross)}\n",
            ),
            (
                Head::Nothing,
                b"svg path.cut{stroke:var(--bad);stroke-dasharray:2 3}\n",
            ),
            (Head::Nothing, b"svg .end{marker-end:url(#cross)}\n"),
            (
                Head::Nothing,
                b"svg path.still{stroke:var(--side);stroke-width:17;stroke-linecap:square}\n",
            ),
            (
                Head::Nothing,
                b"#run{fill:var(--run)}#good{fill:var(--good)}#bad{fill:var(--bad)}#doubt{fill:var(--doubt)}\n",
            ),
            (
                Head::Nothing,
                b"svg marker path{fill:inherit;stroke:none}\n",
            ),
            (
                Head::Nothing,
                b"svg #cross path{stroke:var(--bad);stroke-width:1.6}\n",
            ),
        ],
    )
}

/// Appends the heads of the arrows.
#[tactic(auto, unfolding(crate::specs::Style::heads))]
fn push_heads(text: &mut Vec<u8>) -> Result<(), AllocError>
    ensures { OnOk result (text.new.items ≡ text.old.items ++ heads) }
{
    push_phrases(
        text,
        &[
            (Head::Nothing, b"</style>\n"),
            (
                Head::Nothing,
                b"<svg width='0' height='0' style='position:absolute'><defs>\n",
            ),
            (
                Head::Nothing,
                b"<marker id='run' viewBox='0 0 8 8' refX='8' refY='4' markerWidth='8' markerHeight='8' markerUnits='userSpaceOnUse' orient='auto'><path d='M0 0L8 4L0 8z'/></marker>\n",
            ),
            (
                Head::Nothing,
                b"<marker id='good' viewBox='0 0 8 8' refX='8' refY='4' markerWidth='8' markerHeight='8' markerUnits='userSpaceOnUse' orient='auto'><path d='M0 0L8 4L0 8z'/></marker>\n",
            ),
            (
                Head::Nothing,
                b"<marker id='bad' viewBox='0 0 8 8' refX='8' refY='4' markerWidth='8' markerHeight='8' markerUnits='userSpaceOnUse' orient='auto'><path d='M0 0L8 4L0 8z'/></marker>\n",
            ),
            (
                Head::Nothing,
                b"<marker id='doubt' viewBox='0 0 8 8' refX='8' refY='4' markerWidth='8' markerHeight='8' markerUnits='userSpaceOnUse' orient='auto'><path d='M0 0L8 4L0 8z'/></marker>\n",
            ),
            (
                Head::Nothing,
                b"<marker id='cross' viewBox='0 0 12 12' refX='6' refY='6' markerWidth='12' markerHeight='12' markerUnits='userSpaceOnUse'><path d='M1 1L11 11M11 1L1 11'/></marker>\n",
            ),
            (Head::Nothing, b"</defs></svg>\n"),
        ],
    )
}

/// Appends what a page begins with.
pub(crate) fn push_style(text: &mut Vec<u8>) -> Result<(), AllocError>
    ensures { OnOk result (text.new.items ≡ text.old.items ++ style) }
{
    push_head(text)?;
    push_colours(text)?;
    push_words_style(text)?;
    push_lines_style(text)?;
    push_marks_style(text)?;
    push_heads(text)
}
