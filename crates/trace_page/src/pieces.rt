//! The pieces of a picture: lines and words.
ghost use Rattle.std.specs.Prelude.{◌≡◌, ◌++◌, OnOk};
ghost use Rattle.trace_page.specs.Pieces.{line, title_box, words_at, words_end};

use reason_text::{Head, push_phrases};
use std::alloc::AllocError;

/// A place in a picture, in pixels.
#[derive(Clone, Copy)]
pub(crate) struct Point {
    pub(crate) x: u64,
    pub(crate) y: u64,
}

/// Appends a line from one place to another.
#[tactic(auto, unfolding(crate::specs::Pieces::line))]
pub(crate) fn push_line(
    text: &mut Vec<u8>,
    kind: &[u8],
    from: Point,
    to: Point,
) -> Result<(), AllocError>
    ensures { OnOk result (text.new.items ≡ text.old.items ++ line kind.now from.x from.y to.x to.y) }
{
    push_phrases(
        text,
        &[
            (Head::Nothing, b"<path class=\""),
            (Head::Nothing, kind),
            (Head::Nothing, b"\" d=\"M"),
            (Head::Number(from.x), b" "),
            (Head::Number(from.y), b"L"),
            (Head::Number(to.x), b" "),
            (Head::Number(to.y), b"\"/>"),
        ],
    )
}

/// Appends where words begin.
#[tactic(auto, unfolding(crate::specs::Pieces::words_at))]
pub(crate) fn push_words_at(text: &mut Vec<u8>, kind: &[u8], at: Point) -> Result<(), AllocError>
    ensures { OnOk result (text.new.items ≡ text.old.items ++ words_at kind.now at.x at.y) }
{
    push_phrases(
        text,
        &[
            (Head::Nothing, b"<text class=\""),
            (Head::Nothing, kind),
            (Head::Nothing, b"\" x=\""),
            (Head::Number(at.x), b"\" y=\""),
            (Head::Number(at.y), b"\">"),
        ],
    )
}

/// Appends where words end.
pub(crate) fn push_words_end(text: &mut Vec<u8>) -> Result<(), AllocError>
    ensures { OnOk result (text.new.items ≡ text.old.items ++ words_end) }
{
    text.extend_from_slice(b"</text>\n")
}

/// Appends the box at the top of a lane.
#[tactic(auto, unfolding(crate::specs::Pieces::title_box))]
pub(crate) fn push_box(text: &mut Vec<u8>, kind: &[u8], x: u64) -> Result<(), AllocError>
    ensures { OnOk result (text.new.items ≡ text.old.items ++ title_box kind.now x) }
{
    push_phrases(
        text,
        &[
            (Head::Nothing, b"<rect class=\""),
            (Head::Nothing, kind),
            (
                Head::Nothing,
                b"\" y=\"8\" width=\"100\" height=\"26\" x=\"",
            ),
            (Head::Number(x), b"\"/>"),
        ],
    )
}
