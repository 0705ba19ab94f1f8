//! The words of the direction of a message.
ghost use Rattle.std.specs.Prelude.{◌≡◌, ◌≤◌, ◌+◌, ◌++◌, IfSome, Some, length};
ghost use Rattle.dtx_values.specs.declared.message.Dir.{Dir};
ghost use Rattle.dtx_model.specs.TraceText.{direction_text};
ghost use Rattle.line_tail.specs.declared.tail.TheConstants.{LINE_ROOM};
ghost use Rattle.line_words.specs.declared.widths.TheConstants.{WORD_ROOM};

use dtx_values::Dir;
use line_tail::Tail;

const UP: &[u8] = b"up";

const DOWN: &[u8] = b"down";

/// Puts the direction of a message.
#[inline]
pub fn put_direction(tail: &mut Tail, d: Dir)
    requires { WORD_ROOM + length tail.old ≤ LINE_ROOM }
    ensures text { tail.new ≡ direction_text d ++ tail.old }
    ensures length { length tail.new ≤ WORD_ROOM + length tail.old }
{
    match d {
        Dir::Up => tail.put(UP),
        Dir::Down => tail.put(DOWN),
    }
}

/// Reads the direction of a message.
pub fn direction_of(word: &[u8]) -> Option<Dir>
    ensures some { IfSome result (λ d. word.now ≡ direction_text d) }
    ensures of { (d : Dir) → word.now ≡ direction_text d → result ≡ Some d }
{
    if word == UP {
        return Some(Dir::Up);
    }
    if word == DOWN {
        return Some(Dir::Down);
    }
    None
}
