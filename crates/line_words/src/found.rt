//! The words of whether a record was found.
ghost use Rattle.std.specs.Prelude.{◌≡◌, ◌≤◌, ◌+◌, ◌++◌, Bool, IfSome, Some, length};
ghost use Rattle.dtx_model.specs.TraceText.{found_text};
ghost use Rattle.line_tail.specs.declared.tail.TheConstants.{LINE_ROOM};
ghost use Rattle.line_words.specs.declared.widths.TheConstants.{WORD_ROOM};

use line_tail::Tail;

const FOUND: &[u8] = b"found";

const NONE: &[u8] = b"none";

/// Puts whether a record was found.
#[inline]
pub fn put_found(tail: &mut Tail, found: bool)
    requires { WORD_ROOM + length tail.old ≤ LINE_ROOM }
    ensures text { tail.new ≡ found_text found ++ tail.old }
    ensures length { length tail.new ≤ WORD_ROOM + length tail.old }
{
    if found {
        tail.put(FOUND);
    } else {
        tail.put(NONE);
    }
}

/// Reads whether a record was found.
pub fn found_of(word: &[u8]) -> Option<bool>
    ensures some { IfSome result (λ found. word.now ≡ found_text found) }
    ensures of { (found : Bool) → word.now ≡ found_text found → result ≡ Some found }
{
    if word == FOUND {
        return Some(true);
    }
    if word == NONE {
        return Some(false);
    }
    None
}
