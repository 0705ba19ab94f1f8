//! The words of whether a promotable enlistment could promote.
ghost use Rattle.std.specs.Prelude.{◌≡◌, ◌≤◌, ◌+◌, ◌++◌, Bool, IfSome, Some, length};
ghost use Rattle.dtx_model.specs.TraceText.{promote_text};
ghost use Rattle.line_tail.specs.declared.tail.TheConstants.{LINE_ROOM};
ghost use Rattle.line_words.specs.declared.widths.TheConstants.{WORD_ROOM};

use line_tail::Tail;

const OK: &[u8] = b"ok";

const FAIL: &[u8] = b"fail";

/// Puts whether a promotable enlistment could promote.
#[inline]
pub fn put_reply(tail: &mut Tail, ok: bool)
    requires { WORD_ROOM + length tail.old ≤ LINE_ROOM }
    ensures text { tail.new ≡ promote_text ok ++ tail.old }
    ensures length { length tail.new ≤ WORD_ROOM + length tail.old }
{
    if ok {
        tail.put(OK);
    } else {
        tail.put(FAIL);
    }
}

/// Reads whether a promotable enlistment could promote.
pub fn reply_of(word: &[u8]) -> Option<bool>
    ensures some { IfSome result (λ ok. word.now ≡ promote_text ok) }
    ensures of { (ok : Bool) → word.now ≡ promote_text ok → result ≡ Some ok }
{
    if word == OK {
        return Some(true);
    }
    if word == FAIL {
        return Some(false);
    }
    None
}
