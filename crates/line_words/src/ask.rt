//! The words of what is asked of an enlistment.
ghost use Rattle.std.specs.Prelude.{◌≡◌, ◌≤◌, ◌+◌, ◌++◌, IfSome, Some, length};
ghost use Rattle.dtx_values.specs.declared.entry.Ask.{Ask};
ghost use Rattle.dtx_model.specs.TraceText.{ask_text};
ghost use Rattle.line_tail.specs.declared.tail.TheConstants.{LINE_ROOM};
ghost use Rattle.line_words.specs.declared.widths.TheConstants.{WORD_ROOM};

use dtx_values::Ask;
use line_tail::Tail;

const PREPARE: &[u8] = b"prepare";

const PROMOTE: &[u8] = b"promote";

const SINGLE: &[u8] = b"single";

/// Puts what is asked of an enlistment.
#[inline]
pub fn put_ask(tail: &mut Tail, a: Ask)
    requires { WORD_ROOM + length tail.old ≤ LINE_ROOM }
    ensures text { tail.new ≡ ask_text a ++ tail.old }
    ensures length { length tail.new ≤ WORD_ROOM + length tail.old }
{
    match a {
        Ask::Prepare => tail.put(PREPARE),
        Ask::Promote => tail.put(PROMOTE),
        Ask::Single => tail.put(SINGLE),
    }
}

/// Reads what is asked of an enlistment.
pub fn ask_of(word: &[u8]) -> Option<Ask>
    ensures some { IfSome result (λ a. word.now ≡ ask_text a) }
    ensures of { (a : Ask) → word.now ≡ ask_text a → result ≡ Some a }
{
    if word == PREPARE {
        return Some(Ask::Prepare);
    }
    if word == PROMOTE {
        return Some(Ask::Promote);
    }
    if word == SINGLE {
        return Some(Ask::Single);
    }
    None
}
