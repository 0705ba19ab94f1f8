//! The words of what an enlistment requests.
ghost use Rattle.std.specs.Prelude.{◌≡◌, ◌≤◌, ◌+◌, ◌++◌, IfSome, Some, length};
ghost use Rattle.dtx_values.specs.declared.entry.Request.{Request};
ghost use Rattle.dtx_model.specs.TraceText.{request_text};
ghost use Rattle.line_tail.specs.declared.tail.TheConstants.{LINE_ROOM};
ghost use Rattle.line_words.specs.declared.widths.TheConstants.{WORD_ROOM};

use dtx_values::Request;
use line_tail::Tail;

const COMMIT: &[u8] = b"commit";

const ABORT: &[u8] = b"abort";

/// Puts what an enlistment requests.
#[inline]
pub fn put_request(tail: &mut Tail, r: Request)
    requires { WORD_ROOM + length tail.old ≤ LINE_ROOM }
    ensures text { tail.new ≡ request_text r ++ tail.old }
    ensures length { length tail.new ≤ WORD_ROOM + length tail.old }
{
    match r {
        Request::Commit => tail.put(COMMIT),
        Request::Abort => tail.put(ABORT),
    }
}

/// Reads what an enlistment requests.
pub fn request_of(word: &[u8]) -> Option<Request>
    ensures some { IfSome result (λ r. word.now ≡ request_text r) }
    ensures of { (r : Request) → word.now ≡ request_text r → result ≡ Some r }
{
    if word == COMMIT {
        return Some(Request::Commit);
    }
    if word == ABORT {
        return Some(Request::Abort);
    }
    None
}
