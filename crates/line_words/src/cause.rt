//! The words of the cause of a promotion.
ghost use Rattle.std.specs.Prelude.{◌≡◌, ◌≤◌, ◌+◌, ◌++◌, IfSome, Some, length};
ghost use Rattle.dtx_values.specs.declared.words.Cause.{Cause};
ghost use Rattle.dtx_model.specs.TraceText.{cause_text};
ghost use Rattle.line_tail.specs.declared.tail.TheConstants.{LINE_ROOM};
ghost use Rattle.line_words.specs.declared.widths.TheConstants.{WORD_ROOM};

use dtx_values::Cause;
use line_tail::Tail;

const TWO: &[u8] = b"two";

const SECOND: &[u8] = b"second";

const BESIDE: &[u8] = b"beside";

const MARSHAL: &[u8] = b"marshal";

/// Puts the cause of a promotion.
#[inline]
pub fn put_cause(tail: &mut Tail, c: Cause)
    requires { WORD_ROOM + length tail.old ≤ LINE_ROOM }
    ensures text { tail.new ≡ cause_text c ++ tail.old }
    ensures length { length tail.new ≤ WORD_ROOM + length tail.old }
{
    match c {
        Cause::Two => tail.put(TWO),
        Cause::Second => tail.put(SECOND),
        Cause::Beside => tail.put(BESIDE),
        Cause::Marshal => tail.put(MARSHAL),
    }
}

/// Reads the cause of a promotion.
pub fn cause_of(word: &[u8]) -> Option<Cause>
    ensures some { IfSome result (λ c. word.now ≡ cause_text c) }
    ensures of { (c : Cause) → word.now ≡ cause_text c → result ≡ Some c }
{
    if word == TWO {
        return Some(Cause::Two);
    }
    if word == SECOND {
        return Some(Cause::Second);
    }
    if word == BESIDE {
        return Some(Cause::Beside);
    }
    if word == MARSHAL {
        return Some(Cause::Marshal);
    }
    None
}
