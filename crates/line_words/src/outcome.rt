//! The words of an outcome.
ghost use Rattle.std.specs.Prelude.{◌≡◌, ◌≤◌, ◌+◌, ◌++◌, IfSome, Some, length};
ghost use Rattle.dtx_values.specs.declared.words.Outcome.{Outcome};
ghost use Rattle.dtx_model.specs.TraceText.{outcome_text};
ghost use Rattle.line_tail.specs.declared.tail.TheConstants.{LINE_ROOM};
ghost use Rattle.line_words.specs.declared.widths.TheConstants.{WORD_ROOM};

use dtx_values::Outcome;
use line_tail::Tail;

/// The word of an outcome that is committed.
pub const COMMITTED: &[u8] = b"committed";

/// The word of an outcome that is aborted.
pub const ABORTED: &[u8] = b"aborted";

/// The word of an outcome that is in doubt.
pub const IN_DOUBT: &[u8] = b"indoubt";

/// Puts an outcome.
#[inline]
pub fn put_outcome(tail: &mut Tail, o: Outcome)
    requires { WORD_ROOM + length tail.old ≤ LINE_ROOM }
    ensures text { tail.new ≡ outcome_text o ++ tail.old }
    ensures length { length tail.new ≤ WORD_ROOM + length tail.old }
{
    match o {
        Outcome::Committed => tail.put(COMMITTED),
        Outcome::Aborted => tail.put(ABORTED),
        Outcome::InDoubt => tail.put(IN_DOUBT),
    }
}

/// Reads an outcome.
pub fn outcome_of(word: &[u8]) -> Option<Outcome>
    ensures some { IfSome result (λ o. word.now ≡ outcome_text o) }
    ensures of { (o : Outcome) → word.now ≡ outcome_text o → result ≡ Some o }
{
    if word == COMMITTED {
        return Some(Outcome::Committed);
    }
    if word == ABORTED {
        return Some(Outcome::Aborted);
    }
    if word == IN_DOUBT {
        return Some(Outcome::InDoubt);
    }
    None
}
