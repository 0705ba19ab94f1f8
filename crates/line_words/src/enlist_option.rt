//! The words of the option of a volatile enlistment.
ghost use Rattle.std.specs.Prelude.{◌≡◌, ◌≤◌, ◌+◌, ◌++◌, IfSome, Some, length};
ghost use Rattle.dtx_values.specs.declared.script.EnlistOption.{EnlistOption};
ghost use Rattle.dtx_model.specs.Grammar.{option_word};
ghost use Rattle.line_tail.specs.declared.tail.TheConstants.{LINE_ROOM};
ghost use Rattle.line_words.specs.declared.widths.TheConstants.{WORD_ROOM};

use dtx_values::EnlistOption;
use line_tail::Tail;

const NONE: &[u8] = b"none";

const DURING: &[u8] = b"during";

/// Puts the option of a volatile enlistment.
#[inline]
pub fn put_option(tail: &mut Tail, o: EnlistOption)
    requires { WORD_ROOM + length tail.old ≤ LINE_ROOM }
    ensures text { tail.new ≡ option_word o ++ tail.old }
    ensures length { length tail.new ≤ WORD_ROOM + length tail.old }
{
    match o {
        EnlistOption::Plain => tail.put(NONE),
        EnlistOption::DuringPrepare => tail.put(DURING),
    }
}

/// Reads the option of a volatile enlistment.
pub fn option_of(word: &[u8]) -> Option<EnlistOption>
    ensures some { IfSome result (λ o. word.now ≡ option_word o) }
    ensures of { (o : EnlistOption) → word.now ≡ option_word o → result ≡ Some o }
{
    if word == NONE {
        return Some(EnlistOption::Plain);
    }
    if word == DURING {
        return Some(EnlistOption::DuringPrepare);
    }
    None
}
