//! The words of the class of an enlistment.
ghost use Rattle.std.specs.Prelude.{◌≡◌, ◌≤◌, ◌+◌, ◌++◌, IfSome, Some, length};
ghost use Rattle.dtx_values.specs.declared.words.Class.{Class};
ghost use Rattle.dtx_model.specs.TraceText.{class_text};
ghost use Rattle.line_tail.specs.declared.tail.TheConstants.{LINE_ROOM};
ghost use Rattle.line_words.specs.declared.widths.TheConstants.{WORD_ROOM};

use dtx_values::Class;
use line_tail::Tail;

const ZERO: &[u8] = b"zero";

const ONE: &[u8] = b"one";

const TWO: &[u8] = b"two";

const SINGLE: &[u8] = b"single";

const PROMOTABLE: &[u8] = b"promotable";

/// Puts the class of an enlistment.
#[inline]
pub fn put_class(tail: &mut Tail, c: Class)
    requires { WORD_ROOM + length tail.old ≤ LINE_ROOM }
    ensures text { tail.new ≡ class_text c ++ tail.old }
    ensures length { length tail.new ≤ WORD_ROOM + length tail.old }
{
    match c {
        Class::Zero => tail.put(ZERO),
        Class::One => tail.put(ONE),
        Class::DurableTwo => tail.put(TWO),
        Class::DurableSingle => tail.put(SINGLE),
        Class::Promotable => tail.put(PROMOTABLE),
    }
}

/// Reads the class of an enlistment.
pub fn class_of(word: &[u8]) -> Option<Class>
    ensures some { IfSome result (λ c. word.now ≡ class_text c) }
    ensures of { (c : Class) → word.now ≡ class_text c → result ≡ Some c }
{
    if word == ZERO {
        return Some(Class::Zero);
    }
    if word == ONE {
        return Some(Class::One);
    }
    if word == TWO {
        return Some(Class::DurableTwo);
    }
    if word == SINGLE {
        return Some(Class::DurableSingle);
    }
    if word == PROMOTABLE {
        return Some(Class::Promotable);
    }
    None
}
