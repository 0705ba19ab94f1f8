//! The words of what a script asks for: a value, or `default`.
ghost use Rattle.std.specs.Prelude.{◌≡◌, ◌≤◌, ◌+◌, ◌++◌, IfSome, Some, length, true};
ghost use Rattle.dtx_values.specs.declared.words.IsoWord.{IsoWord};
ghost use Rattle.dtx_values.specs.declared.words.Timeout.{Timeout};
ghost use Rattle.dtx_model.specs.Grammar.{asked_iso_word, is_timeout, timeout_word};
ghost use Rattle.line_tail.specs.declared.tail.TheConstants.{LINE_ROOM, NUMBER_ROOM};
ghost use Rattle.line_words.specs.declared.widths.TheConstants.{WORD_ROOM};

use crate::isolation::{isolation_of, put_isolation};
use crate::numbers::number32_of;
use dtx_values::{IsoWord, Timeout};
use line_tail::Tail;

const DEFAULT: &[u8] = b"default";

/// Puts a timeout.
#[inline]
pub fn put_timeout(tail: &mut Tail, d: Timeout)
    requires { NUMBER_ROOM + length tail.old ≤ LINE_ROOM }
    ensures text { tail.new ≡ timeout_word d ++ tail.old }
    ensures length { length tail.new ≤ NUMBER_ROOM + length tail.old }
{
    match d {
        Timeout::Default => tail.put(DEFAULT),
        Timeout::Milliseconds(n) => tail.put_number(u64::from(n)),
    }
}

/// Reads a timeout.
pub fn timeout_of(word: &[u8]) -> Option<Timeout>
    ensures some { IfSome result (λ d. (word.now ≡ timeout_word d) × (is_timeout d ≡ true)) }
    ensures of { (d : Timeout) → is_timeout d ≡ true → word.now ≡ timeout_word d → result ≡ Some d }
{
    if word == DEFAULT {
        return Some(Timeout::Default);
    }
    Some(Timeout::Milliseconds(number32_of(word)?))
}

/// Puts the isolation that is asked for.
#[inline]
pub fn put_asked_isolation(tail: &mut Tail, i: IsoWord)
    requires { WORD_ROOM + length tail.old ≤ LINE_ROOM }
    ensures text { tail.new ≡ asked_iso_word i ++ tail.old }
    ensures length { length tail.new ≤ WORD_ROOM + length tail.old }
{
    match i {
        IsoWord::Default => tail.put(DEFAULT),
        IsoWord::Level(i) => put_isolation(tail, i),
    }
}

/// Reads the isolation that is asked for.
pub fn asked_isolation_of(word: &[u8]) -> Option<IsoWord>
    ensures some { IfSome result (λ i. word.now ≡ asked_iso_word i) }
    ensures of { (i : IsoWord) → word.now ≡ asked_iso_word i → result ≡ Some i }
{
    if word == DEFAULT {
        return Some(IsoWord::Default);
    }
    Some(IsoWord::Level(isolation_of(word)?))
}
