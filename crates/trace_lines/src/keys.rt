//! The words that entries and answers begin with, and what follows them after a space.
ghost use Rattle.std.specs.Prelude.{◌≡◌, ◌≤◌, ◌+◌, ◌++◌, codes, decimal, length};
ghost use Rattle.line_tail.specs.declared.tail.TheConstants.{LINE_ROOM, NUMBER_ROOM};

use line_tail::Tail;

/// Puts a word and a space.
#[inline(always)]
pub fn put_key(tail: &mut Tail, word: &[u8])
    requires { length word.now + 1 + length tail.old ≤ LINE_ROOM }
    ensures text { tail.new ≡ word.now ++ codes " " ++ tail.old }
    ensures length { length tail.new ≡ length word.now + 1 + length tail.old }
{
    tail.put(b" ");
    tail.put(word);
}

/// Puts a word, a space and a number.
#[inline(always)]
pub fn put_counted(tail: &mut Tail, word: &[u8], n: u64)
    requires { length word.now + 1 + NUMBER_ROOM + length tail.old ≤ LINE_ROOM }
    ensures text { tail.new ≡ word.now ++ codes " " ++ decimal n ++ tail.old }
    ensures length { length tail.new ≤ length word.now + 1 + NUMBER_ROOM + length tail.old }
{
    tail.put_number(n);
    put_key(tail, word);
}
