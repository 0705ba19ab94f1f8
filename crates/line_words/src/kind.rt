//! The words of what a clone does to a commit.
ghost use Rattle.std.specs.Prelude.{◌≡◌, ◌≤◌, ◌+◌, ◌++◌, IfSome, Some, length};
ghost use Rattle.dtx_values.specs.declared.words.CloneKind.{CloneKind};
ghost use Rattle.dtx_model.specs.Grammar.{kind_word};
ghost use Rattle.line_tail.specs.declared.tail.TheConstants.{LINE_ROOM};
ghost use Rattle.line_words.specs.declared.widths.TheConstants.{WORD_ROOM};

use dtx_values::CloneKind;
use line_tail::Tail;

const BLOCK: &[u8] = b"block";

const ROLLBACK: &[u8] = b"rollback";

/// Puts what a clone does to a commit.
#[inline]
pub fn put_kind(tail: &mut Tail, k: CloneKind)
    requires { WORD_ROOM + length tail.old ≤ LINE_ROOM }
    ensures text { tail.new ≡ kind_word k ++ tail.old }
    ensures length { length tail.new ≤ WORD_ROOM + length tail.old }
{
    match k {
        CloneKind::Block => tail.put(BLOCK),
        CloneKind::Rollback => tail.put(ROLLBACK),
    }
}

/// Reads what a clone does to a commit.
pub fn kind_of(word: &[u8]) -> Option<CloneKind>
    ensures some { IfSome result (λ k. word.now ≡ kind_word k) }
    ensures of { (k : CloneKind) → word.now ≡ kind_word k → result ≡ Some k }
{
    if word == BLOCK {
        return Some(CloneKind::Block);
    }
    if word == ROLLBACK {
        return Some(CloneKind::Rollback);
    }
    None
}
