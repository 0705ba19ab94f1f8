//! The words of an isolation.
ghost use Rattle.std.specs.Prelude.{◌≡◌, ◌≤◌, ◌+◌, ◌++◌, IfSome, Some, length};
ghost use Rattle.dtx_values.specs.declared.words.Iso.{Iso};
ghost use Rattle.dtx_model.specs.Grammar.{iso_word};
ghost use Rattle.line_tail.specs.declared.tail.TheConstants.{LINE_ROOM};
ghost use Rattle.line_words.specs.declared.widths.TheConstants.{WORD_ROOM};

use dtx_values::Iso;
use line_tail::Tail;

const SERIALIZABLE: &[u8] = b"serializable";

const REPEATABLE_READ: &[u8] = b"repeatableread";

const READ_COMMITTED: &[u8] = b"readcommitted";

const READ_UNCOMMITTED: &[u8] = b"readuncommitted";

const SNAPSHOT: &[u8] = b"snapshot";

const CHAOS: &[u8] = b"chaos";

const UNSPECIFIED: &[u8] = b"unspecified";

/// Puts an isolation.
#[inline]
pub fn put_isolation(tail: &mut Tail, i: Iso)
    requires { WORD_ROOM + length tail.old ≤ LINE_ROOM }
    ensures text { tail.new ≡ iso_word i ++ tail.old }
    ensures length { length tail.new ≤ WORD_ROOM + length tail.old }
{
    match i {
        Iso::Serializable => tail.put(SERIALIZABLE),
        Iso::RepeatableRead => tail.put(REPEATABLE_READ),
        Iso::ReadCommitted => tail.put(READ_COMMITTED),
        Iso::ReadUncommitted => tail.put(READ_UNCOMMITTED),
        Iso::Snapshot => tail.put(SNAPSHOT),
        Iso::Chaos => tail.put(CHAOS),
        Iso::Unspecified => tail.put(UNSPECIFIED),
    }
}

/// Reads an isolation.
pub fn isolation_of(word: &[u8]) -> Option<Iso>
    ensures some { IfSome result (λ i. word.now ≡ iso_word i) }
    ensures of { (i : Iso) → word.now ≡ iso_word i → result ≡ Some i }
{
    if word == SERIALIZABLE {
        return Some(Iso::Serializable);
    }
    if word == REPEATABLE_READ {
        return Some(Iso::RepeatableRead);
    }
    if word == READ_COMMITTED {
        return Some(Iso::ReadCommitted);
    }
    if word == READ_UNCOMMITTED {
        return Some(Iso::ReadUncommitted);
    }
    if word == SNAPSHOT {
        return Some(Iso::Snapshot);
    }
    if word == CHAOS {
        return Some(Iso::Chaos);
    }
    if word == UNSPECIFIED {
        return Some(Iso::Unspecified);
    }
    None
}
