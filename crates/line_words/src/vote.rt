//! The words of a vote.
ghost use Rattle.std.specs.Prelude.{◌≡◌, ◌≤◌, ◌+◌, ◌++◌, IfSome, Some, length};
ghost use Rattle.dtx_values.specs.declared.words.Vote.{Vote};
ghost use Rattle.dtx_model.specs.TraceText.{cast_vote_text};
ghost use Rattle.line_tail.specs.declared.tail.TheConstants.{LINE_ROOM};
ghost use Rattle.line_words.specs.declared.widths.TheConstants.{WORD_ROOM};

use dtx_values::Vote;
use line_tail::Tail;

const YES: &[u8] = b"yes";

const NO: &[u8] = b"no";

const DONE: &[u8] = b"done";

/// Puts a vote.
#[inline]
pub fn put_vote(tail: &mut Tail, v: Vote)
    requires { WORD_ROOM + length tail.old ≤ LINE_ROOM }
    ensures text { tail.new ≡ cast_vote_text v ++ tail.old }
    ensures length { length tail.new ≤ WORD_ROOM + length tail.old }
{
    match v {
        Vote::Yes => tail.put(YES),
        Vote::No => tail.put(NO),
        Vote::Done => tail.put(DONE),
    }
}

/// Reads a vote.
pub fn vote_of(word: &[u8]) -> Option<Vote>
    ensures some { IfSome result (λ v. word.now ≡ cast_vote_text v) }
    ensures of { (v : Vote) → word.now ≡ cast_vote_text v → result ≡ Some v }
{
    if word == YES {
        return Some(Vote::Yes);
    }
    if word == NO {
        return Some(Vote::No);
    }
    if word == DONE {
        return Some(Vote::Done);
    }
    None
}
