//! The words of what a script plans: an answer, or `silent` for none.
ghost use Rattle.std.specs.Prelude.{◌≡◌, ◌≤◌, ◌+◌, ◌++◌, Bool, IfSome, Option, Some, length};
ghost use Rattle.dtx_values.specs.declared.words.Outcome.{Outcome};
ghost use Rattle.dtx_values.specs.declared.words.Vote.{Vote};
ghost use Rattle.dtx_model.specs.Grammar.{owner_word, promote_word, vote_word};
ghost use Rattle.line_tail.specs.declared.tail.TheConstants.{LINE_ROOM};
ghost use Rattle.line_words.specs.declared.widths.TheConstants.{WORD_ROOM};

use crate::outcome::{outcome_of, put_outcome};
use crate::reply::{put_reply, reply_of};
use crate::vote::{put_vote, vote_of};
use dtx_values::{Outcome, Vote};
use line_tail::Tail;

const SILENT: &[u8] = b"silent";

/// Puts the vote that is planned, or that none is cast.
#[inline]
pub fn put_vote_plan(tail: &mut Tail, v: Option<Vote>)
    requires { WORD_ROOM + length tail.old ≤ LINE_ROOM }
    ensures text { tail.new ≡ vote_word v ++ tail.old }
    ensures length { length tail.new ≤ WORD_ROOM + length tail.old }
{
    match v {
        Some(v) => put_vote(tail, v),
        None => tail.put(SILENT),
    }
}

/// Reads the plan of a vote.
pub fn vote_plan_of(word: &[u8]) -> Option<Option<Vote>>
    ensures some { IfSome result (λ v. word.now ≡ vote_word v) }
    ensures of { (v : Option Vote) → word.now ≡ vote_word v → result ≡ Some v }
{
    if word == SILENT {
        return Some(None);
    }
    Some(Some(vote_of(word)?))
}

/// Puts the outcome that the owner is to answer, or that it answers none.
#[inline]
pub fn put_owner_plan(tail: &mut Tail, o: Option<Outcome>)
    requires { WORD_ROOM + length tail.old ≤ LINE_ROOM }
    ensures text { tail.new ≡ owner_word o ++ tail.old }
    ensures length { length tail.new ≤ WORD_ROOM + length tail.old }
{
    match o {
        Some(o) => put_outcome(tail, o),
        None => tail.put(SILENT),
    }
}

/// Reads the plan of an owner's answer.
pub fn owner_plan_of(word: &[u8]) -> Option<Option<Outcome>>
    ensures some { IfSome result (λ o. word.now ≡ owner_word o) }
    ensures of { (o : Option Outcome) → word.now ≡ owner_word o → result ≡ Some o }
{
    if word == SILENT {
        return Some(None);
    }
    Some(Some(outcome_of(word)?))
}

/// Puts whether the promotion is to succeed, or that it gets no reply.
#[inline]
pub fn put_promotion_plan(tail: &mut Tail, p: Option<bool>)
    requires { WORD_ROOM + length tail.old ≤ LINE_ROOM }
    ensures text { tail.new ≡ promote_word p ++ tail.old }
    ensures length { length tail.new ≤ WORD_ROOM + length tail.old }
{
    match p {
        Some(ok) => put_reply(tail, ok),
        None => tail.put(SILENT),
    }
}

/// Reads the plan of a promotion.
pub fn promotion_plan_of(word: &[u8]) -> Option<Option<bool>>
    ensures some { IfSome result (λ p. word.now ≡ promote_word p) }
    ensures of { (p : Option Bool) → word.now ≡ promote_word p → result ≡ Some p }
{
    if word == SILENT {
        return Some(None);
    }
    Some(Some(reply_of(word)?))
}
