//! The lines of a made script, by the number k of their transaction.
ghost use Rattle.std.specs.Prelude.{◌≡◌, ◌≤◌, Some};
ghost use Rattle.dtx_model.specs.Grammar.{line_text, vote_word};
ghost use Rattle.script_maker.specs.Gen.{begin_line, clone_line, commit_line, first_durable_line, owner_line, par_line, second_durable_line, volatile_line};

use crate::numbers::{actor, clone, first, manager, next_actor, second, transaction};
use dtx_values::{
    ActorNo, Body, CloneKind, EnlistOption, Line, Outcome, Support, Timeout, TxNo, Vote,
};

/// It is begun.
pub fn begin(k: u32) -> Line
    requires low { 1 ≤ k }
    requires high { k ≤ TxNo.MAX }
    ensures { line_text result ≡ begin_line k }
{
    Line {
        actor: actor(k),
        body: Body::Begin(transaction(k), Timeout::Default),
    }
}

/// The threads begin.
pub fn par() -> Line
    ensures { line_text result ≡ par_line }
{
    Line {
        actor: actor(1),
        body: Body::Par,
    }
}

/// A volatile that is to vote so.
pub fn volatile(k: u32, vote: Vote) -> Line
    requires low { 1 ≤ k }
    requires high { k ≤ TxNo.MAX }
    ensures { line_text result ≡ volatile_line (vote_word (Some vote)) k }
{
    Line {
        actor: actor(k),
        body: Body::Volatile(transaction(k), first(k), EnlistOption::Plain, Some(vote)),
    }
}

/// A durable that can own the commit, and is to commit.
pub fn owner(k: u32) -> Line
    requires low { 1 ≤ k }
    requires high { k ≤ TxNo.MAX }
    ensures { line_text result ≡ owner_line k }
{
    let support = Support::SinglePhase(Some(Vote::Yes), Some(Outcome::Committed));
    Line {
        actor: actor(k),
        body: Body::Durable(transaction(k), first(k), manager(1), support),
    }
}

/// A durable of two phases.
pub fn first_durable(k: u32) -> Line
    requires low { 1 ≤ k }
    requires high { k ≤ TxNo.MAX }
    ensures { line_text result ≡ first_durable_line k }
{
    let support = Support::TwoPhase(Some(Vote::Yes));
    Line {
        actor: actor(k),
        body: Body::Durable(transaction(k), first(k), manager(1), support),
    }
}

/// Another, of the next actor.
pub fn second_durable(k: u32) -> Line
    requires low { 1 ≤ k }
    requires high { k ≤ TxNo.MAX }
    ensures { line_text result ≡ second_durable_line k }
{
    let support = Support::TwoPhase(Some(Vote::Yes));
    Line {
        actor: next_actor(k),
        body: Body::Durable(transaction(k), second(k), manager(2), support),
    }
}

/// A clone that is never complete.
pub fn rollback_clone(k: u32) -> Line
    requires low { 1 ≤ k }
    requires high { k ≤ TxNo.MAX }
    ensures { line_text result ≡ clone_line k }
{
    Line {
        actor: actor(k),
        body: Body::Clone(transaction(k), clone(k), CloneKind::Rollback),
    }
}

/// Commit is asked.
pub fn commit(k: u32) -> Line
    requires low { 1 ≤ k }
    requires high { k ≤ TxNo.MAX }
    ensures { line_text result ≡ commit_line k }
{
    Line {
        actor: actor(k),
        body: Body::Commit(transaction(k)),
    }
}
