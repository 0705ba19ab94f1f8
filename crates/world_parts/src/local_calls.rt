//! What the local side does with a call that it answers alone.
ghost use Rattle.std.specs.Prelude.{ℕ, ◌≡◌, ◌&&◌, [], true};
ghost use Rattle.dtx_values.specs.declared.call.Call.TheVariants.{Gone, Reenlist};
ghost use Rattle.dtx_values.specs.TxIds.{number_of};
ghost use Rattle.dtx_values.specs.Outgoing.{written};
ghost use Rattle.dtx_model.specs.Answers.{await_answer};
ghost use Rattle.dtx_model.specs.Observed.{is_branch};
ghost use Rattle.dtx_model.specs.Steps.{Calls, entered};
ghost use Rattle.dtx_model.specs.Words.{has};
ghost use Rattle.local_half.specs.Half.{IsRoom, after, is_free};
ghost use Rattle.world_parts.specs.Entering.{half_answer, is_local, local_call, return_block};

use dtx_values::{ActorNo, Answer, Call, EnlNo, Entry, Outbox, Outcome};
use local_half::LocalHalf;

/// What an `await` is answered, once it is begun, where the client was told this.
pub fn await_answer(told: Option<Outcome>) -> Answer
    ensures { result ≡ await_answer told }
{
    match told {
        Some(o) => Answer::OutcomeIs(o),
        None => Answer::StillOpen,
    }
}

/// Answers a `gone` of an enlistment with no open connection: writes its entry, and loses the enlistment where that is ok.
fn answer_gone(
    half: &mut LocalHalf,
    actor: ActorNo,
    line: u32,
    e: EnlNo,
    out: &mut Outbox,
) -> Answer
    requires { IsRoom 41 20 out.old }
    ensures answer { result ≡ half_answer (number_of half.old.transaction) half.old.half (Gone e) 0 }
    ensures state { half.new ≡ after (entered (Calls line actor (Gone e) 0) []) half.old (local_call (number_of half.old.transaction) half.old.half line actor (Gone e) 0) }
    ensures out { out.new ≡ written out.old (local_call (number_of half.old.transaction) half.old.half line actor (Gone e) 0) }
{
    let answer = half.if_begun(half.gone_answer(e));
    out.put(Entry::Called(line, actor, answer));
    if answer == Answer::Fine {
        half.gone(e, false, out);
    }
    answer
}

/// Writes that an enlistment comes back which the coordinator accepted before: the entry of its `reenlist`, and what follows.
pub fn write_return(half: &mut LocalHalf, actor: ActorNo, line: u32, e: EnlNo, out: &mut Outbox)
    requires accepted { has (λ b. is_branch e.value b && b.enlisted) half.old.half.seen.branches ≡ true }
    requires room { IsRoom 41 20 out.old }
    ensures state { (m : ℕ) → half.new ≡ after (entered (Calls line actor (Reenlist e) m) []) half.old (return_block (number_of half.old.transaction) half.old.half line actor e) }
    ensures out { out.new ≡ written out.old (return_block (number_of half.old.transaction) half.old.half line actor e) }
{
    out.put(Entry::Called(line, actor, Answer::Fine));
    half.reenlist(e, out);
}

/// Answers a call, for which so many steps were done: writes its entry, and then its facts.
pub fn answer_call(
    half: &mut LocalHalf,
    actor: ActorNo,
    line: u32,
    c: &Call,
    done: u16,
    out: &mut Outbox,
) -> Answer
    requires near { is_local c.now ≡ true }
    requires new { is_free half.old.half line c.now ≡ true }
    requires room { IsRoom 41 20 out.old }
    ensures answer { result ≡ half_answer (number_of half.old.transaction) half.old.half c.now done }
    ensures state { half.new ≡ after (entered (Calls line actor c.now done) []) half.old (local_call (number_of half.old.transaction) half.old.half line actor c.now done) }
    ensures out { out.new ≡ written out.old (local_call (number_of half.old.transaction) half.old.half line actor c.now done) }
{
    let answer = match *c {
        Call::Do(_, _, _) => half.if_begun(Answer::Did(done)),
        Call::Await(_) => half.if_begun(await_answer(half.told_client())),
        Call::Gone(e) => return answer_gone(half, actor, line, e, out),
        _ => return half.call(actor, line, c, out),
    };
    out.put(Entry::Called(line, actor, answer));
    answer
}
