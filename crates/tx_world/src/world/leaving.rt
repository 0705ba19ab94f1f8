//! The losses of enlistments.
ghost use Rattle.std.specs.Prelude.{ℕ, ◌≡◌, ◌&&◌, ◌||◌, not, OnOk, OnErr, true, false};
ghost use Rattle.dtx_values.specs.declared.call.Call.TheVariants.{Gone};
ghost use Rattle.dtx_values.specs.TxIds.{number_of};
ghost use Rattle.dtx_values.specs.declared.entry.Answer.TheVariants.{Fine};
ghost use Rattle.dtx_values.specs.Class.{is_promotable};
ghost use Rattle.dtx_values.specs.Row.{is_of};
ghost use Rattle.dtx_model.specs.Outcome.{is_empty};
ghost use Rattle.dtx_model.specs.Steps.{Calls};
ghost use Rattle.dtx_model.specs.Words.{has};
ghost use Rattle.dtx_model.specs.World.{answer_at, open_ones};
ghost use Rattle.tx_world.specs.OwnCalls.{DoesAlone};
ghost use Rattle.tx_world.specs.State.{may_enter};

use super::TxWorld;
use super::entering::reserve_call;
use crate::refusal::WorldError;
use dtx_model::EnteredCall;
use dtx_values::{ActorNo, Answer, Call, Conn, EnlNo, Entry, Outbox, Row};

/// Whether the row is that of the enlistment, which is a promotable.
fn is_promotable_one(x: &Row, e: EnlNo) -> bool
    ensures { result ≡ (is_of e.value x.now && is_promotable x.now.class) }
{
    e == x.number && x.class.is_promotable()
}

/// Whether the enlistment is a promotable.
fn is_promotable_row(rows: &[Row], e: EnlNo) -> bool
    ensures { result ≡ has (λ x. is_of e.value x && is_promotable x.class) rows.now }
{
    rows.iter().any(|x| is_promotable_one(x, e))
}

/// Whether one of the connections of an enlistment is open, where that of the promotion is one of them if `promotes` says so.
fn is_any_open(promotes: bool, begin: bool, own: bool, again: bool) -> bool
    ensures { result ≡ ((promotes && begin) || (own || again)) }
{
    (promotes && begin) || own || again
}

impl TxWorld {
    /// Whether one of the enlistment's connections is open.
    pub(super) fn has_open(&self, e: EnlNo) -> bool
        ensures { result ≡ not (is_empty (open_ones self.now.world e)) }
    {
        is_any_open(
            is_promotable_row(self.half.rows(), e),
            self.history.is_open(Conn::Begin),
            self.history.is_open(Conn::Enl(e)),
            self.history.is_open(Conn::Again(e)),
        )
    }

    /// What a `gone` is answered.
    pub(super) fn answer_gone(&self, e: EnlNo) -> Answer
        ensures { (m : ℕ) → result ≡ answer_at (number_of self.now.transaction) self.now.world (Gone e) m }
    {
        self.half.if_begun(self.half.gone_answer(e))
    }

    /// Enters the loss of an enlistment with open connections, which are cut. A cut counts up to 4,294,967,295 messages: where the history has more entries than that,
    /// there is no memory for it.
    pub(super) fn enter_cut(
        &mut self,
        out: &mut Outbox,
        actor: ActorNo,
        line: u32,
        e: EnlNo,
    ) -> Result<(), WorldError>
        requires enters { may_enter self.old.world line (Gone e) ≡ true }
        requires fine { answer_at (number_of self.old.transaction) self.old.world (Gone e) 0 ≡ Fine }
        requires linked { is_empty (open_ones self.old.world e) ≡ false }
        ensures done { (m : ℕ) → OnOk result (DoesAlone (Calls line actor (Gone e) m) self.old self.new) }
        ensures memory { OnErr result (self.new ≡ self.old) }
    {
        if !self.history.is_countable() {
            return Err(WorldError::Memory);
        }
        self.history.reserve()?;
        reserve_call(&mut self.calls)?;
        out.clear();
        let promotes = is_promotable_row(self.half.rows(), e);
        self.half.gone(e, true, out);
        let call = Call::Gone(e);
        self.calls.push_reserved(EnteredCall { line, actor, call });
        let block = [Entry::Called(line, actor, Answer::Fine), Entry::Lost(e)];
        self.history.write(&block, self.core.is_stopped());
        self.history.cut_links(e, promotes);
        Ok(())
    }
}
