//! What each call is answered: the first answer whose condition holds.
ghost use Rattle.std.specs.Prelude.{◌≡◌, length, true};
ghost use Rattle.dtx_model.specs.Answers.{clone_answer, complete_answer, durable_answer, gone_answer, has_promotion, if_begun, is_crowded, is_full, is_full_of_durables, local_answer, marshal_answer, promotable_answer, status_answer, unless_late, unless_over, volatile_answer};
ghost use Rattle.dtx_values.specs.TxIds.{number_of};
ghost use Rattle.dtx_model.specs.Half.{is_gone, stands};
ghost use Rattle.half_parts.specs.Half.{is_its_own};

use super::LocalHalf;
use dtx_values::{Answer, CALLS, CLONES, Call, DURABLES, ENLISTMENTS, EnlNo};
use durable_enlist::cause_of;
use half_parts::waits;
use promotable_enlist::try_own;

/// What the completion of a clone is answered, once it is begun and while nothing is decided.
fn complete_answer(stands: bool, complete: bool) -> Answer
    ensures { result ≡ complete_answer stands complete }
{
    if !stands {
        return Answer::NoSuch;
    }
    if complete {
        return Answer::Already;
    }
    Answer::Fine
}

/// The answer after `toolate`.
fn unless_late(late: bool) -> Answer
    ensures { result ≡ unless_late late }
{
    if late { Answer::TooLate } else { Answer::Fine }
}

impl LocalHalf {
    /// The answer after `notbegun`.
    pub fn if_begun(&self, a: Answer) -> Answer
        ensures { result ≡ if_begun self.now.half.seen.limit a }
    {
        match self.limit {
            Some(_) => a,
            None => Answer::NotBegun,
        }
    }

    /// What the loss of an enlistment is answered, once the transaction is begun. It may be done where
    /// that is `Fine`.
    pub fn gone_answer(&self, e: EnlNo) -> Answer
        ensures { result ≡ gone_answer (stands self.now.half.seen e.value) (is_gone self.now.half.seen e.value) }
    {
        if !self.stands(e) {
            return Answer::NoSuch;
        }
        if self.is_gone(e) {
            return Answer::Already;
        }
        Answer::Fine
    }

    /// The answer after `notbegun` and `ended`.
    fn unless_over(&self, a: Answer) -> Answer
        ensures { result ≡ unless_over self.now.half.seen a }
    {
        self.if_begun(match self.decided {
            Some(o) => Answer::Ended(o),
            None => a,
        })
    }

    /// Whether as many enlistments were made or wait as there may be.
    fn is_full(&self) -> bool
        ensures { result ≡ is_full self.now.half }
    {
        self.table.rows().len() + waits::places(&self.waits) >= ENLISTMENTS
    }

    /// Whether as many durable or promotable ones were made or wait as there may be.
    fn is_full_of_durables(&self) -> bool
        ensures { result ≡ is_full_of_durables self.now.half }
    {
        self.table.lasting() + waits::places(&self.waits) >= DURABLES
    }

    /// Whether as many calls wait as may.
    fn is_crowded(&self) -> bool
        ensures { result ≡ is_crowded self.now.half }
    {
        self.waits.len() >= CALLS
    }

    /// Whether it is promoted, or on the way there.
    pub(super) fn has_promotion(&self) -> bool
        ensures { result ≡ has_promotion self.now.half.seen }
    {
        self.handover.is_over() || self.is_promoting()
    }

    /// What a marshal call is answered, once it is begun and while nothing is decided.
    fn marshal_answer(&self) -> Answer
        ensures { result ≡ marshal_answer (number_of self.now.transaction) self.now.half }
    {
        if self.handover.is_over() {
            return Answer::Id(self.identifier());
        }
        if self.sealed {
            return Answer::TooLate;
        }
        if self.is_crowded() {
            return Answer::Many(CALLS as u8);
        }
        Answer::Wait
    }

    /// What a volatile call is answered, once it is begun and while nothing is decided.
    fn volatile_answer(&self) -> Answer
        ensures { result ≡ volatile_answer self.now.half }
    {
        if self.sealed {
            return Answer::TooLate;
        }
        if self.is_full() {
            return Answer::Many(ENLISTMENTS as u8);
        }
        Answer::Fine
    }

    /// What a durable call is answered, once it is begun and while nothing is decided. One that can't own the commit, doesn't come first, or comes after a promotion began, waits.
    fn durable_answer(&self, single: bool) -> Answer
        ensures { result ≡ durable_answer self.now.half single }
    {
        if self.sealed {
            return Answer::TooLate;
        }
        if self.is_full() {
            return Answer::Many(ENLISTMENTS as u8);
        }
        if self.is_crowded() {
            return Answer::Many(CALLS as u8);
        }
        if self.is_full_of_durables() {
            return Answer::Many(DURABLES as u8);
        }
        if self.has_promotion() {
            return Answer::Wait;
        }
        match cause_of(&self.table, single) {
            Some(_) => Answer::Wait,
            None => Answer::Fine,
        }
    }

    /// What a promotable call is answered, once it is begun and while nothing is decided.
    fn promotable_answer(&self) -> Answer
        ensures { result ≡ promotable_answer self.now.half }
    {
        if self.sealed {
            return Answer::TooLate;
        }
        if !try_own(&self.table, self.has_promotion()) {
            return Answer::False;
        }
        if self.is_full() {
            return Answer::Many(ENLISTMENTS as u8);
        }
        Answer::True
    }

    /// What a call for a clone is answered, once it is begun and while nothing is decided.
    fn clone_answer(&self) -> Answer
        ensures { result ≡ clone_answer self.now.half.seen.commit (length self.now.half.seen.clones) }
    {
        if self.commit {
            return Answer::TooLate;
        }
        if self.clones.len() >= CLONES {
            return Answer::Many(CLONES as u8);
        }
        Answer::Fine
    }

    /// What a call for the status is answered, once it is begun.
    fn status_answer(&self) -> Answer
        ensures { result ≡ status_answer self.now.half.seen.decided }
    {
        match self.decided {
            Some(o) => Answer::OutcomeIs(o),
            None => Answer::StillActive,
        }
    }

    /// The first answer whose condition holds.
    #[tactic(auto, unfolding(dtx_model::specs::Answers::local_answer))]
    pub(super) fn answer(&self, c: &Call) -> Answer
        requires { is_its_own c.now ≡ true }
        ensures { result ≡ local_answer (number_of self.now.transaction) self.now.half c.now 0 }
    {
        match *c {
            Call::Volatile(_, _, _, _) => self.unless_over(self.volatile_answer()),
            Call::Durable(_, _, _, support) => {
                self.unless_over(self.durable_answer(support.is_single()))
            }
            Call::Promotable(_, _, _, _, _, _) => self.unless_over(self.promotable_answer()),
            Call::Clone(_, _, _) => self.unless_over(self.clone_answer()),
            Call::Complete(c) => self.unless_over(complete_answer(
                self.clones.stands(c),
                self.clones.is_complete(c),
            )),
            Call::Commit(_) => self.unless_over(unless_late(self.commit)),
            Call::Rollback(_) => self.unless_over(unless_late(self.sealed)),
            Call::Marshal(_) => self.unless_over(self.marshal_answer()),
            Call::Status(_) => self.if_begun(self.status_answer()),
            Call::Tick(_, _) => self.if_begun(Answer::Fine),
            _ => Answer::Fine,
        }
    }
}
