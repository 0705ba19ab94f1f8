//! Why a promotion began.
ghost use Rattle.std.specs.Prelude.{◌≡◌, ◌++◌, OnOk, slice_get};
ghost use Rattle.dtx_model.specs.Entries.{is_promoted};
ghost use Rattle.dtx_model.specs.Outcome.{durables};
ghost use Rattle.dtx_model.specs.Words.{has, kth, past_of};
ghost use Rattle.outcome_reasons.specs.First.{first_of};
ghost use Rattle.outcome_reasons.specs.Promotions.{enlistment_in, enlists, promoting, promotion, promotion_done, reason_by};

use crate::callers::{moment, newest_line};
use crate::said::{Moment, PromotionReason, Why};
use dtx_values::{Body, Cause, EnlNo, Entry, Line};
use history_judge::{has_promotion, newest_durable};
use std::alloc::AllocError;

/// The durable that a line enlists.
fn enlists(lines: &[Line], n: u32) -> Option<EnlNo>
    ensures { result ≡ enlists (kth lines.now n) }
{
    if n == 0 {
        return None;
    }
    match lines.get(n as usize - 1) {
        Some(
            Line {
                body: Body::Durable(_, e, _, _),
                ..
            },
        ) => Some(*e),
        _ => None,
    }
}

/// The durable or promotable that was enlisted last.
fn standing(h: &[Entry]) -> Option<EnlNo>
    ensures { result ≡ enlistment_in (slice_get (durables (past_of h.now)) 0) }
{
    match newest_durable(h) {
        Some((e, _)) => Some(e),
        None => None,
    }
}

/// The reason, by the durable that is enlisted, and by the durable or promotable that stood already.
fn reason_by(cause: Cause, e: Option<EnlNo>, f: Option<EnlNo>) -> PromotionReason
    ensures { result ≡ reason_by cause e f }
{
    match cause {
        Cause::Marshal => PromotionReason::Identifier,
        Cause::Second => PromotionReason::Second(e, f),
        Cause::Beside => PromotionReason::Beside(e, f),
        Cause::Two => PromotionReason::Two(e),
    }
}

/// The reason of a promotion that begins with the entry after h, and its moment.
fn promoting(
    lines: &[Line],
    numbers: &[u64],
    h: &[Entry],
    x: &Entry,
) -> Option<(PromotionReason, Moment)>
    ensures { result ≡ promoting lines.now (past_of numbers.now) (past_of h.now) x.now }
{
    match *x {
        Entry::Promoting(cause) => {
            let reason = reason_by(cause, enlists(lines, newest_line(h)), standing(h));
            Some((reason, moment(numbers, h, x)))
        }
        _ => None,
    }
}

/// The first promotion that began.
fn first_promoting(
    lines: &[Line],
    numbers: &[u64],
    h: &[Entry],
) -> Option<(usize, (PromotionReason, Moment))>
    ensures { result ≡ first_of (promoting lines.now (past_of numbers.now)) (past_of h.now) }
{
    for (i, x) in h.iter().enumerate() {
        if let Some(found) = promoting(lines, numbers, &h[..i], x) {
            return Some((i, found));
        }
    }
    None
}

/// What is said of a promotion, by whether it was done.
fn promotion_done(is_done: bool, x: (PromotionReason, Moment)) -> Why
    ensures { result ≡ promotion_done is_done x }
{
    if is_done {
        Why::Promoted(x.0, x.1)
    } else {
        Why::PromotionFailed(x.0, x.1)
    }
}

/// Adds why the transaction was promoted, where a promotion began in it.
#[tactic(auto, using(dtx_model::proofs::Reading::reading))]
pub(crate) fn add_promotion(
    said: &mut Vec<Why>,
    lines: &[Line],
    numbers: &[u64],
    h: &[Entry],
) -> Result<(), AllocError>
    ensures { OnOk result (said.new.items ≡ said.old.items ++ promotion lines.now (past_of numbers.now) (past_of h.now)) }
{
    if let Some((_, found)) = first_promoting(lines, numbers, h) {
        said.push(promotion_done(has_promotion(h), found))?;
    }
    Ok(())
}
