//! Tests on the vote of an enlistment.
ghost use Rattle.std.specs.Prelude.{◌≡◌};
ghost use Rattle.dtx_model.specs.Coordinated.{is_prepared, is_ready, still_hears};
ghost use Rattle.coordinator_core.specs.Hearing.{hears};

use dtx_model::Ballot;
use dtx_values::Message;

/// Whether it said PREPARED.
pub(crate) fn is_prepared(b: Option<Ballot>) -> bool
    ensures { result ≡ is_prepared b }
{
    matches!(b, Some(Ballot::Prepared))
}

/// Whether it said PREPARED or READONLY, so that the commit needn't wait for it.
pub(crate) fn is_ready(b: Option<Ballot>) -> bool
    ensures { result ≡ is_ready b }
{
    matches!(b, Some(Ballot::Prepared | Ballot::ReadOnly))
}

/// Whether it said neither NO nor READONLY, so that it is to hear an abort.
fn still_hears(b: Option<Ballot>) -> bool
    ensures { result ≡ still_hears b }
{
    !matches!(b, Some(Ballot::Refused | Ballot::ReadOnly))
}

/// Whether an enlistment with this vote hears the message: PREPARE and SINGLE each, COMMIT those that said PREPARED, and ABORT those
/// that said neither NO nor READONLY.
pub(crate) fn hears(m: Message, b: Option<Ballot>) -> bool
    ensures { result ≡ hears m b }
{
    match m {
        Message::EnlistPrepare | Message::EnlistSingle => true,
        Message::EnlistCommit => is_prepared(b),
        Message::EnlistAbort => still_hears(b),
        _ => false,
    }
}
