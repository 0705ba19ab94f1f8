//! What is enlisted in a transaction.
ghost use Rattle.std.specs.Prelude.{◌≡◌};
ghost use Rattle.transactions.specs.Enlisting.{enlists};

use crate::handle::Phases;
use dtx_values::{Call, EnlNo, EnlistOption, Outcome, RmNo, Support, TxNo, Vote};

/// What is enlisted in a transaction.
#[derive(Clone, Copy, PartialEq, Eq, Debug)]
pub enum Kind {
    /// A volatile resource.
    Volatile(EnlistOption),
    /// A durable resource of a resource manager.
    Durable(RmNo, Phases),
    /// A resource of a resource manager that owns the commit, and can promote the transaction.
    Promotable(RmNo),
}

/// The call that enlists it under this number. The objects reply in place of its plans; but a reply that no plan has would never be pending.
pub(crate) fn enlists(t: TxNo, e: EnlNo, k: Kind) -> Call
    ensures { result ≡ enlists t e k }
{
    let vote = Some(Vote::Yes);
    let owner = Some(Outcome::Committed);
    match k {
        Kind::Volatile(option) => Call::Volatile(t, e, option, vote),
        Kind::Durable(rm, Phases::Two) => Call::Durable(t, e, rm, Support::TwoPhase(vote)),
        Kind::Durable(rm, Phases::Single) => {
            Call::Durable(t, e, rm, Support::SinglePhase(vote, owner))
        }
        Kind::Promotable(rm) => Call::Promotable(t, e, rm, vote, owner, Some(true)),
    }
}
