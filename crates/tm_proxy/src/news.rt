//! What the local side learns from the coordinator.
ghost use Rattle.std.specs.Prelude.{◌≡◌};
ghost use Rattle.tm_proxy.specs.News.{news_of};

use dtx_values::{Conn, EnlNo, Message, Outcome};

/// What a message of the coordinator, or the end of a connection, tells the local side.
#[derive(Clone, Copy, PartialEq, Eq, Debug)]
pub enum ProxyNews {
    /// The transaction was begun at the coordinator, with this identifier.
    Begun(u128),
    /// The coordinator awaits the local side's vote.
    Created,
    /// The enlistment is enlisted at the coordinator.
    Enlisted(EnlNo),
    /// The coordinator takes no voter or no enlistment on this connection. The cause: 1 is too late, 2 is no such transaction.
    Refused(Conn, u8),
    /// The coordinator asks for the local side's vote.
    AskVote,
    PrepareFor(EnlNo),
    CommitFor(EnlNo),
    AbortFor(EnlNo),
    /// The commit is this enlistment's to decide, in a single phase.
    SingleFor(EnlNo),
    /// It is decided so; or it is in doubt, since the one that the coordinator let decide is.
    OutcomeIs(Outcome),
    /// The connection ended.
    Lost(Conn),
    /// b and v have both ended, after the local side said yes and before it got the outcome.
    AllLost,
    /// The message has no line on its connection.
    Unfit,
}

/// What the message tells on its connection.
pub fn news_of(c: Conn, m: Message) -> ProxyNews
    ensures { result ≡ news_of c m }
{
    match (c, m) {
        (Conn::Begin, Message::BeginBegun(u)) => ProxyNews::Begun(u),
        (Conn::Begin, Message::BeginCommitted) => ProxyNews::OutcomeIs(Outcome::Committed),
        (Conn::Begin, Message::BeginAborted) => ProxyNews::OutcomeIs(Outcome::Aborted),
        (Conn::Begin, Message::BeginInDoubt) => ProxyNews::OutcomeIs(Outcome::InDoubt),
        (Conn::Voter, Message::VoterCreated) => ProxyNews::Created,
        (Conn::Voter, Message::VoterRefused(cause)) => ProxyNews::Refused(c, cause),
        (Conn::Voter, Message::VoterAsk) => ProxyNews::AskVote,
        (Conn::Voter, Message::VoterCommit) => ProxyNews::OutcomeIs(Outcome::Committed),
        (Conn::Voter, Message::VoterAbort) => ProxyNews::OutcomeIs(Outcome::Aborted),
        (Conn::Voter, Message::VoterInDoubt) => ProxyNews::OutcomeIs(Outcome::InDoubt),
        (Conn::Enl(e), Message::EnlistEnlisted) => ProxyNews::Enlisted(e),
        (Conn::Enl(_), Message::EnlistRefused(cause)) => ProxyNews::Refused(c, cause),
        (Conn::Enl(e), Message::EnlistPrepare) => ProxyNews::PrepareFor(e),
        (Conn::Enl(e), Message::EnlistCommit) => ProxyNews::CommitFor(e),
        (Conn::Enl(e), Message::EnlistAbort) => ProxyNews::AbortFor(e),
        (Conn::Enl(e), Message::EnlistSingle) => ProxyNews::SingleFor(e),
        (Conn::Again(e), Message::ReenlistCommitted) => ProxyNews::CommitFor(e),
        (Conn::Again(e), Message::ReenlistAborted) => ProxyNews::AbortFor(e),
        _ => ProxyNews::Unfit,
    }
}
