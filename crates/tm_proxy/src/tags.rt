//! The messages of a connection, as named bits.
ghost use Rattle.std.specs.Prelude.{⊤, ◌≡◌, ◌^◌};
ghost use Rattle.dtx_values.specs.Ends.{is_in, tag_of, with_tag};
ghost use Rattle.tm_proxy.specs.Tags.{named_bits};

use bitflags::{Flag, Flags, bitflag_items};
use dtx_values::Message;

/// A set of messages of one connection: the bit of the message with tag n is 2 to the n. The messages of another connection are other names of the
/// same bits.
#[derive(Clone, Copy, PartialEq, Eq, Debug)]
pub struct Tags(u16);

bitflag_items! {
    impl Tags: u16 {
        const BEGIN_BEGIN = 2;
        const BEGIN_COMMIT = 4;
        const BEGIN_ABORT = 8;
        const BEGIN_BEGUN = 16;
        const BEGIN_COMMITTED = 32;
        const BEGIN_ABORTED = 64;
        const BEGIN_COMMITONE = 128;
        const BEGIN_INDOUBT = 256;
        const VOTER_VOTER = 2;
        const VOTER_YES = 4;
        const VOTER_NO = 8;
        const VOTER_CREATED = 16;
        const VOTER_REFUSED = 32;
        const VOTER_ASK = 64;
        const VOTER_COMMIT = 128;
        const VOTER_ABORT = 256;
        const VOTER_INDOUBT = 512;
        const ENLIST_ENLIST = 2;
        const ENLIST_PREPARED = 4;
        const ENLIST_NO = 8;
        const ENLIST_READONLY = 16;
        const ENLIST_ACK = 32;
        const ENLIST_ENLISTED = 64;
        const ENLIST_REFUSED = 128;
        const ENLIST_PREPARE = 256;
        const ENLIST_COMMIT = 512;
        const ENLIST_ABORT = 1024;
        const ENLIST_SINGLE = 2048;
        const ENLIST_ONECOMMITTED = 4096;
        const ENLIST_ONEABORTED = 8192;
        const ENLIST_ONEINDOUBT = 16384;
        const REENLIST_REENLIST = 2;
        const REENLIST_ACK = 4;
        const REENLIST_COMMITTED = 8;
        const REENLIST_ABORTED = 16;
    }
}

impl Flags for Tags {
    type Bits = u16;

    ghost exact = { ⊤ };

    ghost table = { named_bits };

    ghost set_of = { λ t. t.0 };

    fn flags<'a>() -> &'a [Flag<Tags>] {
        Tags::FLAGS
    }

    fn bits(&self) -> u16 {
        self.0
    }

    fn from_bits_retain(bits: u16) -> Tags {
        Tags(bits)
    }
}

impl Tags {
    /// The set of this message alone.
    pub fn of(m: &Message) -> Tags
        ensures { result.0 ≡ 2 ^ tag_of m.now }
    {
        match m {
            Message::BeginBegin => Tags::BEGIN_BEGIN,
            Message::BeginCommit => Tags::BEGIN_COMMIT,
            Message::BeginAbort => Tags::BEGIN_ABORT,
            Message::BeginBegun(_) => Tags::BEGIN_BEGUN,
            Message::BeginCommitted => Tags::BEGIN_COMMITTED,
            Message::BeginAborted => Tags::BEGIN_ABORTED,
            Message::BeginCommitOne => Tags::BEGIN_COMMITONE,
            Message::BeginInDoubt => Tags::BEGIN_INDOUBT,
            Message::VoterVoter(_) => Tags::VOTER_VOTER,
            Message::VoterYes => Tags::VOTER_YES,
            Message::VoterNo => Tags::VOTER_NO,
            Message::VoterCreated => Tags::VOTER_CREATED,
            Message::VoterRefused(_) => Tags::VOTER_REFUSED,
            Message::VoterAsk => Tags::VOTER_ASK,
            Message::VoterCommit => Tags::VOTER_COMMIT,
            Message::VoterAbort => Tags::VOTER_ABORT,
            Message::VoterInDoubt => Tags::VOTER_INDOUBT,
            Message::EnlistEnlist(_) => Tags::ENLIST_ENLIST,
            Message::EnlistPrepared => Tags::ENLIST_PREPARED,
            Message::EnlistNo => Tags::ENLIST_NO,
            Message::EnlistReadonly => Tags::ENLIST_READONLY,
            Message::EnlistAck => Tags::ENLIST_ACK,
            Message::EnlistEnlisted => Tags::ENLIST_ENLISTED,
            Message::EnlistRefused(_) => Tags::ENLIST_REFUSED,
            Message::EnlistPrepare => Tags::ENLIST_PREPARE,
            Message::EnlistCommit => Tags::ENLIST_COMMIT,
            Message::EnlistAbort => Tags::ENLIST_ABORT,
            Message::EnlistSingle => Tags::ENLIST_SINGLE,
            Message::EnlistOneCommitted => Tags::ENLIST_ONECOMMITTED,
            Message::EnlistOneAborted => Tags::ENLIST_ONEABORTED,
            Message::EnlistOneInDoubt => Tags::ENLIST_ONEINDOUBT,
            Message::ReenlistReenlist(_) => Tags::REENLIST_REENLIST,
            Message::ReenlistAck => Tags::REENLIST_ACK,
            Message::ReenlistCommitted => Tags::REENLIST_COMMITTED,
            Message::ReenlistAborted => Tags::REENLIST_ABORTED,
        }
    }
}

/// The set with this message in it.
pub fn with_message(set: u16, m: &Message) -> u16
    ensures { result ≡ with_tag (tag_of m.now) set }
{
    let mut tags = Tags::from_bits_retain(set);
    tags.insert(Tags::of(m));
    tags.bits()
}

/// Whether the message is in the set.
pub fn has_message(set: u16, m: &Message) -> bool
    ensures { result ≡ is_in (tag_of m.now) set }
{
    Tags::from_bits_retain(set).contains(Tags::of(m))
}
