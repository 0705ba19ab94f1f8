//! What the two sides heard over the connections of the transaction as a whole.
ghost use Rattle.std.specs.Prelude.{◌≡◌};

use dtx_values::{Conn, Dir, Entry, Message};
use history_judge::{is_begin_end, is_voter_end};

/// What the two sides heard over the connections of the transaction as a whole.
#[derive(Clone, Copy, PartialEq, Eq, Debug)]
pub struct Heard {
    /// The coordinator got COMMIT, of either name.
    pub commit: bool,
    /// The coordinator got the voter's YES.
    pub yes: bool,
    /// The local side saw the end of b, and that of v.
    pub begin_end: bool,
    pub voter_end: bool,
    /// The local side got the outcome.
    pub outcome: bool,
    /// The coordinator got no ENLIST, or exactly one.
    pub nobody: bool,
    pub lone: bool,
}

impl Heard {
    ghost use Rattle.trace_checker.specs.Heard.{heard_after};

    /// Nothing was heard.
    pub const NOTHING: Heard = Heard {
        commit: false,
        yes: false,
        begin_end: false,
        voter_end: false,
        outcome: false,
        nobody: true,
        lone: false,
    };

    /// Notes the entry.
    #[inline(always)]
    pub fn follow(&mut self, x: &Entry)
        ensures { self.new ≡ heard_after x.now self.old }
    {
        self.begin_end |= is_begin_end(x);
        self.voter_end |= is_voter_end(x);
        match *x {
            Entry::Got(Conn::Begin, Dir::Up, Message::BeginCommit | Message::BeginCommitOne) => {
                self.commit = true;
            }
            Entry::Got(Conn::Voter, Dir::Up, Message::VoterYes) => self.yes = true,
            Entry::Got(Conn::Begin, Dir::Down, m) => {
                self.outcome |= matches!(m, Message::BeginCommitted | Message::BeginAborted);
            }
            Entry::Got(Conn::Voter, Dir::Down, m) => {
                self.outcome |= matches!(m, Message::VoterCommit | Message::VoterAbort);
            }
            Entry::Got(Conn::Enl(_), Dir::Up, Message::EnlistEnlist(_)) => {
                self.lone = self.nobody;
                self.nobody = false;
            }
            _ => {}
        }
    }
}
