//! The connections of one transaction, as the local side knows them.
ghost use Rattle.std.specs.Prelude.{◌≡◌, ◌≤◌, ◌<◌, ◌↔◌, ◌++◌, [], ◌∷◌, false, not, nat_le, length, filter, if◌then◌else◌};
ghost use Rattle.dtx_values.specs.declared.entry.Entry.TheVariants.{Sent, Got, Down as Ended};
ghost use Rattle.dtx_values.specs.declared.message.Dir.TheVariants.{Up, Down};
ghost use Rattle.dtx_values.specs.Ends.{abort_on, ends_after, is_end_of, knows, saw_end, tag_of, was_commit_sent, was_got, was_sent, with_opened};
ghost use Rattle.dtx_values.specs.Lines.{has_line};
ghost use Rattle.tm_proxy.specs.News.{got_outcome, is_of_both, loses_all, news_of, saw_both};

use crate::ends::{is_end_of, note_end, note_got, note_sent};
use crate::news::{ProxyNews, news_of};
use crate::tags::{has_message, with_message};
use arrayvec::ArrayVec;
use dtx_values::{CONNECTIONS, Conn, Dir, End, Message, has_line, is_opening, place_in_order};
use std::marker::Model;

/// The ends that the local side keeps of the connections that it opened to the coordinator. Contracts see the list of them, in order of connection.
#[derive(Drop)]
pub struct Proxy {
    ends: ArrayVec<End, CONNECTIONS>,
}

impl Model for Proxy {
    ghost use Rattle.std.specs.Prelude.{List};
    ghost use Rattle.dtx_values.specs.declared.end.End.{End};

    ghost Value = { List End };

    ghost view = { λ p. p.ends.items };
}

/// Forgets what was known of c.
fn forget(ends: &mut ArrayVec<End, CONNECTIONS>, c: Conn)
    ensures { ends.new.items ≡ filter (λ n. not (is_end_of c n)) ends.old.items }
{
    ends.retain(|n| !is_end_of(c, n));
}

/// Opens c by the message that was sent. What was known of an opening before is forgotten.
fn open_by(ends: &mut ArrayVec<End, CONNECTIONS>, c: Conn, m: &Message)
    requires { length (filter (λ n. not (is_end_of c n)) ends.old.items) < CONNECTIONS }
    ensures { ends.new.items ≡ with_opened c (tag_of m.now) ends.old.items }
{
    forget(ends, c);
    let opened = End {
        connection: c,
        sent: with_message(0, m),
        got: 0,
        ended: false,
    };
    let at = place_in_order(ends.as_slice(), c.order());
    ends.insert(at, opened);
}

/// How many ends are of other connections than c.
fn others(ends: &[End], c: Conn) -> usize
    ensures { result ≡ length (filter (λ n. not (is_end_of c n)) ends.now) }
{
    ends.iter().filter(|n| !is_end_of(c, n)).count()
}

/// Whether c is b or v.
fn is_of_both(c: Conn) -> bool
    ensures { result ≡ is_of_both c }
{
    matches!(c, Conn::Begin | Conn::Voter)
}

impl Proxy {
    /// No connection was opened.
    pub fn new() -> Self
        ensures { result ≡ [] }
    {
        Proxy {
            ends: ArrayVec::new(),
        }
    }

    /// What is known of each connection that was opened, in order of connection.
    pub fn ends(&self) -> &[End]
        ensures { result.now ≡ self.now }
    {
        self.ends.as_slice()
    }

    /// Whether the connection is known as open: it was opened, and its end wasn't seen.
    pub fn knows(&self, c: Conn) -> bool
        ensures { result ≡ knows c self.now }
    {
        self.ends.iter().any(|n| is_end_of(c, n) && !n.ended)
    }

    /// Whether the connection's end was seen.
    pub fn saw_end(&self, c: Conn) -> bool
        ensures { result ≡ saw_end c self.now }
    {
        self.ends.iter().any(|n| is_end_of(c, n) && n.ended)
    }

    /// Whether such a message was sent on the connection since it was opened last.
    pub fn was_sent(&self, c: Conn, m: &Message) -> bool
        ensures { result ≡ was_sent c (tag_of m.now) self.now }
    {
        self.ends
            .iter()
            .any(|n| is_end_of(c, n) && has_message(n.sent, m))
    }

    /// Whether COMMIT was sent, of either name: for two phases, or for a single one.
    pub fn was_commit_sent(&self) -> bool
        ensures { result ≡ was_commit_sent self.now }
    {
        self.was_sent(Conn::Begin, &Message::BeginCommit)
            || self.was_sent(Conn::Begin, &Message::BeginCommitOne)
    }

    /// Whether such a message was got on the connection since it was opened last.
    pub fn was_got(&self, c: Conn, m: &Message) -> bool
        ensures { result ≡ was_got c (tag_of m.now) self.now }
    {
        self.ends
            .iter()
            .any(|n| is_end_of(c, n) && has_message(n.got, m))
    }

    /// Whether the ends of b and of v were both seen.
    fn saw_both(&self) -> bool
        ensures { result ≡ saw_both self.now }
    {
        self.saw_end(Conn::Begin) && self.saw_end(Conn::Voter)
    }

    /// Whether the outcome was got on b or on v.
    fn got_outcome(&self) -> bool
        ensures { result ≡ got_outcome self.now }
    {
        self.was_got(Conn::Begin, &Message::BeginCommitted)
            || self.was_got(Conn::Begin, &Message::BeginAborted)
            || self.was_got(Conn::Voter, &Message::VoterCommit)
            || self.was_got(Conn::Voter, &Message::VoterAbort)
    }

    /// Whether there is room for what `sent` notes of the message: only a connection that is opened for the first time takes any.
    pub fn has_room(&self, c: Conn, m: &Message) -> bool
        ensures { result ≡ nat_le (length (ends_after (Sent c Up m.now) self.now)) CONNECTIONS }
    {
        let ends = self.ends.as_slice();
        !is_opening(c, *m) || others(ends, c) < CONNECTIONS
    }

    /// Notes a message that the local side sends. BEGIN, VOTER, ENLIST and REENLIST open their connection, each time anew.
    pub fn sent(&mut self, c: Conn, m: &Message)
        requires few { length (ends_after (Sent c Up m.now) self.old) ≤ CONNECTIONS }
        ensures { self.new ≡ ends_after (Sent c Up m.now) self.old }
    {
        if is_opening(c, *m) {
            open_by(&mut self.ends, c, m);
        } else {
            note_sent(self.ends.as_mut_slice(), c, m);
        }
    }

    /// Notes a message that the local side gets, and says what it tells. `Unfit` comes exactly where the message has no line on its connection: it
    /// then counts as the connection's end.
    pub fn got(&mut self, c: Conn, m: Message) -> ProxyNews
        ensures ends { self.new ≡ ends_after (Got c Down m) self.old }
        ensures news { result ≡ news_of c m }
        ensures unfit { (result ≡ ProxyNews.Unfit) ↔ (has_line c Down m ≡ false) }
    {
        if !has_line(c, Dir::Down, m) {
            note_end(self.ends.as_mut_slice(), c);
            return ProxyNews::Unfit;
        }
        note_got(self.ends.as_mut_slice(), c, &m);
        news_of(c, m)
    }

    /// Notes that the local side saw the connection's end, and says whether b and v have both ended by it, after the local side said yes and before
    /// it got the outcome.
    pub fn down(&mut self, c: Conn) -> ProxyNews
        ensures ends { self.new ≡ ends_after (Ended c Down) self.old }
        ensures news { result ≡ (if loses_all c self.old then ProxyNews.AllLost else ProxyNews.Lost c) }
    {
        let saw_both = self.saw_both();
        let awaits_outcome = self.was_sent(Conn::Voter, &Message::VoterYes) && !self.got_outcome();
        note_end(self.ends.as_mut_slice(), c);
        if is_of_both(c) && !saw_both && self.saw_both() && awaits_outcome {
            ProxyNews::AllLost
        } else {
            ProxyNews::Lost(c)
        }
    }

    /// The connection on which a veto says abort: b, once BEGUN was got, while neither COMMIT nor ABORT was sent and it is known as open; else v, once
    /// VOTER was sent, while no vote was sent and it is known as open.
    pub fn may_send_abort(&self) -> Option<Conn>
        ensures { result ≡ abort_on self.now }
    {
        let by_begin = self.was_got(Conn::Begin, &Message::BeginBegun(0))
            && !self.was_commit_sent()
            && !self.was_sent(Conn::Begin, &Message::BeginAbort)
            && self.knows(Conn::Begin);
        let by_voter = self.was_sent(Conn::Voter, &Message::VoterVoter(0))
            && !self.was_sent(Conn::Voter, &Message::VoterYes)
            && !self.was_sent(Conn::Voter, &Message::VoterNo)
            && self.knows(Conn::Voter);
        if by_begin {
            Some(Conn::Begin)
        } else if by_voter {
            Some(Conn::Voter)
        } else {
            None
        }
    }
}
