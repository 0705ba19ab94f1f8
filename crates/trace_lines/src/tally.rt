//! Sums traces up.
ghost use Rattle.std.specs.Prelude.{◌≡◌, ◌∷◌, ◌++◌, count_by, IfOk, List, OnOk};
ghost use Rattle.dtx_values.specs.declared.entry.Entry.{Entry};
ghost use Rattle.trace_lines.specs.Headings.{heading_word, is_counted};
ghost use Rattle.trace_lines.specs.Summary.{all_seen, count_line, seen_of, summary_text};

use crate::{answer_words, entry_words};
use dtx_values::{Entry, Outcome, Party, Place};
use entry_lists::Trace;
use line_tail::Tail;
use std::alloc::{AllocError, Global};

/// What stands in the history of a transaction.
#[derive(Clone, Copy, PartialEq, Eq, Debug)]
struct Seen {
    begun: bool,
    /// The client was told an outcome: one of the next three.
    told: bool,
    committed: bool,
    aborted: bool,
    in_doubt: bool,
    promoted: bool,
    logged: bool,
    freed: bool,
}

impl Seen {
    /// Nothing.
    const NOTHING: Seen = Seen {
        begun: false,
        told: false,
        committed: false,
        aborted: false,
        in_doubt: false,
        promoted: false,
        logged: false,
        freed: false,
    };

    /// Notes what the client was told.
    fn note_told(&mut self, outcome: Outcome)
        ensures { (h : List Entry) → self.old ≡ seen_of h → self.new ≡ seen_of (Entry.Told Party.Client outcome ∷ h) }
    {
        self.told = true;
        match outcome {
            Outcome::Committed => self.committed = true,
            Outcome::Aborted => self.aborted = true,
            Outcome::InDoubt => self.in_doubt = true,
        }
    }

    /// Notes the next entry of the history.
    fn note(&mut self, x: Entry)
        ensures { (h : List Entry) → self.old ≡ seen_of h → self.new ≡ seen_of (x ∷ h) }
    {
        match x {
            Entry::Began(_) => self.begun = true,
            Entry::Told(Party::Client, outcome) => self.note_told(outcome),
            Entry::Promoted(_, _) => self.promoted = true,
            Entry::Logged => self.logged = true,
            Entry::Freed => self.freed = true,
            _ => {}
        }
    }
}

/// What a line of the summary counts: transactions.
#[derive(Clone, Copy, PartialEq, Eq, Debug)]
enum Heading {
    /// All that were begun.
    Transactions,
    Committed,
    Aborted,
    InDoubt,
    /// Those that were begun, and whose client wasn't told.
    Open,
    Promoted,
    Logged,
    Freed,
}

impl Heading {
    /// The word of its line.
    fn word(self) -> &'static [u8]
        ensures { result.now ≡ heading_word self }
    {
        match self {
            Heading::Transactions => b"transactions",
            Heading::Committed => line_words::COMMITTED,
            Heading::Aborted => line_words::ABORTED,
            Heading::InDoubt => line_words::IN_DOUBT,
            Heading::Open => answer_words::OPEN,
            Heading::Promoted => entry_words::PROMOTED,
            Heading::Logged => entry_words::LOGGED,
            Heading::Freed => entry_words::FREED,
        }
    }

    /// Whether a transaction counts, by what stands in its history.
    fn counts(self, seen: &Seen) -> bool
        ensures { result ≡ is_counted self seen.now }
    {
        match self {
            Heading::Transactions => seen.begun,
            Heading::Committed => seen.committed,
            Heading::Aborted => seen.aborted,
            Heading::InDoubt => seen.in_doubt,
            Heading::Open => seen.begun && !seen.told,
            Heading::Promoted => seen.promoted,
            Heading::Logged => seen.logged,
            Heading::Freed => seen.freed,
        }
    }
}

/// What stands in the history of each transaction, from t1 to t256.
fn seen_in(t: &Trace) -> [Seen; 256]
    ensures { result ≡ all_seen t.now }
{
    let mut seen = [Seen::NOTHING; 256];
    for index in 0..t.len() {
        let (place, x) = t.at(index);
        if let Place::Transaction(tx) = place {
            seen[tx.index()].note(x);
        }
    }
    seen
}

/// Appends the line that says how many transactions count under a heading.
fn push_count(text: &mut Vec<u8>, heading: Heading, seen: &[Seen]) -> Result<(), AllocError>
    ensures { OnOk result (text.new.items ≡ text.old.items ++ count_line (heading_word heading) (count_by (is_counted heading) seen.now)) }
{
    let count = seen.iter().filter(|s| heading.counts(s)).count();
    let mut tail = Tail::new();
    tail.put(b"\n");
    tail.put_number(count as u64);
    tail.put(b" ");
    text.extend_from_slice(heading.word())?;
    text.extend_from_slice(tail.as_slice())
}

/// The text of a trace in the form summary. Its eight lines say how many transactions were begun; how many were committed, aborted and in
/// doubt, by what the client was told; how many are open, which is begun without that their client was told; and how many were promoted,
/// logged and freed.
///
/// # Errors
///
/// [`AllocError`] where memory ran out.
pub fn summary(alloc: Global, t: &Trace) -> Result<Vec<u8>, AllocError>
    ensures { IfOk result (λ v. v.items ≡ summary_text t.now) }
{
    let seen = seen_in(t);
    let mut text = Vec::new(alloc);
    push_count(&mut text, Heading::Transactions, &seen)?;
    push_count(&mut text, Heading::Committed, &seen)?;
    push_count(&mut text, Heading::Aborted, &seen)?;
    push_count(&mut text, Heading::InDoubt, &seen)?;
    push_count(&mut text, Heading::Open, &seen)?;
    push_count(&mut text, Heading::Promoted, &seen)?;
    push_count(&mut text, Heading::Logged, &seen)?;
    push_count(&mut text, Heading::Freed, &seen)?;
    Ok(text)
}
