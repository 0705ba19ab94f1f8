//! The checker of a trace.
ghost use Rattle.std.specs.Prelude.{◌≡◌, List, [], ◌∷◌, vec_len, IfOk};
ghost use Rattle.dtx_model.specs.Traces.{Placed};
ghost use Rattle.trace_checker.specs.Keeps.{IsChecked};

use crate::book::Book;
use crate::checked::{Checked, Why};
use dtx_values::{Dir, Entry, Place, TxNo};
use entry_lists::Trace;
use std::alloc::{AllocError, Global};

/// What is known of each transaction by the entries so far.
#[derive(Drop)]
pub struct Checker {
    /// One for each transaction, by number.
    books: Vec<Book>,
    ghost many: { vec_len books ≡ 256 },
}

impl Checker {
    ghost use Rattle.trace_checker.specs.Checking.{IsCheckedWith, IsCheckerOf};

    /// The checker of no entries.
    pub fn new(alloc: Global) -> Result<Checker, AllocError>
        ensures { IfOk result (IsCheckerOf []) }
    {
        let mut books = Vec::new(alloc);
        while books.len() < TxNo::MAX as usize {
            books.push(Book::new(alloc))?;
        }
        Ok(Checker { books })
    }

    /// What `follow` does, in one code for all kinds of entries.
    #[inline(always)]
    fn note(&mut self, at: Place, x: &Entry) -> Result<Option<Why>, AllocError>
        ensures { IfOk result (λ loss. (T : List Placed)
            → IsCheckerOf T self.old → IsCheckedWith T (at, x.now) loss self.new) }
    {
        match at {
            Place::Transaction(t) => {
                let book = &mut self.books[t.index()];
                book.note(x)
            }
            Place::Context(_) => Ok(None),
            Place::Log => Ok(None),
        }
    }

    /// Notes an entry. What it loses of what was kept so far comes back, the first of the three; at a context and at the log nothing
    /// is lost.
    pub fn follow(&mut self, at: Place, x: &Entry) -> Result<Option<Why>, AllocError>
        ensures { IfOk result (λ loss. (T : List Placed) → IsCheckerOf T self.old → IsCheckedWith T (at, x.now) loss self.new) }
    {
        // Each kind that comes often gets code of its own, in which the compiler leaves out what
        // such an entry never changes. That is less than half of the work.
        match *x {
            Entry::Called(n, actor, answer) => self.note(at, &Entry::Called(n, actor, answer)),
            Entry::Enlisted(e, class) => self.note(at, &Entry::Enlisted(e, class)),
            Entry::Asked(e, ask) => self.note(at, &Entry::Asked(e, ask)),
            Entry::Voted(e, vote) => self.note(at, &Entry::Voted(e, vote)),
            Entry::Told(party, outcome) => self.note(at, &Entry::Told(party, outcome)),
            Entry::Sent(c, Dir::Up, m) => self.note(at, &Entry::Sent(c, Dir::Up, m)),
            Entry::Sent(c, Dir::Down, m) => self.note(at, &Entry::Sent(c, Dir::Down, m)),
            Entry::Got(c, Dir::Up, m) => self.note(at, &Entry::Got(c, Dir::Up, m)),
            Entry::Got(c, Dir::Down, m) => self.note(at, &Entry::Got(c, Dir::Down, m)),
            _ => self.note(at, x),
        }
    }
}

/// Checks a trace, oldest entry first: whether each transaction's history keeps what is promised of it, and else the first entry at
/// which one doesn't.
pub fn check_trace(alloc: Global, trace: &Trace) -> Result<Checked, AllocError>
    ensures { IfOk result (IsChecked trace.now) }
{
    let mut checker = Checker::new(alloc)?;
    for i in 0..trace.len() {
        let (at, x) = trace.at(i);
        let loss = checker.follow(at, &x)?;
        match loss {
            Some(why) => return Ok(Checked::Bad(i as u64 + 1, why)),
            None => {}
        }
    }
    Ok(Checked::Fine)
}

#[cfg(test)]
mod tests {
    use super::*;
    use dtx_values::{Conn, Dir, EnlNo, Message, Outcome, Party};
    use entry_lists::PlacedEntries;
    use std::test::Fail;

    fn trace_of(alloc: Global, entries: &[(Place, Entry)]) -> Result<Trace, AllocError> {
        let mut placed = PlacedEntries::new(alloc);
        for x in entries {
            placed.push(*x)?;
        }
        Ok(Trace::new(placed))
    }

    #[test]
    fn the_first_bad_entry_is_found(rt: HostRuntime) -> Result<(), Fail> {
        let t = Place::Transaction(TxNo::new(1).ok_or("no t1")?);
        let e = EnlNo::new(1).ok_or("no e1")?;
        let unjust = [(t, Entry::Told(Party::Client, Outcome::Committed))];
        let unsent = [(t, Entry::Got(Conn::Begin, Dir::Up, Message::BeginBegin))];
        let torn = [
            (t, Entry::RollbackAsked),
            (t, Entry::Told(Party::Client, Outcome::Aborted)),
            (t, Entry::OwnerAnswered(e, Outcome::Committed)),
        ];
        let cases = [
            (unjust.as_slice(), Checked::Bad(1, Why::Justified)),
            (unsent.as_slice(), Checked::Bad(1, Why::Wire)),
            (torn.as_slice(), Checked::Bad(3, Why::Agree)),
            (&torn[..2], Checked::Fine),
            (&torn[..0], Checked::Fine),
        ];
        for (entries, want) in cases {
            let found = check_trace(rt.alloc(), &trace_of(rt.alloc(), entries)?)?;
            assert!(rt; found == want, "found {found:?}");
        }
        Ok(())
    }
}
