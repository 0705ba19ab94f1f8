//! A queue and a counter, the resource managers of this program.
use dtx_values::{Note, Reply, Vote};
use std::alloc::{AllocError, Global};
use std::fmt::{self, Display, Formatter, Write};
use transactions::{Enlistment, ResourceManager};

/// The queue is the first that is enlisted, the counter the second.
#[derive(Drop)]
pub struct Shop {
    items: Vec<u32>,
    taken: Option<u32>,
    total: u32,
    added: u32,
    counts: bool,
}

impl Shop {
    pub fn new(alloc: Global) -> Result<Shop, AllocError> {
        Ok(Shop {
            items: vec![in alloc; 7, 9]?,
            taken: None,
            total: 100,
            added: 0,
            counts: true,
        })
    }

    /// Whether the counter can commit.
    pub fn set_counts(&mut self, counts: bool) {
        self.counts = counts;
    }

    /// Takes the last item off the queue, and adds it to the counter, both for the time being.
    pub fn move_item(&mut self) {
        self.taken = self.items.pop();
        self.added = self.taken.unwrap_or(0);
    }

    fn queue(&mut self, n: Note) -> Option<Reply> {
        match n {
            Note::Prepare => Some(Reply::Vote(Vote::Yes)),
            Note::Commit => {
                self.taken = None;
                Some(Reply::Ack)
            }
            Note::Rollback => {
                if let Some(x) = self.taken {
                    // There is room: it was there before.
                    let _ = self.items.push(x);
                }
                self.taken = None;
                None
            }
            _ => None,
        }
    }

    fn counter(&mut self, n: Note) -> Option<Reply> {
        match n {
            Note::Prepare if self.counts => Some(Reply::Vote(Vote::Yes)),
            Note::Prepare => Some(Reply::Vote(Vote::No)),
            Note::Commit => {
                self.total = self.total.saturating_add(self.added);
                self.added = 0;
                Some(Reply::Ack)
            }
            Note::Rollback => {
                self.added = 0;
                None
            }
            _ => None,
        }
    }
}

impl ResourceManager for Shop {
    ghost gives = { λ old e n r new. Unit {0} };

    fn on(&mut self, e: Enlistment, n: Note) -> Option<Reply> {
        if e.number().get() == 1 {
            self.queue(n)
        } else {
            self.counter(n)
        }
    }
}

impl Display for Shop {
    fn fmt<W: Write>(&self, f: &mut Formatter<W>) -> fmt::Result {
        write!(
            f,
            "{} left in the queue, {} in the counter",
            self.items.len(),
            self.total
        )
    }
}
