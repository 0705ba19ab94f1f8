//! What a run is given: a gate, and objects of managers 1 and 2.
use dtx_values::{EnlNo, Note, Reply, Resource, TxNo, Vote};
use outside::Gate;
use std::alloc::{AllocError, Global};
use std::sync::Arc;
use std::sync::atomic::{AtomicBool, AtomicU64, Ordering};
use turn_tests::looked;

/// What a run shows to its objects and its gate. It holds the reply of each of two transactions until it was called for the other, unless it is open.
#[derive(Drop)]
pub struct Watch {
    is_open: bool,
    at_first: AtomicBool,
    at_second: AtomicBool,
    /// How many replies were held until the other was called for.
    pub met: AtomicU64,
    /// What the object of manager 1 heard: a digit for each note, the newest last.
    pub first: AtomicU64,
    /// What that of manager 2 heard.
    pub second: AtomicU64,
}

impl Watch {
    /// Nothing was heard yet.
    pub fn new(is_open: bool) -> Watch {
        Watch {
            is_open,
            at_first: AtomicBool::new(false),
            at_second: AtomicBool::new(false),
            met: AtomicU64::new(0),
            first: AtomicU64::new(0),
            second: AtomicU64::new(0),
        }
    }
}

impl Gate for Watch {
    fn at(&self, t: u16, _e: u16) {
        if self.is_open {
            return;
        }
        let (mine, other) = if t == 1 {
            (&self.at_first, &self.at_second)
        } else {
            (&self.at_second, &self.at_first)
        };
        mine.store(true, Ordering::SeqCst);
        if looked(other) {
            self.met.fetch_add(1, Ordering::SeqCst);
        }
    }
}

/// The object of the manager of this number. It gives Prepare this answer and any other note none.
#[derive(Drop)]
struct Recorder {
    answer: Option<Reply>,
    number: u32,
    watch: Arc<Watch, Global>,
}

/// The digit of a note; 8 where it is of another transaction or enlistment than those of this number.
fn digit_of(number: u32, t: TxNo, e: EnlNo, n: Note) -> u64 {
    if t.get() != number || e.get() != number {
        return 8;
    }
    match n {
        Note::Prepare => 1,
        Note::Promote => 2,
        Note::Hand => 3,
        Note::Single => 4,
        Note::Commit => 5,
        _ => 9,
    }
}

impl Resource for Recorder {
    ghost gives = { λ old t e n r new. Unit {0} };

    fn on(&mut self, t: TxNo, e: EnlNo, n: Note) -> Option<Reply> {
        let mine = if self.number == 1 {
            &self.watch.first
        } else {
            &self.watch.second
        };
        let before = mine.load(Ordering::SeqCst);
        let digit = digit_of(self.number, t, e, n);
        mine.store(
            before.wrapping_mul(10).wrapping_add(digit),
            Ordering::SeqCst,
        );
        if n == Note::Prepare {
            self.answer
        } else {
            None
        }
    }
}

/// The objects of managers 1 and 2. The first answers so, and the second votes yes.
pub fn objects(
    alloc: Global,
    watch: &Arc<Watch, Global>,
    answer: Option<Reply>,
) -> Result<Vec<Box<dyn Resource + Send>>, AllocError> {
    let mut objects: Vec<Box<dyn Resource + Send>> = Vec::new(alloc);
    for (number, answer) in [(1, answer), (2, Some(Reply::Vote(Vote::Yes)))] {
        let recorder = Recorder {
            answer,
            number,
            watch: Arc::try_clone(watch)?,
        };
        objects.push(Box::new(alloc, recorder)?)?;
    }
    Ok(objects)
}
