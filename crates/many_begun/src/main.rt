//! Begins a thousand transactions over a log in a file, six hundred of them distributed, and says from which number to which: each is above the one before. Where the file is
//! there, its log is opened, so that a second process goes on above the first.
#![tactic(auto)]

mod willing;

use coordinator_log::LOG_BYTES;
use dtx_values::{RmNo, Timeout, TxId};
use outside::{Clock, FileDisk, SystemClock};
use std::fs;
use transactions::{CommitError, CommittableTransaction, OpenError, Phases, TransactionManager};
use willing::Willing;

/// The log's file, in the folder that the program runs in.
const PATH: &str = "numbers.log";

/// The numbers that were given.
#[derive(Clone, Copy)]
struct Given {
    first: TxId,
    last: TxId,
    /// Whether each was above the one before.
    rose: bool,
}

/// Enlists two durables where it is distributed, and commits.
fn work<C: Clock + Drop>(
    manager: &mut TransactionManager<FileDisk, C>,
    tx: &CommittableTransaction,
    is_distributed: bool,
    o: &mut Willing,
) -> Result<(), CommitError> {
    if is_distributed {
        for n in 1..=2 {
            let rm = RmNo::new(n).ok_or(CommitError::Many)?;
            manager.enlist_durable(tx, rm, Phases::Two, o)?;
        }
    }
    manager.commit(tx, o)
}

/// A transaction from its beginning to its end, and its number.
fn run_one<C: Clock + Drop>(
    manager: &mut TransactionManager<FileDisk, C>,
    is_distributed: bool,
) -> Result<TxId, CommitError> {
    let tx = manager.begin(Timeout::Default)?;
    let number = tx.number();
    let done = work(manager, &tx, is_distributed, &mut Willing);
    manager.release(tx);
    match done {
        Ok(()) => Ok(number),
        Err(e) => Err(e),
    }
}

/// A thousand transactions, one after the other.
fn run_all<C: Clock + Drop>(
    manager: &mut TransactionManager<FileDisk, C>,
) -> Result<Given, CommitError> {
    let first = run_one(manager, true)?;
    let mut given = Given {
        first,
        last: first,
        rose: true,
    };
    for n in 1..1000 {
        let number = run_one(manager, n % 5 < 3)?;
        given.rose = given.rose && given.last.number() < number.number();
        given.last = number;
    }
    Ok(given)
}

/// The manager over the log in the file, or over a new one where there is no file.
fn manager(
    rt: &HostRuntime,
) -> Result<TransactionManager<FileDisk, SystemClock<&HostRuntime>>, OpenError> {
    let is_there = fs::metadata(rt, PATH).is_ok();
    let disk = FileDisk::at_path(rt, PATH, LOG_BYTES).map_err(|_| OpenError::Fault)?;
    let clock = SystemClock::new(rt);
    let made = if is_there {
        TransactionManager::open(rt.alloc(), disk, clock)
    } else {
        TransactionManager::create(rt.alloc(), disk, clock)
    };
    made.map_err(|e| e.0)
}

/// Says which numbers were given.
fn say(rt: &HostRuntime, given: Given) {
    let rose = if given.rose { "rose" } else { "didn't rise" };
    let (first, last) = (given.first, given.last);
    let _ = println!(rt;
        "{}.{} to {}.{}: they {rose}",
        first.epoch(),
        first.t().get(),
        last.epoch(),
        last.t().get()
    );
}

fn main(rt: HostRuntime) {
    let mut manager = match manager(&rt) {
        Ok(manager) => manager,
        Err(e) => {
            let _ = println!(&rt; "{e}");
            return;
        }
    };
    match run_all(&mut manager) {
        Ok(given) => say(&rt, given),
        Err(e) => {
            let _ = println!(&rt; "{e}");
        }
    }
}
