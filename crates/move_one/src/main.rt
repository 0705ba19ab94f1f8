//! Moves an item from a queue to a counter as one unit, over a log in a file: the first time both can commit, the second time the counter can't.
#![tactic(auto)]

mod shop;

use coordinator_log::LOG_BYTES;
use dtx_values::{RmNo, Timeout};
use outside::{Clock, FileDisk, SystemClock};
use shop::Shop;
use transactions::{CommitError, CommittableTransaction, OpenError, Phases, TransactionManager};

/// Moves the item, and commits.
fn move_one<C: Clock + Drop>(
    manager: &mut TransactionManager<FileDisk, C>,
    tx: &CommittableTransaction,
    shop: &mut Shop,
) -> Result<(), CommitError> {
    for n in 1..=2 {
        let rm = RmNo::new(n).ok_or(CommitError::Many)?;
        manager.enlist_durable(tx, rm, Phases::Two, shop)?;
    }
    shop.move_item();
    manager.commit(tx, shop)
}

fn run(rt: &HostRuntime) -> Result<(), OpenError> {
    let disk = FileDisk::at_path(rt, "coordinator.log", LOG_BYTES).map_err(|_| OpenError::Fault)?;
    let made = TransactionManager::create(rt.alloc(), disk, SystemClock::new(rt));
    let mut manager = made.map_err(|e| e.0)?;
    let mut shop = Shop::new(rt.alloc()).map_err(|_| OpenError::Memory)?;
    for counts in [true, false] {
        shop.set_counts(counts);
        let tx = manager
            .begin(Timeout::Default)
            .map_err(|_| OpenError::Memory)?;
        let moved = move_one(&mut manager, &tx, &mut shop);
        manager.release(tx);
        let _ = println!(rt; "{moved:?}: {shop}");
    }
    Ok(())
}

fn main(rt: HostRuntime) {
    if let Err(e) = run(&rt) {
        let _ = println!(&rt; "{e}");
    }
}
