//! A process that stops before its resource managers have acknowledged a commit, and their recovery in the next one.
use crate::objects::{Manager, Objects};
use dtx_values::{EnlNo, Note, Outcome, RmNo, Timeout};
use std::alloc::Global;
use transactions::{CommittableTransaction, Phases, RecoveryDesk};

/// Both managers commit, and neither acknowledges it.
fn commits(manager: &mut Manager, tx: &CommittableTransaction, rms: [RmNo; 2]) -> Option<()> {
    let mut o = Objects {
        heard: [0; 4],
        put_off: Some(Note::Commit),
    };
    for rm in rms {
        manager.enlist_durable(tx, rm, Phases::Two, &mut o).ok()?;
    }
    manager.commit(tx, &mut o).ok()
}

/// A transaction that both managers commit, and neither acknowledges; its number for good.
pub fn leaves(manager: &mut Manager, rms: [RmNo; 2]) -> Option<u64> {
    let tx = manager.begin(Timeout::Default).ok()?;
    let done = commits(manager, &tx, rms);
    let number = tx.number().number();
    manager.release(tx);
    done?;
    Some(number)
}

/// What its first enlistment hears: before any manager has recovered, after the first has, and after both have.
pub fn recovers(
    manager: &mut Manager,
    alloc: Global,
    number: u64,
    rms: [RmNo; 2],
) -> Option<[Outcome; 3]> {
    let e = EnlNo::new(1)?;
    let mut desk = RecoveryDesk::new(alloc);
    let before = manager.recovered_outcome(number, e);
    let first = manager.recovery_complete(&mut desk, rms[0]);
    let between = manager.recovered_outcome(number, e);
    let second = manager.recovery_complete(&mut desk, rms[1]);
    let after = manager.recovered_outcome(number, e);
    if first == Ok(()) && second == Ok(()) {
        Some([before, between, after])
    } else {
        None
    }
}
