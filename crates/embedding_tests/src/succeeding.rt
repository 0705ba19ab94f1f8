//! Each call succeeds once where nothing refuses it, and the numbers of transactions.
use crate::courses::{Course, runs};
use crate::objects::{Manager, manager};
use crate::recovering::{leaves, recovers};
use crate::scopes::works;
use coordinator_log::LOG_BYTES;
use dtx_values::{Outcome, RmNo};
use outside::SureDisk;
use std::alloc::Global;
use transactions::OpenError;

/// What is done in the first transactions, and how often an object is asked to prepare, and hears a commit, a rollback, and anything else.
const COURSES: [(Course, [u32; 4]); 7] = [
    (Course::Fills, [32, 32, 0, 0]),
    (Course::RollsBack, [0, 0, 2, 1]),
    (Course::Loses, [0, 0, 1, 0]),
    (Course::Waits, [1, 1, 0, 0]),
    (Course::Asks, [0, 0, 0, 0]),
    (Course::TimesOut, [0, 0, 1, 0]),
    (Course::Undoes, [0, 0, 0, 0]),
];

/// Runs 300 transactions, one after the other: epoch 1 has 256 of them, and epoch 2 the others. The first of them that isn't as it should be.
fn numbers(manager: &mut Manager, rms: [RmNo; 2]) -> Option<u64> {
    for n in 0..300u64 {
        let row = COURSES.get(n as usize).copied();
        let (course, heard) = row.unwrap_or((Course::Undoes, [0; 4]));
        let number = if n < 256 { 65_537 + n } else { 130_817 + n };
        if runs(manager, course, rms) != Some((number, heard)) {
            return Some(n);
        }
    }
    None
}

/// Why no manager is over a disk of zeros.
fn refused(alloc: Global, zeros: SureDisk) -> Option<OpenError> {
    match manager(alloc, false, zeros, Vec::new(alloc)) {
        Ok(manager) => {
            let _ = manager.into_disk();
            None
        }
        Err(e) => Some(e),
    }
}

#[test]
fn what_nothing_refuses_succeeds(rt: HostRuntime) {
    let alloc = rt.alloc();
    let zeros = SureDisk::new(alloc, LOG_BYTES).expect(&rt, "memory");
    let refused = refused(alloc, zeros);
    let one = RmNo::new(1).expect(&rt, "a number");
    let rms = [one, RmNo::new(2).expect(&rt, "a number")];

    let disk = SureDisk::new(alloc, LOG_BYTES).expect(&rt, "memory");
    let readings = vec![in alloc; 0, 60, 40, 99, 100].expect(&rt, "memory");
    let mut first = manager(alloc, true, disk, readings).expect(&rt, "a manager");
    let wrong = numbers(&mut first, rms);
    let worked = works(&mut first, alloc);
    let number = leaves(&mut first, rms).expect(&rt, "a commit");

    let disk = first.into_disk();
    let mut second = manager(alloc, false, disk, Vec::new(alloc)).expect(&rt, "a manager");
    let recovered = recovers(&mut second, alloc, number, rms);
    let next = runs(&mut second, Course::Undoes, rms);
    let _ = second.into_disk();

    assert_eq!(&rt; wrong, None);
    assert!(&rt; worked == Some((Ok(7), Ok(()))));
    let outcomes = [Outcome::Committed, Outcome::Committed, Outcome::Aborted];
    assert!(&rt; recovered == Some(outcomes));
    // The next epoch, though numbers of the last one are left.
    assert!(&rt; next == Some((196_609, [0; 4])));
    assert!(&rt; refused == Some(OpenError::NotALog(0)));
}
