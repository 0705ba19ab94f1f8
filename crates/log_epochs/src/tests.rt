//! Epochs of a log over disks in memory: what a stop leaves of them, by the table of the log's format.
ghost use Rattle.std.specs.Prelude.{◌≡◌, ◌≤◌, length, true, IfOk};
ghost use Rattle.dtx_values.specs.RecoveryInfo.{is_id};
ghost use Rattle.dtx_values.specs.TxIds.{identifier_of_id};
ghost use Rattle.dtx_model.specs.Log.{first_of};
ghost use Rattle.coordinator_log.specs.Slots.{open_records};

use crate::{begin_epoch, epoch, epoch_in, identifier_of_epoch, no_transaction_is_an_epoch};
use coordinator_log::{LOG_BYTES, Log, LogRefusal};
use dtx_values::{EnlNo, LogRecord, RmNo, TxId, TxNo};
use outside::{Disk, Image, MemDisk};
use std::alloc::{AllocError, Global};
use std::process::Abort;
use std::test::Fail;

/// The record of a transaction of epoch 1 with enlistment 1 of manager 1.
fn record(rt: &impl Abort, number: u32) -> LogRecord
    ensures { is_id result.id ≡ true }
{
    let t = TxNo::new(number).expect(rt, "no such transaction");
    let mut record = LogRecord::new(TxId::new(1, t).identifier());
    let rm = RmNo::new(1).expect(rt, "no such manager");
    let enl = EnlNo::new(1).expect(rt, "no such enlistment");
    record.add(rm, enl);
    record
}

/// A disk of the length of a log.
fn disk(alloc: Global) -> Result<MemDisk, AllocError>
    ensures { IfOk result (λ d. length d.images.kept ≡ LOG_BYTES) }
{
    MemDisk::new(alloc, LOG_BYTES, Vec::new(alloc))
}

/// An empty log.
fn empty_log(rt: &impl Abort, alloc: Global) -> Result<Log<MemDisk>, AllocError> {
    match Log::format(alloc, disk(alloc)?) {
        Ok(log) => Ok(log),
        Err((refusal, _disk)) => panic!(rt; "{refusal:?}"),
    }
}

/// How many records a log has.
fn count(log: &Log<MemDisk>) -> usize {
    log.records().iter().filter(|s| s.is_some()).count()
}

/// Two epochs begin, and the log has the record of the second alone.
fn begins_two(rt: &impl Abort, log: &mut Log<MemDisk>) {
    assert!(rt; epoch(log) == 0);
    assert!(rt; begin_epoch(log) == Ok(1));
    assert!(rt; begin_epoch(log) == Ok(2));
    assert!(rt; epoch(log) == 2);
    assert!(rt; count(log) == 1);
    let found = log.lookup(identifier_of_epoch(2)).and_then(epoch_in);
    assert!(rt; found == Some(2));
}

#[test]
fn epochs_begin_one_after_the_other(rt: HostRuntime) -> Result<(), Fail> {
    let mut log = empty_log(&rt, rt.alloc())?;
    begins_two(&rt, &mut log);
    Ok(())
}

/// Puts the record of epoch 1 between those of two transactions.
fn fill(rt: &impl Abort, log: &mut Log<MemDisk>) {
    assert!(rt; log.append(0, &record(rt, 1)) == Ok(0));
    assert!(rt; begin_epoch(log) == Ok(1));
    assert!(rt; log.append(0, &record(rt, 2)) == Ok(2));
}

/// Whether the log has the record of this transaction.
fn keeps(rt: &impl Abort, log: &Log<MemDisk>, number: u32) -> bool {
    let wanted = record(rt, number);
    log.lookup(wanted.id).copied() == Some(wanted)
}

/// Begins epoch 2, which stops at this call and leaves this image, and opens the log. It gives the epoch that is found, and how many records.
fn stopped(rt: &impl Abort, log: &mut Log<MemDisk>, call: u8, image: Image) -> (u32, usize)
    requires { 1 ≤ call }
{
    log.arm(call, image);
    assert!(rt; begin_epoch(log) == Err(LogRefusal::StoppedNow));
    if log.life() < 9 {
        assert!(rt; log.reopen().is_ok());
    }
    (epoch(log), count(log))
}

/// Begins an epoch, by the clauses alone. That the record of a transaction is found as before needs the law of identifiers.
fn begin_beside<D: Disk>(log: &mut Log<D>, x: TxId) -> Result<u32, LogRefusal>
    ensures { first_of (identifier_of_id x) (open_records log.new.slots) ≡ first_of (identifier_of_id x) (open_records log.old.slots) }
{
    no_transaction_is_an_epoch();
    begin_epoch(log)
}

/// Whether the epoch after this one begins, and leaves its record and those of the two transactions.
fn goes_on(rt: &impl Abort, log: &mut Log<MemDisk>, n: u32) -> bool {
    let t = TxNo::new(2).expect(rt, "no such transaction");
    let next = begin_beside(log, TxId::new(1, t));
    next.ok() == n.checked_add(1) && count(log) == 3 && keeps(rt, log, 1) && keeps(rt, log, 2)
}

/// The call of the disk at which the beginning of epoch 2 stops, and the epoch and the number of records that are found with lose, keep and torn: four calls append its
/// record, and two free that of epoch 1.
const STOPS: [(u8, [(u32, usize); 3]); 6] = [
    (1, [(1, 3), (1, 3), (1, 3)]),
    (2, [(1, 3), (1, 3), (1, 3)]),
    (3, [(1, 3), (2, 4), (1, 3)]),
    (4, [(1, 3), (2, 4), (1, 3)]),
    (5, [(2, 4), (2, 3), (2, 3)]),
    (6, [(2, 4), (2, 3), (2, 3)]),
];

#[test]
fn a_stop_leaves_the_epoch_or_the_next(rt: HostRuntime) -> Result<(), Fail> {
    for (call, wanted) in STOPS {
        for (image, want) in [Image::Lose, Image::Keep, Image::Torn]
            .into_iter()
            .zip(wanted)
        {
            let mut log = empty_log(&rt, rt.alloc())?;
            fill(&rt, &mut log);
            if call >= 1 {
                let came = stopped(&rt, &mut log, call, image);
                assert!(rt; came == want, "at call {call} with {image:?}");
            }
            assert!(rt;
                goes_on(&rt, &mut log, want.0),
                "after call {call} with {image:?}"
            );
        }
    }
    Ok(())
}
