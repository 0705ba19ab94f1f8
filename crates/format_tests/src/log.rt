//! The log over disks in memory: its bytes, the calls of its disk, and its listing.
ghost use Rattle.std.specs.Prelude.{◌≡◌, ◌⊎◌, ◌≤◌, ◌+◌, ◌^◌, length, true, IfOk, IsTrue};
ghost use Rattle.dtx_values.specs.RecoveryInfo.{is_id};
ghost use Rattle.coordinator_log.specs.Crash.{with_record};
ghost use Rattle.coordinator_log.specs.Slots.{open_records};
ghost use Rattle.dtx_model.specs.Log.{record_of};

use coordinator_log::{LOG_BYTES, Log, LogRefusal, crashes_leave_whole_records, is_identifier};
use dtx_values::{EnlNo, LogRecord, RmNo};
use log_listing::list_log;
use outside::{Disk, Image, MemDisk};
use std::alloc::{AllocError, Global};
use std::test::Fail;

/// What the identifiers of node 1 are above.
const NODE: u128 = 1 << 64;

/// Transaction 1 of node 1.
const ID: u128 = (1 << 64) + 1;

/// A record of this identifier with these enlistments, as far as there is room.
fn record_with(id: u128, enlistments: &[(u32, u32)]) -> Option<LogRecord> {
    let mut r = LogRecord::new(id);
    for (rm, enl) in enlistments {
        if r.count < 16 {
            r.add(RmNo::new(*rm)?, EnlNo::new(*enl)?);
        }
    }
    Some(r)
}

/// The identifier of this transaction of node 1.
fn id(number: u32) -> u128
    ensures { result ≡ 2 ^ 64 + number }
{
    (1 << 64) + u128::from(number)
}

/// A record of this transaction, with no enlistment.
fn record(number: u32) -> LogRecord
    requires { 1 ≤ number }
    ensures { is_id result.id ≡ true }
{
    LogRecord::new(id(number))
}

/// A disk whose call of this number fails, of those from 1 on.
fn disk(alloc: Global, fail: u64) -> Result<MemDisk, AllocError>
    ensures { IfOk result (λ d. length d.images.kept ≡ LOG_BYTES) }
{
    MemDisk::new(alloc, LOG_BYTES, Vec::from_slice(alloc, &[fail])?)
}

/// Writes bytes that fit to a disk.
fn overwrite(disk: &mut MemDisk, at: u64, bytes: &[u8])
    ensures { length disk.new.images.kept ≡ length disk.old.images.kept }
{
    let n = bytes.len() as u64;
    if disk.len() == LOG_BYTES && n <= LOG_BYTES && at <= LOG_BYTES - n {
        let _ = disk.write_at(at, bytes);
    }
}

/// The record of transaction 1 with enlistment 16 at manager 1, and enlistment 16 at manager 2: the gate, the format, the number of enlistments, the identifier, and for each
/// the manager and the enlistment. Zeros follow.
const TWO: [u8; 60] = [
    1, 1, 2, 0, 0, 0, 0, 0, 0, 0, 0, 1, 0, 0, 0, 0, 0, 0, 0, 1, 0, 0, 0, 0, 0, 0, 0, 0, 0, 0, 0, 0,
    0, 0, 0, 1, 16, 0, 0, 0, 0, 0, 0, 0, 0, 0, 0, 0, 0, 0, 0, 0, 0, 0, 0, 2, 16, 0, 0, 0,
];

/// A place of a log with that record in its first slot, other bytes there, and the place of what is bad then, or whether the record is found.
const CHANGES: [(u64, &[u8], Result<bool, u64>); 20] = [
    (512, &[1], Ok(true)),
    (512, &[0], Ok(false)),
    (1024, &[2, 1, 17], Ok(true)),
    (1024, &[1], Err(1025)),
    (524_288, &[1, 1, 17, 0], Err(524_290)),
    (7, b"1", Err(7)),
    (511, &[1], Err(511)),
    (513, &[2], Err(513)),
    (514, &[17], Err(514)),
    (515, &[1], Err(514)),
    (523, &[0], Err(516)),
    (531, &[0], Err(524)),
    (532, &[1], Err(532)),
    (547, &[0], Err(532)),
    (547, &[17], Err(532)),
    (548, &[0], Err(548)),
    (549, &[0x27], Err(548)),
    (567, &[17], Err(552)),
    (569, &[0x27], Err(568)),
    (1023, &[255], Err(1023)),
];

/// A log spelled by hand, with that record and these bytes.
fn spelled(alloc: Global, at: u64, bytes: &[u8]) -> Result<MemDisk, AllocError>
    ensures { IfOk result (λ d. length d.images.kept ≡ LOG_BYTES) }
{
    let mut disk = disk(alloc, 0)?;
    overwrite(&mut disk, 0, b"DTXLOG1\n");
    overwrite(&mut disk, 512, &TWO);
    overwrite(&mut disk, at, bytes);
    Ok(disk)
}

/// The record of transaction 1 in the log on a disk, or why that is no log.
fn read(alloc: Global, disk: MemDisk) -> Result<Option<LogRecord>, LogRefusal>
    requires { LOG_BYTES ≤ length disk.images.kept }
{
    match Log::from_disk(alloc, disk) {
        Ok(log) => Ok(log.lookup(ID).copied()),
        Err((refusal, _disk)) => Err(refusal),
    }
}

#[test]
fn names_the_first_bad_place(rt: HostRuntime) -> Result<(), Fail> {
    let whole = record_with(ID, &[(1, 16), (2, 16)]);
    for (at, bytes, want) in CHANGES {
        let want = match want {
            Ok(true) => Ok(whole),
            Ok(false) => Ok(None),
            Err(place) => Err(LogRefusal::NotALog(place)),
        };
        let disk = spelled(rt.alloc(), at, bytes)?;
        assert!(rt; read(rt.alloc(), disk) == want, "at {at}");
    }
    Ok(())
}

/// The slot of sixteen enlistments, and what they are.
fn sixteen() -> ([u8; 512], [(u32, u32); 16]) {
    let mut slot = [0; 512];
    let mut enlistments = [(1, 9984); 16];
    slot[..60].copy_from_slice(&TWO);
    slot[2] = 16;
    for i in 0..16usize {
        enlistments[i] = (i as u32 + 1, i as u32 + 9984);
        slot[35 + 20 * i] = i as u8 + 1;
        slot[36 + 20 * i] = i as u8;
        slot[37 + 20 * i] = 0x27;
    }
    (slot, enlistments)
}

/// An empty log.
fn empty_log(alloc: Global) -> Result<Log<MemDisk>, AllocError>
    ensures life { IfOk result (λ l. l.life ≡ 0) }
{
    match Log::format(alloc, disk(alloc, 0)?) {
        Ok(log) => Ok(log),
        Err(_) => Err(AllocError),
    }
}

/// Appends a record in a log's first life, where its identifier is one.
fn append(log: &mut Log<MemDisk>, r: &LogRecord) -> Result<u16, LogRefusal> {
    if is_identifier(r.id) {
        log.append(0, r)
    } else {
        Err(LogRefusal::Stopped)
    }
}

/// The bytes of the first slot.
fn first_slot(disk: &mut MemDisk) -> [u8; 512]
    ensures { length disk.new.images.kept ≡ length disk.old.images.kept }
{
    let mut slot = [7; 512];
    if disk.len() >= 1024 {
        let _ = disk.read(512, &mut slot);
    }
    slot
}

#[test]
fn sixteen_enlistments_both_ways(rt: HostRuntime) -> Result<(), Fail> {
    let (slot, enlistments) = sixteen();
    let r = record_with(ID, &enlistments).ok_or("out of range")?;
    let mut log = empty_log(rt.alloc())?;
    let place = append(&mut log, &r);
    let mut disk = log.into_disk();
    let written = first_slot(&mut disk);
    let came = read(rt.alloc(), disk);
    assert!(rt; place == Ok(0) && written == slot && came == Ok(Some(r)));
    Ok(())
}

/// How many records are found when a log is opened again; `None` where it isn't opened.
fn found(log: &mut Log<MemDisk>) -> Option<u16> {
    if log.life() < 9 {
        log.reopen().ok()
    } else {
        None
    }
}

/// How many records are found when a log is taken from a disk and opened again; `None` where it isn't.
fn found_on(alloc: Global, disk: MemDisk) -> Option<u16>
    requires { LOG_BYTES ≤ length disk.images.kept }
{
    match Log::from_disk(alloc, disk) {
        Ok(mut log) => found(&mut log),
        Err(_) => None,
    }
}

/// Appends a record (step 1), frees it (2) and opens the log again (3), up to the first step that is broken off, and says which that is, or 4.
fn broken_off(log: &mut Log<MemDisk>) -> u8 {
    if log.append(0, &record(1)).is_err() {
        1
    } else if log.free(0, ID).is_err() {
        2
    } else if found(log).is_none() {
        3
    } else {
        4
    }
}

/// Formats a log (step 0) and does those steps, over a disk whose n-th call fails. It gives the step that was broken off, and how many records are found when the log is opened
/// then.
fn run(alloc: Global, n: u64) -> Result<(u8, Option<u16>), AllocError> {
    match Log::format(alloc, disk(alloc, n)?) {
        Ok(mut log) => {
            let step = broken_off(&mut log);
            Ok((step, found(&mut log)))
        }
        Err((_, disk)) => Ok((0, found_on(alloc, disk))),
    }
}

/// The first and the last number of a call, and what a run comes to in which it fails: four calls format the log, four append, two free, and a sync and a read of the head and
/// of each of 1,024 slots open it again. Call 1,037 is the first of whoever opens it once more.
const CALLS: [(u64, u64, u8, Option<u16>); 10] = [
    (1, 3, 0, None),
    (4, 4, 0, Some(0)),
    (5, 7, 1, Some(0)),
    (8, 8, 1, Some(1)),
    (9, 9, 2, Some(1)),
    (10, 10, 2, Some(0)),
    (11, 14, 3, Some(0)),
    (1_034, 1_036, 3, Some(0)),
    (1_037, 1_037, 4, None),
    (1_000_000, 1_000_000, 4, Some(0)),
];

#[test]
fn each_call_of_the_disk_fails_in_turn(rt: HostRuntime) -> Result<(), Fail> {
    for (first, last, step, count) in CALLS {
        for n in first..=last {
            let came = run(rt.alloc(), n)?;
            assert!(rt; came == (step, count), "at call {n}");
        }
    }
    Ok(())
}

/// The call at which a free stops, and how many records are found with lose, keep and torn. Those of an append are in the examples `stop_*`.
const STOPS: [(u8, Image, u16); 6] = [
    (1, Image::Lose, 1),
    (1, Image::Keep, 0),
    (1, Image::Torn, 0),
    (2, Image::Lose, 1),
    (2, Image::Keep, 0),
    (2, Image::Torn, 0),
];

/// How many records are found after a free that stops at this call and leaves this image.
fn found_after(log: &mut Log<MemDisk>, call: u8, image: Image) -> Option<u16> {
    if log.append(0, &record(1)).is_err() || call == 0 {
        return None;
    }
    log.arm(call, image);
    if log.free(0, ID) != Err(LogRefusal::StoppedNow) {
        return None;
    }
    found(log)
}

#[test]
fn a_stop_in_a_free_leaves_what_the_format_says(rt: HostRuntime) -> Result<(), Fail> {
    for (call, image, count) in STOPS {
        let mut log = empty_log(rt.alloc())?;
        let came = found_after(&mut log, call, image);
        assert!(rt; came == Some(count), "at call {call}");
    }
    Ok(())
}

/// Appends a record, whatever comes of it, crashes the disk and opens the log. That it finds the records as they were, or those with the new one, is the law of the log.
fn crashed<D: Disk + Drop>(
    alloc: Global,
    log: Log<D>,
    r: &LogRecord,
    wish: Image,
) -> Result<Log<D>, (LogRefusal, D)>
    requires { is_id r.now.id ≡ true }
    ensures { IsTrue D.honest → IsTrue log.is_up → IfOk result (λ opened. (open_records opened.slots ≡ open_records log.slots)
        ⊎ (open_records opened.slots ≡ with_record (record_of r.now) log.slots)) }
{
    crashes_leave_whole_records::<D>();
    let mut log = log;
    let _ = log.append(log.life(), r);
    let mut disk = log.into_disk();
    disk.crash(wish);
    Log::from_disk(alloc, disk)
}

/// Whether a record outlives its append to this log, and a crash with lose after that.
fn outlives(alloc: Global, log: Log<MemDisk>) -> Option<bool> {
    match crashed(alloc, log, &record(1), Image::Lose) {
        Ok(log) => Some(log.lookup(ID).is_some()),
        Err(_) => None,
    }
}

#[test]
fn a_crash_after_an_append_leaves_whole_records(rt: HostRuntime) -> Result<(), Fail> {
    for (call, want) in [(3, false), (4, true)] {
        let mut log = empty_log(rt.alloc())?;
        log.arm(call, Image::Keep);
        let came = outlives(rt.alloc(), log);
        assert!(rt; came == Some(want), "at call {call}");
    }
    Ok(())
}

/// An epoch, a closed slot, a transaction of an epoch, and the number of an epoch with enlistments.
const LISTED: &[u8] = b"slot 0 epoch 7
slot 2 7.256
slot 3 00000000-0000-0001-0000-000000070000 r16 e9999 r1 e1
3 of 1024 slots used
";

#[test]
fn a_log_is_listed_slot_by_slot(rt: HostRuntime) -> Result<(), Fail> {
    let epoch = NODE + 7 * 65_536;
    let slots = [
        record_with(epoch, &[]),
        None,
        record_with(epoch + 256, &[]),
        record_with(epoch, &[(16, 9_999), (1, 1)]),
    ];
    let text = list_log(rt.alloc(), &slots)?;
    assert!(rt; text.as_slice() == LISTED);
    Ok(())
}
