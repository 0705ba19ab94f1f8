//! Disks in memory and in files: what no clause says, that their calls go well and fail in this order.
ghost use Rattle.std.specs.Prelude.{OnErr, IsOk};
ghost use Rattle.outside.specs.Faults.{Rose};

use outside::{
    Disk, Failed, FileDisk, Image, MemDisk, SureDisk, WriteError, read_range, write_range,
};
use std::alloc::{AllocError, Global};
use std::io::{ErrorKind, Read, Seek, SeekFrom, Write};
use std::process::Abort;
use std::rt::Files;
use std::test::Fail;
use std::{fs, io};

/// What is done to a disk.
#[derive(Clone, Copy)]
enum Step {
    Write(u64, &'static [u8; 2]),
    Sync,
    Crash(Image),
}

/// A write through the bound, which isn't tried where it doesn't fit.
fn put<D: Disk>(disk: &mut D, at: u64, from: &[u8]) -> Result<(), Failed> {
    let len = disk.len();
    let n = from.len() as u64;
    if n > len || at > len - n {
        return Err(Failed);
    }
    disk.write_at(at, from)
}

/// The first four bytes, read through the bound.
fn first_four<D: Disk>(disk: &mut D) -> Result<[u8; 4], Failed> {
    if disk.len() < 4 {
        return Err(Failed);
    }
    let mut into = [0; 4];
    disk.read(0, &mut into)?;
    Ok(into)
}

/// Does a step.
fn take<D: Disk>(disk: &mut D, step: &Step) -> Result<(), Failed> {
    match step {
        Step::Write(at, from) => put(disk, *at, from.as_slice()),
        Step::Sync => disk.sync(),
        Step::Crash(wish) => {
            disk.crash(*wish);
            Ok(())
        }
    }
}

/// Does the steps, and says how many of them failed.
fn failures<D: Disk>(disk: &mut D, steps: &[Step]) -> usize {
    let mut failed = 0usize;
    for step in steps {
        if take(disk, step).is_err() {
            failed = failed.saturating_add(1);
        }
    }
    failed
}

/// By the clauses of the bound alone, no sync of a sure disk fails.
fn sync_surely(disk: &mut SureDisk) -> Result<(), Failed>
    ensures { IsOk result }
{
    sync_through(disk)
}

/// A sync through the bound.
fn sync_through<D: Disk>(disk: &mut D) -> Result<(), Failed>
    ensures cause { OnErr result (Rose (D.faults disk.old) (D.faults disk.new)) }
{
    disk.sync()
}

/// Whether a read, a write and a sync fail.
fn is_broken<D: Disk>(disk: &mut D) -> bool {
    first_four(disk) == Err(Failed)
        && put(disk, 0, b"ab") == Err(Failed)
        && sync_through(disk) == Err(Failed)
}

const FIRST: Step = Step::Write(0, b"ab");

const SECOND: Step = Step::Write(1, b"cd");

const LOSE: Step = Step::Crash(Image::Lose);

const KEEP: Step = Step::Crash(Image::Keep);

const TORN: Step = Step::Crash(Image::Torn);

/// The number of the call that fails, 0 for none, the steps, and the bytes after them.
const TABLE: [(u64, &[Step], &[u8; 4]); 15] = [
    (0, &[FIRST, LOSE], b"\0\0\0\0"),
    (0, &[FIRST, KEEP], b"ab\0\0"),
    (0, &[FIRST, TORN], b"\xA5\xA5\0\0"),
    (0, &[FIRST, Step::Sync, SECOND, LOSE], b"ab\0\0"),
    (0, &[FIRST, Step::Sync, SECOND, KEEP], b"acd\0"),
    (0, &[FIRST, Step::Sync, SECOND, TORN], b"a\xA5\xA5\0"),
    (0, &[FIRST, KEEP, SECOND, LOSE], b"\0\0\0\0"),
    (0, &[FIRST, KEEP, Step::Sync, LOSE], b"ab\0\0"),
    (1, &[FIRST, SECOND, KEEP], b"\0cd\0"),
    (1, &[FIRST, SECOND, TORN], b"\0\xA5\xA5\0"),
    (2, &[FIRST, SECOND, Step::Sync, LOSE], b"ab\0\0"),
    (2, &[FIRST, KEEP, SECOND, Step::Sync], b"ab\0\0"),
    (2, &[FIRST, Step::Sync, SECOND, LOSE], b"\0\0\0\0"),
    (2, &[FIRST, Step::Sync, SECOND, KEEP], b"acd\0"),
    (2, &[FIRST, Step::Sync, SECOND, TORN], b"\xA5\xA5\xA5\0"),
];

/// Does the steps on a new disk, of whose calls so many fail, and compares the bytes after them.
fn leaves<D: Disk>(rt: &impl Abort, disk: &mut D, steps: &[Step], fail: usize, want: &[u8; 4]) {
    assert_eq!(rt; failures(disk, steps), fail);
    assert_eq!(rt; first_four(disk), Ok(*want));
}

/// Does the steps on a disk that never fails, and compares the bytes after a sync.
fn leaves_surely(
    rt: &impl Abort,
    alloc: Global,
    steps: &[Step],
    want: &[u8; 4],
) -> Result<(), AllocError> {
    let mut disk = SureDisk::new(alloc, 4)?;
    assert_eq!(rt; failures(&mut disk, steps), 0);
    assert_eq!(rt; sync_surely(&mut disk), Ok(()));
    assert_eq!(rt; first_four(&mut disk), Ok(*want));
    Ok(())
}

#[test]
fn disk_in_memory_holds_what_its_steps_leave(rt: HostRuntime) -> Result<(), Fail> {
    for (fail, steps, want) in TABLE {
        let mut disk = MemDisk::new(rt.alloc(), 4, [fail].to_vec(rt.alloc())?)?;
        leaves(&rt, &mut disk, steps, usize::from(fail > 0), want);
        if fail == 0 {
            leaves_surely(&rt, rt.alloc(), steps, want)?;
        }
    }
    Ok(())
}

#[test]
fn disk_in_memory_fails_at_the_read_that_is_named(rt: HostRuntime) -> Result<(), Fail> {
    let mut disk = MemDisk::new(rt.alloc(), 4, [2].to_vec(rt.alloc())?)?;
    assert_eq!(rt; disk.len(), 4);
    for want in [Ok([0; 4]), Err(Failed), Ok([0; 4])] {
        assert_eq!(rt; first_four(&mut disk), want);
    }
    Ok(())
}

/// What a file has, the first four bytes of its disk, those after a write, and the file then.
const FILES: [(&str, &[u8; 4], &[u8; 4], &str); 3] = [
    ("abcdefgh", b"abcd", b"axyd", "axydef"),
    ("ab", b"ab\0\0", b"axy\0", "axy\0\0\0"),
    ("", b"\0\0\0\0", b"\0xy\0", "\0xy\0\0\0"),
];

/// Writes to a disk of six bytes, which is safe after its sync, and compares what was there before and is there after it.
fn holds(rt: &impl Abort, disk: &mut FileDisk, before: &[u8; 4], after: &[u8; 4]) {
    assert_eq!(rt; disk.len(), 6);
    assert_eq!(rt; first_four(disk), Ok(*before));
    assert_eq!(rt; put(disk, 1, b"xy"), Ok(()));
    assert_eq!(rt; sync_through(disk), Ok(()));
    disk.crash(Image::Lose);
    assert_eq!(rt; first_four(disk), Ok(*after));
}

/// Whether the file has this content.
fn has<R: Files<File = fs::File> + Alloc<A = Global> + Abort>(
    rt: &R,
    path: &str,
    want: &str,
) -> Result<(), Fail> {
    let found = fs::read_to_string(rt, path)?;
    assert_eq!(rt; found.as_str(), want);
    Ok(())
}

#[test]
fn disk_in_a_file_keeps_old_bytes_until_the_first_write(rt: HostRuntime) -> Result<(), Fail> {
    let path = "disk_in_a_file";
    for (found, before, after, kept) in FILES {
        if !found.is_empty() {
            fs::write(&rt, path, found)?;
        }
        let mut disk = FileDisk::at_path(&rt, path, 6)?;
        assert!(rt; first_four(&mut disk).is_ok());
        has(&rt, path, found)?;
        holds(&rt, &mut disk, before, after);
        has(&rt, path, kept)?;
        fs::remove_file(&rt, path)?;
    }
    Ok(())
}

#[test]
fn file_is_refused_to_a_second_disk(rt: HostRuntime) -> Result<(), Fail> {
    let path = "disk_in_a_locked_file";
    let first = FileDisk::at_path(&rt, path, 4)?;
    let second = FileDisk::at_path(&rt, path, 4).err();
    assert_eq!(rt; second, Some(WriteError::Failed));
    drop(first);
    assert!(rt; FileDisk::at_path(&rt, path, 4).is_ok());
    fs::remove_file(&rt, path)?;
    Ok(())
}

#[test]
fn file_is_refused_with_its_folder(rt: HostRuntime) {
    // A missing folder, a folder for a file, and a file whose folder has no sync.
    for path in ["no_folder_here/disk", ".", "/proc/self/comm"] {
        let refused = FileDisk::at_path(&rt, path, 4).err();
        assert_eq!(rt; refused, Some(WriteError::Failed), "at {path}");
    }
}

/// A disk is broken once its file didn't take its length.
fn breaks_at_its_length(rt: &impl Abort, disk: &mut FileDisk) {
    assert_eq!(rt; first_four(disk), Ok([0; 4]));
    assert_eq!(rt; sync_through(disk), Ok(()));
    assert_eq!(rt; put(disk, 0, b"ab"), Err(Failed));
    assert!(rt; is_broken(disk));
}

#[test]
fn disk_in_a_file_is_broken_after_a_length_that_fails(rt: HostRuntime) -> Result<(), Fail> {
    let path = "disk_in_a_file_that_is_too_long";
    let mut disk = FileDisk::at_path(&rt, path, 1 << 63)?;
    breaks_at_its_length(&rt, &mut disk);
    fs::remove_file(&rt, path)?;
    Ok(())
}

/// A disk is broken once its file was not synced.
fn breaks_at_its_sync(rt: &impl Abort, disk: &mut FileDisk) {
    assert_eq!(rt; put(disk, 0, b"ab"), Ok(()));
    assert!(rt; first_four(disk).is_ok());
    assert_eq!(rt; sync_through(disk), Err(Failed));
    assert!(rt; is_broken(disk));
}

#[test]
fn disk_in_a_file_is_broken_after_a_sync_that_fails(rt: HostRuntime) -> Result<(), Fail> {
    // A file of the process that has no sync.
    let path = "disk_in_a_file_without_sync";
    rt.symlink("/proc/self/comm", path)?;
    let mut disk = FileDisk::at_path(&rt, path, 4)?;
    breaks_at_its_sync(&rt, &mut disk);
    fs::remove_file(&rt, path)?;
    Ok(())
}

/// Four bytes that come and go one at a time, where each second call is interrupted.
#[derive(Drop)]
struct SlowFile {
    bytes: [u8; 4],
    at: usize,
    interrupted: bool,
}

impl SlowFile {
    /// Whether this call is to be interrupted.
    fn turns(&mut self) -> bool {
        self.interrupted = !self.interrupted;
        self.interrupted
    }
}

impl Read for SlowFile {
    fn read(&mut self, buf: &mut [u8]) -> io::Result<usize> {
        if self.turns() {
            return Err(ErrorKind::Interrupted.into());
        }
        if self.at >= 4 || buf.is_empty() {
            return Ok(0);
        }
        buf[0] = self.bytes[self.at];
        self.at += 1;
        Ok(1)
    }
}

impl Write for SlowFile {
    fn write(&mut self, buf: &[u8]) -> io::Result<usize> {
        if self.turns() {
            return Err(ErrorKind::Interrupted.into());
        }
        if self.at >= 4 || buf.is_empty() {
            return Ok(0);
        }
        self.bytes[self.at] = buf[0];
        self.at += 1;
        Ok(1)
    }

    fn flush(&mut self) -> io::Result<()> {
        Ok(())
    }
}

impl Seek for SlowFile {
    fn seek(&mut self, to: SeekFrom) -> io::Result<u64> {
        let SeekFrom::Start(at) = to else {
            return Err(ErrorKind::Unsupported.into());
        };
        self.at = at.min(4) as usize;
        Ok(at)
    }
}

#[test]
fn range_of_a_file_is_read_and_written_to_its_end(rt: HostRuntime) {
    let mut file = SlowFile {
        bytes: *b"abcd",
        at: 0,
        interrupted: false,
    };
    for (at, want) in [(0, *b"abc"), (1, *b"bcd"), (2, *b"cd\0"), (9, *b"\0\0\0")] {
        let mut into = [7; 3];
        assert_eq!(rt; read_range(&mut file, at, &mut into), Ok(()), "at {at}");
        assert_eq!(rt; into, want, "at {at}");
    }
    assert_eq!(rt; write_range(&mut file, 1, b"xy"), Ok(()));
    assert_eq!(rt; file.bytes, *b"axyd");
    assert_eq!(rt; write_range(&mut file, 3, b"zz"), Err(Failed));
}
