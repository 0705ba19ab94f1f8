//! The run of a line.
ghost use Rattle.std.specs.Prelude.{◌≡◌, ◌≤◌, length, IfOk};

use crate::items::Case;
use coordinator_log::{Log, LogRefusal, is_identifier};
use dtx_values::{EnlNo, LogRecord, RmNo};
use outside::{Disk, Image, MemDisk, MemSink, MemSource, OpenGate};
use script_maker::make_script;
use script_runner::{Exit, LOG_BYTES, run_program};
use std::alloc::{AllocError, Global};
use std::sync::Wait;
use std::thread::Threads;

/// How a run ended, what it wrote, and how many records its log has, or why it has none, where it was opened.
#[derive(Drop)]
pub struct Ending {
    pub exit: Exit,
    pub written: Vec<u8>,
    pub records: Option<Result<u16, LogRefusal>>,
}

/// The words of the program.
fn words_of(alloc: Global, text: &str) -> Result<Vec<String>, AllocError> {
    let mut words = Vec::new(alloc);
    for word in text.split_whitespace() {
        words.push(String::from_str(alloc, word)?)?;
    }
    Ok(words)
}

/// The input: the script that is made of a number, or each line with its end.
fn input_of(alloc: Global, case: &Case) -> Result<Vec<u8>, AllocError> {
    if 1 <= case.made && case.made <= 256 {
        make_script(alloc, case.made as u16)
    } else {
        let mut lines = lines_of(alloc, case.script)?;
        if case.is_unended {
            let _ = lines.pop();
        }
        Ok(lines)
    }
}

/// Each line with its end.
fn lines_of(alloc: Global, text: &str) -> Result<Vec<u8>, AllocError> {
    let mut bytes = Vec::new(alloc);
    if !text.is_empty() {
        for line in text.split("/") {
            bytes.extend_from_slice(line.as_bytes())?;
            bytes.push(b'\n')?;
        }
    }
    Ok(bytes)
}

/// A blank disk for the log, of which one call fails.
fn blank(alloc: Global, call: u64) -> Result<MemDisk, AllocError>
    ensures { IfOk result (λ d. length d.images.kept ≡ LOG_BYTES) }
{
    MemDisk::new(alloc, LOG_BYTES, Vec::from_slice(alloc, &[call])?)
}

/// The record of transaction 1, with enlistment 1 of manager 1.
fn record() -> Option<LogRecord> {
    let mut record = LogRecord::new((1 << 64) + 1);
    record.add(RmNo::new(1)?, EnlNo::new(1)?);
    Some(record)
}

/// Makes a log on this disk, with one record.
fn recorded(alloc: Global, disk: MemDisk) -> MemDisk
    requires { LOG_BYTES ≤ length disk.images.kept }
{
    match Log::format(alloc, disk) {
        Ok(mut log) => {
            append(&mut log);
            log.into_disk()
        }
        Err((_refusal, disk)) => disk,
    }
}

/// Writes the record to a log; a disk whose call fails has none.
fn append(log: &mut Log<MemDisk>) {
    if let Some(record) = record()
        && is_identifier(record.id)
    {
        let _ = log.append(log.life(), &record);
    }
}

/// The disk of a run.
fn disk_of(alloc: Global, case: &Case) -> Result<MemDisk, AllocError> {
    let disk = blank(alloc, case.disk)?;
    if case.is_recorded {
        Ok(recorded(alloc, disk))
    } else {
        Ok(disk)
    }
}

/// Runs the program.
fn run_over<R: Threads + Wait + Sync>(
    rt: &R,
    alloc: Global,
    words: &[String],
    source: &mut MemSource,
    sink: &mut MemSink,
    disk: MemDisk,
) -> (Exit, MemDisk)
    requires { LOG_BYTES ≤ length disk.images.kept }
    ensures { LOG_BYTES ≤ length result.1.images.kept }
{
    let none = Vec::new(alloc);
    run_program(rt, alloc, words, source, sink, disk, &OpenGate, none)
}

/// How many records the log on a disk has, or why it has none.
fn found(alloc: Global, disk: MemDisk) -> Result<u16, LogRefusal>
    requires { LOG_BYTES ≤ length disk.images.kept }
{
    match Log::from_disk(alloc, disk) {
        Ok(mut log) => log.reopen(),
        Err((refusal, _disk)) => Err(refusal),
    }
}

/// Runs the program as a line says.
pub fn ran<R: Threads + Wait + Sync>(
    rt: &R,
    alloc: Global,
    case: &Case,
) -> Result<Ending, AllocError> {
    let words = words_of(alloc, case.words)?;
    let input = input_of(alloc, case)?;
    let piece = case.piece.max(1);
    let mut source = MemSource::new(input, piece, Vec::from_slice(alloc, &[case.read])?);
    let mut sink = MemSink::new(alloc, piece, Vec::from_slice(alloc, &[case.write])?);
    let disk = disk_of(alloc, case)?;
    if disk.len() < LOG_BYTES {
        return Err(AllocError);
    }
    let (exit, mut disk) = run_over(rt, alloc, &words, &mut source, &mut sink, disk);
    if case.is_lost {
        disk.crash(Image::Lose);
    }
    Ok(Ending {
        exit,
        written: Vec::from_slice(alloc, sink.bytes())?,
        records: if case.is_opened {
            Some(found(alloc, disk))
        } else {
            None
        },
    })
}
