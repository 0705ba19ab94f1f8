//! The files of a book.
ghost use Rattle.std.specs.Prelude.{◌≡◌, IfOk};
ghost use Rattle.coordinator_log.specs.declared.layout.TheConstants.{LOG_BYTES};
ghost use Rattle.kv_resource.specs.declared.layout.TheConstants.{KV_BYTES};

use crate::fault::Fault;
use coordinator_log::LOG_BYTES;
use kv_resource::KV_BYTES;
use ledger_book::{Disks, Part};
use outside::{FileDisk, WriteError};
use std::fs::File;
use std::rt::Files;
use std::{fs, io};

/// Whether the disk may be in the file at this path: a regular file is there, or none is and it is to be made.
fn may_be_disk<R: Files<File = File>>(rt: &R, path: &str, makes: bool) -> bool {
    match fs::metadata(rt, path) {
        Ok(found) => found.is_file(),
        Err(_) => makes,
    }
}

/// The disk in the file of this name, of so many bytes.
fn disk_in<R: Files<File = File> + AllocGlobal>(
    rt: &R,
    dir: &str,
    part: Part,
    len: u64,
    makes: bool,
) -> Result<FileDisk, Fault>
    ensures { IfOk result (λ d. d.size ≡ len) }
{
    let Ok(path) = format!(in rt.alloc(); "{dir}/{part}") else {
        return Err(Fault::Memory);
    };
    if !may_be_disk(rt, path.as_str(), makes) {
        return Err(Fault::NotOpened(part));
    }
    match FileDisk::at_path(rt, path.as_str(), len) {
        Ok(disk) => Ok(disk),
        Err(WriteError::Failed) => Err(Fault::NotOpened(part)),
        Err(WriteError::Memory) => Err(Fault::Memory),
    }
}

/// Makes the folder where nothing has its name, and syncs the one that it is in, so that it is there after a crash.
fn make_folder<R: Files<File = File> + AllocGlobal>(rt: &R, dir: &str) -> io::Result<()> {
    if fs::metadata(rt, dir).is_ok() {
        return Ok(());
    }
    fs::create_dir(rt, dir)?;
    let above = format!(in rt.alloc(); "{dir}/..")?;
    let folder = File::open(rt, above.as_str())?;
    folder.sync_all()
}

/// The three disks in the files of this folder. Where they are to be made, so is the folder.
pub fn disks_in<R: Files<File = File> + AllocGlobal>(
    rt: &R,
    dir: &str,
    makes: bool,
) -> Result<Disks<FileDisk>, Fault>
    ensures log { IfOk result (λ d. d.log.size ≡ LOG_BYTES) }
    ensures left { IfOk result (λ d. d.left.size ≡ KV_BYTES) }
    ensures right { IfOk result (λ d. d.right.size ≡ KV_BYTES) }
{
    if makes && make_folder(rt, dir).is_err() {
        return Err(Fault::NotOpened(Part::Log));
    }
    let log = match disk_in(rt, dir, Part::Log, LOG_BYTES, makes) {
        Ok(log) => log,
        Err(e) => return Err(e),
    };
    let left = match disk_in(rt, dir, Part::Left, KV_BYTES, makes) {
        Ok(left) => left,
        Err(e) => return Err(e),
    };
    match disk_in(rt, dir, Part::Right, KV_BYTES, makes) {
        Ok(right) => Ok(Disks { log, left, right }),
        Err(e) => Err(e),
    }
}
