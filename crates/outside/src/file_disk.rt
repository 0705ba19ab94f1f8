// A disk in a file of the system.
ghost use Rattle.std.specs.Prelude.{◌≡◌, ◌≤◌, ◌+◌, [], length, refl, true, false, IfOk, OnOk, OnErr, IsErr, IsTrue};
ghost use Rattle.outside.specs.Faults.{one_more};

use crate::{Disk, Failed, Image, WriteError};
use std::fs::{File, OpenOptions};
use std::io;
use std::io::{ErrorKind, Read, Seek, SeekFrom, Write};
use std::marker::Model;
use std::path::Path;
use std::rt::Files;

/// A disk in a file. It tells nothing of what it holds. A definition of this project.
///
/// Bytes that the file doesn't have read as zeros. The first write gives the file its length, which cuts off
/// what is beyond it, and until then the file stays as it was found. A call goes on after a signal, and
/// until all of its range is read or written. Any other error is a fault, and so is a write of no byte.
///
/// A sync returns when the system says that the file is on its device. After a sync that failed, a second
/// one can succeed though the bytes of the first are lost, and a read may still give them. So after a sync
/// that failed, or a length that couldn't be set, the disk is broken: each later call fails and counts. What
/// the file gives can't be trusted before the system is started anew, and a new `FileDisk` doesn't know that.
///
/// A file has one `FileDisk` at a time, in all programs: each takes the system's lock on the whole file, and
/// holds it until it is dropped. The lock stops only those who ask for it, as each `FileDisk` does.
///
/// `crash` does nothing here.
///
/// A clause sees it as an `Untold`: its length, whether it is broken, and its count of faults.
#[derive(Drop)]
pub struct FileDisk {
    file: File,
    len: u64,
    is_sized: bool,
    is_broken: bool,
    faults: u64,
}

impl Model for FileDisk {
    ghost use Rattle.outside.specs.Disk.{Untold};

    ghost Value = { Untold };

    ghost view = { λ d. record { size = d.len; is_broken = d.is_broken; faults = d.faults } };
}

impl FileDisk {
    /// The disk of `len` bytes in the file at `path`, which is made where it isn't there. It changes no byte of
    /// a file that is there.
    ///
    /// The folder in `path` is synced, so that a file that was made, now or before, has its name after a crash.
    /// Where the last name of `path` is a link, the folder of the file that it leads to isn't synced.
    ///
    /// # Errors
    ///
    /// - [`WriteError::Failed`] where the file can't be opened to read and write, where its lock is taken, or
    ///   where its folder can't be synced.
    /// - [`WriteError::Memory`] where no memory was left.
    pub fn at_path<R: Files<File = File>>(
        rt: &R,
        path: &str,
        len: u64,
    ) -> Result<FileDisk, WriteError>
        ensures { IfOk result (λ d. d ≡ record { size = len; is_broken = false; faults = 0 }) }
    {
        match locked(rt, path) {
            Ok(file) => Ok(FileDisk {
                file,
                len,
                is_sized: false,
                is_broken: false,
                faults: 0,
            }),
            Err(e) => match e.kind() {
                ErrorKind::OutOfMemory => Err(WriteError::Memory),
                _ => Err(WriteError::Failed),
            },
        }
    }

    // Counts a call that failed.
    fn counted(&mut self, done: Result<(), Failed>) -> Result<(), Failed>
        ensures same { result ≡ done }
        ensures smooth { OnOk done (self.new ≡ self.old) }
        ensures failed { OnErr done (self.new ≡ record self.old { faults = one_more self.old.faults }) }
        ensures grows { self.old.faults ≤ self.new.faults }
    {
        if done.is_err() {
            self.faults = self.faults.saturating_add(1);
        }
        done
    }
}

impl Disk for FileDisk {
    ghost honest = { false };

    ghost size = { λ d. d.size };

    ghost seen = { λ _. [] };

    ghost image = { λ _ _. ⊥ };

    ghost leaves = { λ _ _ _. ⊥ };

    ghost obeys = { false };

    ghost images = { λ _. record { kept = []; synced = []; torn = [] } };

    ghost faults = { λ d. d.faults };

    fn len(&self) -> u64
        ensures { result ≡ self.now.size }
    {
        self.len
    }

    fn read(&mut self, at: u64, into: &mut [u8]) -> Result<(), Failed>
        requires { at + length into.old ≤ self.old.size }
        ensures smooth { OnOk result (self.new ≡ self.old) }
        ensures failed { OnErr result
            (self.new ≡ record self.old { faults = one_more self.old.faults }) }
        ensures broken { IsTrue self.old.is_broken → IsErr result }
        ensures size { self.new.size ≡ self.old.size }
        ensures grows { self.old.faults ≤ self.new.faults }
    {
        let done = if self.is_broken {
            Err(Failed)
        } else {
            read_range(&mut self.file, at, into)
        };
        self.counted(done)
    }

    fn write_at(&mut self, at: u64, from: &[u8]) -> Result<(), Failed>
        requires { at + length from.now ≤ self.old.size }
        ensures smooth { OnOk result (self.new ≡ self.old) }
        ensures failed { OnErr result (self.new ≡ record self.old {
          is_broken = self.new.is_broken;
          faults = one_more self.old.faults;
        }) }
        ensures broken { IsTrue self.old.is_broken → IsErr result × IsTrue self.new.is_broken }
        ensures size { self.new.size ≡ self.old.size }
        ensures grows { self.old.faults ≤ self.new.faults }
    {
        if !self.is_sized && !self.is_broken {
            self.is_sized = self.file.set_len(self.len).is_ok();
            self.is_broken = !self.is_sized;
        }
        let done = if self.is_broken {
            Err(Failed)
        } else {
            write_range(&mut self.file, at, from)
        };
        self.counted(done)
    }

    fn sync(&mut self) -> Result<(), Failed>
        ensures smooth { OnOk result (self.new ≡ self.old) }
        ensures failed { OnErr result (self.new ≡ record self.old {
          is_broken = true;
          faults = one_more self.old.faults;
        }) }
        ensures broken { IsTrue self.old.is_broken → IsErr result }
        ensures size { self.new.size ≡ self.old.size }
        ensures grows { self.old.faults ≤ self.new.faults }
    {
        self.is_broken = self.is_broken || self.file.sync_all().is_err();
        let done = if self.is_broken { Err(Failed) } else { Ok(()) };
        self.counted(done)
    }

    fn crash(&mut self, _wish: Image)
        ensures { self.new ≡ self.old }
    {}

    ghost sees = { λ d h. absurd (Prim.cc) };

    ghost among = { λ wish d c h left. absurd left };

    ghost long = { λ d c h one. absurd one };

    ghost tells = { λ o. o };

    ghost kept = { λ d o. refl };
}

// Opens the file at a path, or makes it, takes its lock and syncs its folder.
fn locked<R: Files<File = File>>(rt: &R, path: &str) -> io::Result<File> {
    let file = OpenOptions::new()
        .read(true)
        .write(true)
        .create(true)
        .open(rt, path)?;
    file.try_lock()?;
    let folder = File::open(rt, folder_of(path))?;
    folder.sync_all()?;
    Ok(file)
}

// The folder in a path.
fn folder_of(path: &str) -> &str {
    match Path::new(path).parent() {
        Some(folder) if !folder.as_os_str().is_empty() => folder.as_os_str(),
        _ => ".",
    }
}

/// Reads all of `into` from place `at` on, as a [`FileDisk`] does. Zeros stand for the bytes that the file doesn't have.
pub fn read_range<F: Read + Seek>(file: &mut F, at: u64, into: &mut [u8]) -> Result<(), Failed> {
    if file.seek(SeekFrom::Start(at)).is_err() {
        return Err(Failed);
    }
    let mut came = 0;
    for _ in 0..u64::MAX {
        if came >= into.len() {
            return Ok(());
        }
        match file.read(&mut into[came..]) {
            Ok(0) => {
                into[came..].fill(0);
                return Ok(());
            }
            Ok(n) => came += n,
            Err(e) if e.kind() == ErrorKind::Interrupted => (),
            Err(_) => return Err(Failed),
        }
    }
    Err(Failed)
}

/// Writes all of `from` from place `at` on, as a [`FileDisk`] does.
pub fn write_range<F: Write + Seek>(file: &mut F, at: u64, from: &[u8]) -> Result<(), Failed> {
    if file.seek(SeekFrom::Start(at)).is_err() {
        return Err(Failed);
    }
    let mut went = 0;
    for _ in 0..u64::MAX {
        if went >= from.len() {
            return Ok(());
        }
        match file.write(&from[went..]) {
            Ok(0) => return Err(Failed),
            Ok(n) => went += n,
            Err(e) if e.kind() == ErrorKind::Interrupted => (),
            Err(_) => return Err(Failed),
        }
    }
    Err(Failed)
}
