// The real input and output of the process.
ghost use Rattle.std.specs.Prelude.{◌≡◌, ◌<◌, ◌≤◌, length, None, IfOk, IfErr, OnOk, OnErr};
ghost use Rattle.outside.specs.Faults.{one_more};

use crate::{Failed, Sink, Source, WriteError};
use std::io::{ErrorKind, Input, Print, Read};
use std::marker::Model;

/// The standard input. It tells nothing of what is left. A definition of this project.
///
/// A read gives what the system gives at once, and waits where nothing is there yet. It reads again after
/// a signal. Any other error is a fault.
///
/// A clause sees it as its count of faults.
#[derive(Drop)]
pub struct StdSource<R: Input> {
    reader: R::Reader,
    faults: u64,
}

impl<R: Input> Model for StdSource<R> {
    ghost use Rattle.std.specs.Prelude.{ℕ};

    ghost Value = { ℕ };

    ghost view = { λ s. s.faults };
}

impl<R: Input + Drop> StdSource<R> {
    /// The input of the runtime, with no fault so far.
    pub fn new(rt: R) -> StdSource<R>
        ensures { result ≡ 0 }
    {
        StdSource {
            reader: rt.reader(),
            faults: 0,
        }
    }
}

impl<R: Input> Source for StdSource<R> {
    ghost left = { λ _. None };

    ghost faults = { λ s. s };

    fn read(&mut self, into: &mut [u8]) -> Result<usize, Failed>
        requires { 0 < length into.old }
        ensures room { IfOk result (λ n. n ≤ length into.old) }
        ensures smooth { OnOk result (self.new ≡ self.old) }
        ensures failed { OnErr result (self.new ≡ one_more self.old) }
        ensures grows { self.old ≤ self.new }
    {
        let came = read_some(&mut self.reader, into);
        if came.is_err() {
            self.faults = self.faults.saturating_add(1);
        }
        came
    }
}

/// The standard output. It tells nothing of what was written. A definition of this project.
///
/// It has no buffer: what a write reports has left the process. It writes again after a signal. Any other
/// error is a fault, as where the output is closed or full, and so is a write of no byte.
///
/// A clause sees it as its count of faults.
#[derive(Drop)]
pub struct StdSink<R> {
    out: R,
    faults: u64,
}

impl<R> Model for StdSink<R> {
    ghost use Rattle.std.specs.Prelude.{ℕ};

    ghost Value = { ℕ };

    ghost view = { λ s. s.faults };
}

impl<R: Print + Drop> StdSink<R> {
    /// The output of the runtime, with no fault so far.
    pub fn new(rt: R) -> StdSink<R>
        ensures { result ≡ 0 }
    {
        StdSink { out: rt, faults: 0 }
    }
}

impl<R: Print> Sink for StdSink<R> {
    ghost written = { λ _. None };

    ghost faults = { λ s. s };

    fn write(&mut self, from: &[u8]) -> Result<usize, WriteError>
        requires { 0 < length from.now }
        ensures room { IfOk result (λ n. n ≤ length from.now) }
        ensures smooth { IfOk result (λ n. 0 < n → self.new ≡ self.old) }
        ensures stalled { IfOk result (λ n. n ≡ 0 → self.new ≡ one_more self.old) }
        ensures failed { IfErr result (λ e. e ≡ WriteError.Failed → self.new ≡ one_more self.old) }
        ensures memory { IfErr result (λ e. e ≡ WriteError.Memory → self.new ≡ self.old) }
        ensures grows { self.old ≤ self.new }
    {
        let went = write_some(&self.out, from);
        if let Ok(0) | Err(WriteError::Failed) = went {
            self.faults = self.faults.saturating_add(1);
        }
        went
    }
}

// Reads once, and again after each signal.
fn read_some<R: Read>(reader: &mut R, into: &mut [u8]) -> Result<usize, Failed>
    ensures { IfOk result (λ n. n ≤ length into.old) }
{
    for _ in 0..u64::MAX {
        match reader.read(into) {
            Ok(n) => return Ok(n),
            Err(e) if e.kind() == ErrorKind::Interrupted => (),
            Err(_) => return Err(Failed),
        }
    }
    Err(Failed)
}

// Writes once, and again after each signal.
fn write_some<P: Print>(out: &P, from: &[u8]) -> Result<usize, WriteError>
    ensures { IfOk result (λ n. n ≤ length from.now) }
{
    for _ in 0..u64::MAX {
        match out.write_some(from) {
            Ok(n) => return Ok(n),
            Err(e) => match e.kind() {
                ErrorKind::Interrupted => (),
                ErrorKind::OutOfMemory => return Err(WriteError::Memory),
                _ => return Err(WriteError::Failed),
            },
        }
    }
    Err(WriteError::Failed)
}
