// A source and a sink in memory that never fail.
ghost use Rattle.std.specs.Prelude.{◌≡◌, ◌<◌, ◌≤◌, ◌++◌, [], length, take, drop, min, Some, IfOk, IfErr, OnOk, OnErr, IsOk};
ghost use Rattle.std.specs.Option.{ForSome};
ghost use Rattle.outside.specs.Faults.{Rose};

use crate::tape::Tape;
use crate::{Failed, Sink, Source, WriteError};
use std::alloc::Global;
use std::marker::Model;

/// A source over bytes in memory that never fails. It tells what is left, and its count of faults is 0.
/// A definition of this project.
///
/// A clause sees it as the bytes that are left.
#[derive(Drop)]
pub struct SureSource {
    tape: Tape,
}

impl Model for SureSource {
    ghost use Rattle.std.specs.Prelude.{ℕ, List};

    ghost Value = { List ℕ };

    ghost view = { λ s. s.tape };
}

impl SureSource {
    /// A source that gives `bytes`, as many in a read as fit.
    pub fn new(bytes: Vec<u8>) -> SureSource
        ensures { result ≡ bytes.items }
    {
        SureSource {
            tape: Tape::new(bytes),
        }
    }
}

impl Source for SureSource {
    ghost left = { λ s. Some s };

    ghost faults = { λ _. 0 };

    fn read(&mut self, into: &mut [u8]) -> Result<usize, Failed>
        requires { 0 < length into.old }
        ensures sure { IsOk result }
        ensures amount { IfOk result (λ n. n ≡ min (length into.old) (length self.old)) }
        ensures bytes { IfOk result (λ n. take n into.new ≡ take n self.old) }
        ensures taken { IfOk result (λ n. self.new ≡ drop n self.old) }
    {
        Ok(self.tape.give(usize::MAX, into))
    }
}

/// A sink in memory that never fails, though memory may run out. It tells what was written, and its count
/// of faults is 0. A definition of this project.
///
/// A clause sees it as the bytes that were written.
#[derive(Drop)]
pub struct SureSink {
    kept: Vec<u8>,
}

impl Model for SureSink {
    ghost use Rattle.std.specs.Prelude.{ℕ, List};

    ghost Value = { List ℕ };

    ghost view = { λ s. s.kept.items };
}

impl SureSink {
    /// An empty sink that takes all that a write gives it.
    pub fn new(alloc: Global) -> SureSink
        ensures { result ≡ [] }
    {
        SureSink {
            kept: Vec::new(alloc),
        }
    }

    /// What was written so far, in order.
    pub fn bytes(&self) -> &[u8]
        ensures kept { result.now ≡ self.now }
        ensures written { ⟦<SureSink as Sink>⟧.written self.now ≡ Some result.now }
    {
        self.kept.as_slice()
    }
}

impl Sink for SureSink {
    ghost written = { λ s. Some s };

    ghost faults = { λ _. 0 };

    fn write(&mut self, from: &[u8]) -> Result<usize, WriteError>
        requires { 0 < length from.now }
        ensures sure { IfErr result (λ e. e ≡ WriteError.Memory) }
        ensures amount { IfOk result (λ n. n ≡ length from.now) }
        ensures added { OnOk result (self.new ≡ self.old ++ from.now) }
        ensures kept { OnErr result (self.new ≡ self.old) }
    {
        match self.kept.extend_from_slice(from) {
            Ok(()) => Ok(from.len()),
            Err(_) => Err(WriteError::Memory),
        }
    }
}
