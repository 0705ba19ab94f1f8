// A source and a sink in memory, with calls that fail where one says so.
ghost use Rattle.std.specs.Prelude.{◌≡◌, ◌<◌, ◌≤◌, ◌↔◌, ◌++◌, [], length, take, drop, min, true, false, Some, IfOk, IfErr, OnOk, OnErr, IsErr, IsErrOf};
ghost use Rattle.std.specs.Option.{ForSome};
ghost use Rattle.outside.specs.Faults.{Rose};
ghost use Rattle.outside.specs.Memory.{FailsNext, counted};

use crate::plan::Plan;
use crate::tape::Tape;
use crate::{Failed, Sink, Source, WriteError};
use std::alloc::Global;
use std::marker::Model;

/// A source over bytes in memory, whose calls fail where one says so. It tells what is left. A definition
/// of this project.
///
/// A clause sees it as a `Feed`: the bytes that are left, how many a read gives at most, and its calls.
/// A read that doesn't fail gives as many bytes as a piece has, as fit and as are left.
#[derive(Drop)]
pub struct MemSource {
    tape: Tape,
    most: usize,
    plan: Plan,
}

impl Model for MemSource {
    ghost use Rattle.std.specs.Prelude.{◌≤◌};
    ghost use Rattle.outside.specs.Memory.{Feed};

    ghost Value = { Feed };

    ghost view = { λ s. record { left = s.tape; piece = s.most; calls = s.plan } };

    ghost invariant = { λ s. 1 ≤ s.most };
}

impl MemSource {
    /// A source that gives `bytes`, at most `piece` of them in a read, where `piece` is at least 1.
    ///
    /// Its calls are numbered from 1, in order of calling. A call whose number is in `fail` answers
    /// [`Failed`] and does nothing but count.
    pub fn new(bytes: Vec<u8>, piece: usize, fail: Vec<u64>) -> MemSource
        requires { 1 ≤ piece }
        ensures left { result.left ≡ bytes.items }
        ensures piece { result.piece ≡ piece }
        ensures calls { result.calls ≡ record { fail = fail.items; came = 0; failed = 0 } }
    {
        MemSource {
            tape: Tape::new(bytes),
            most: piece,
            plan: Plan::new(fail),
        }
    }
}

impl Source for MemSource {
    ghost left = { λ s. Some s.left };

    ghost faults = { λ s. s.calls.failed };

    fn read(&mut self, into: &mut [u8]) -> Result<usize, Failed>
        requires { 0 < length into.old }
        ensures planned { IsErr result ↔ FailsNext self.old.calls }
        ensures amount { IfOk result
            (λ n. n ≡ min self.old.piece (min (length into.old) (length self.old.left))) }
        ensures bytes { IfOk result (λ n. take n into.new ≡ take n self.old.left) }
        ensures taken { IfOk result (λ n. self.new ≡ record self.old {
          left = drop n self.old.left;
          calls = counted false self.old.calls;
        }) }
        ensures finished { IfOk result (λ n. n ≡ 0 → self.old.left ≡ []) }
        ensures failed { OnErr result
            (self.new ≡ record self.old { calls = counted true self.old.calls }) }
        ensures grows { self.old.calls.failed ≤ self.new.calls.failed }
    {
        self.plan.call()?;
        Ok(self.tape.give(self.most, into))
    }
}

/// A sink in memory, whose calls fail where one says so. It tells what was written. A definition of this
/// project.
///
/// A clause sees it as a `Store`: the bytes that were written, how many a write takes at most, and its
/// calls. A write that doesn't fail takes as many bytes as a piece has and as there are.
#[derive(Drop)]
pub struct MemSink {
    kept: Vec<u8>,
    most: usize,
    plan: Plan,
}

impl Model for MemSink {
    ghost use Rattle.std.specs.Prelude.{◌≤◌};
    ghost use Rattle.outside.specs.Memory.{Store};

    ghost Value = { Store };

    ghost view = { λ s. record { written = s.kept.items; piece = s.most; calls = s.plan } };

    ghost invariant = { λ s. 1 ≤ s.most };
}

impl MemSink {
    /// An empty sink that takes at most `piece` bytes in a write, where `piece` is at least 1.
    ///
    /// Its calls are numbered from 1, in order of calling. A call whose number is in `fail` answers
    /// [`WriteError::Failed`] and does nothing but count. A call that answers [`WriteError::Memory`] does
    /// nothing at all, so the next one has its number.
    pub fn new(alloc: Global, piece: usize, fail: Vec<u64>) -> MemSink
        requires { 1 ≤ piece }
        ensures empty { result.written ≡ [] }
        ensures piece { result.piece ≡ piece }
        ensures calls { result.calls ≡ record { fail = fail.items; came = 0; failed = 0 } }
    {
        MemSink {
            kept: Vec::new(alloc),
            most: piece,
            plan: Plan::new(fail),
        }
    }

    /// What was written so far, in order.
    pub fn bytes(&self) -> &[u8]
        ensures kept { result.now ≡ self.now.written }
        ensures written { ⟦<MemSink as Sink>⟧.written self.now ≡ Some result.now }
    {
        self.kept.as_slice()
    }
}

impl Sink for MemSink {
    ghost written = { λ s. Some s.written };

    ghost faults = { λ s. s.calls.failed };

    fn write(&mut self, from: &[u8]) -> Result<usize, WriteError>
        requires { 0 < length from.now }
        ensures planned { IsErrOf result WriteError.Failed ↔ FailsNext self.old.calls }
        ensures amount { IfOk result (λ n. n ≡ min self.old.piece (length from.now)) }
        ensures added { IfOk result (λ n. self.new ≡ record self.old {
          written = self.old.written ++ take n from.now;
          calls = counted false self.old.calls;
        }) }
        ensures moves { IfOk result (λ n. 0 < n) }
        ensures failed { IfErr result (λ e. e ≡ WriteError.Failed →
            self.new ≡ record self.old { calls = counted true self.old.calls }) }
        ensures unchanged { IfErr result (λ e. e ≡ WriteError.Memory → self.new ≡ self.old) }
        ensures grows { self.old.calls.failed ≤ self.new.calls.failed }
    {
        if self.plan.fails() {
            self.plan.count(true);
            return Err(WriteError::Failed);
        }
        let n = self.most.min(from.len());
        if self.kept.extend_from_slice(&from[..n]).is_err() {
            return Err(WriteError::Memory);
        }
        self.plan.count(false);
        Ok(n)
    }
}
