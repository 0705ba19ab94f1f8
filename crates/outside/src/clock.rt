// What time it is.
ghost use Rattle.std.specs.Prelude.{◌≡◌, ◌+◌, slice_index_or};

use std::time;

/// A clock, which counts milliseconds from a start of its own.
///
/// Nothing is promised of two readings: a clock may go back. Who uses one takes a reading below the one
/// before as that one again. The rules are a definition of this project.
pub trait Clock {
    ghost use Rattle.std.specs.Prelude.{ℕ};

    /// The clock before a reading, what it read, and the clock after it.
    ghost reads: { Self → ℕ → Self → Type 0 };

    /// The milliseconds since the start.
    fn now(&mut self) -> u64
        ensures { reads self.old result self.new };
}

/// The clock of the system, from its last start on. It tells nothing of its readings. A definition of this
/// project.
///
/// Where the system can't say what time it is, it reads as it did before.
#[derive(Drop)]
pub struct SystemClock<R> {
    rt: R,
    last: u64,
}

impl<R: time::Clock> SystemClock<R> {
    /// The clock of the runtime.
    pub fn new(rt: R) -> SystemClock<R> {
        SystemClock { rt, last: 0 }
    }
}

impl<R: time::Clock> Clock for SystemClock<R> {
    ghost reads = { λ old ms new. Unit {0} };

    fn now(&mut self) -> u64 {
        if let Ok(since) = self.rt.monotonic() {
            self.last = u64::try_from(since.as_millis()).unwrap_or(u64::MAX);
        }
        self.last
    }
}

/// A clock with a list of readings, in order, for tests. After the last of them it reads 0. A definition of
/// this project.
#[derive(Drop)]
pub struct MemClock {
    readings: Vec<u64>,
    next: usize,
}

impl MemClock {
    /// The clock that reads these.
    pub fn new(readings: Vec<u64>) -> MemClock {
        MemClock { readings, next: 0 }
    }
}

impl Clock for MemClock {
    ghost reads = { λ old ms new. (ms ≡ slice_index_or old.readings.items old.next 0) × (new.readings ≡ old.readings) };

    fn now(&mut self) -> u64 {
        let Some(reading) = self.readings.get(self.next).copied() else {
            return 0;
        };
        self.next += 1;
        reading
    }
}
