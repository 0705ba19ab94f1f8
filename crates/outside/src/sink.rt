// What is written.
ghost use Rattle.std.specs.Prelude.{◌≡◌, ◌<◌, ◌≤◌, ◌++◌, ℕ, List, Option, length, take, IfOk, IfErr, OnErr};
ghost use Rattle.std.specs.Option.{ForSome};
ghost use Rattle.outside.specs.Faults.{Rose};

use crate::WriteError;

/// Where bytes go.
///
/// What was written so far is told or not, and no call changes which. The rules are a definition of
/// this project.
pub trait Sink {
    /// The bytes that were written so far, in order, or none where the sink doesn't tell them.
    ghost written: { Self → Option (List ℕ) };

    /// How many calls met a fault, where the count stays at the last value of a `u64`.
    ghost faults: { Self → ℕ };

    /// Writes bytes from the start of `from`, which isn't empty, and returns how many were written.
    ///
    /// `Ok(n)` has `n` at most the length of `from`. Where what was written is told, the first `n` bytes
    /// of `from` now stand at its end. `Ok(0)` counts as a fault: the count of faults rose.
    ///
    /// # Errors
    ///
    /// - [`WriteError::Failed`], only where the count of faults rose.
    /// - [`WriteError::Memory`] where no memory was left.
    ///
    /// What was written stays at both.
    fn write(&mut self, from: &[u8]) -> Result<usize, WriteError>
        requires { 0 < length from.now }
        ensures room { IfOk result (λ n. n ≤ length from.now) }
        ensures added { IfOk result (λ n. ForSome (written self.old)
            (λ w. written self.new ≡ Some (w ++ take n from.now))) }
        ensures untold { written self.old ≡ None → written self.new ≡ None }
        ensures kept { OnErr result (written self.new ≡ written self.old) }
        ensures smooth { IfOk result (λ n. 0 < n → faults self.new ≡ faults self.old) }
        ensures memory { IfErr result (λ e. e ≡ WriteError.Memory → faults self.new ≡ faults self.old) }
        ensures grows { faults self.old ≤ faults self.new }
        ensures cause { IfErr result
            (λ e. e ≡ WriteError.Failed → Rose (faults self.old) (faults self.new)) }
        ensures stalled { IfOk result (λ n. n ≡ 0 → Rose (faults self.old) (faults self.new)) };
}
