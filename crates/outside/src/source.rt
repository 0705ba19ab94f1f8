// What is read.
ghost use Rattle.std.specs.Prelude.{◌≡◌, ◌<◌, ◌≤◌, ℕ, List, Option, [], length, take, drop, IfOk, OnOk, OnErr};
ghost use Rattle.std.specs.Option.{ForSome};
ghost use Rattle.outside.specs.Faults.{Rose};

use crate::Failed;

/// Where bytes come from.
///
/// What is left to read is told or not, and no call changes which. The rules are a definition of this
/// project.
pub trait Source {
    /// The bytes that are left to read, in order, or none where the source doesn't tell them.
    ghost left: { Self → Option (List ℕ) };

    /// How many calls met a fault, where the count stays at the last value of a `u64`.
    ghost faults: { Self → ℕ };

    /// Reads bytes into the start of `into`, which isn't empty, and returns how many came.
    ///
    /// `Ok(n)` has `n` at most the length of `into`. Where what is left is told, its first `n` bytes now
    /// stand in `into` and are left no more. `Ok(0)` is the end of the input: nothing is left.
    ///
    /// # Errors
    ///
    /// [`Failed`], only where the count of faults rose. What is left then stays, and what `into` holds is
    /// open.
    fn read(&mut self, into: &mut [u8]) -> Result<usize, Failed>
        requires { 0 < length into.old }
        ensures room { IfOk result (λ n. n ≤ length into.old) }
        ensures bytes { IfOk result (λ n. ForSome (left self.old) (λ b. take n into.new ≡ take n b)) }
        ensures within { IfOk result (λ n. ForSome (left self.old) (λ b. n ≤ length b)) }
        ensures taken { IfOk result (λ n. ForSome (left self.old) (λ b. left self.new ≡ Some (drop n b))) }
        ensures finished { IfOk result (λ n. ForSome (left self.old) (λ b. n ≡ 0 → b ≡ [])) }
        ensures untold { left self.old ≡ None → left self.new ≡ None }
        ensures kept { OnErr result (left self.new ≡ left self.old) }
        ensures smooth { OnOk result (faults self.new ≡ faults self.old) }
        ensures grows { faults self.old ≤ faults self.new }
        ensures cause { OnErr result (Rose (faults self.old) (faults self.new)) };
}
