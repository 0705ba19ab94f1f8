//! Timeouts and the clock, in milliseconds.
ghost use Rattle.std.specs.Prelude.{◌≡◌};
ghost use Rattle.dtx_model.specs.Answers.{limit_of};
ghost use Rattle.dtx_model.specs.Facts.{reaches, ticked};

use dtx_values::Timeout;

/// A timeout in milliseconds: `default` is one minute, 0 is the most, ten minutes, and no timeout is longer.
pub fn limit_of(d: Timeout) -> u32
    ensures { result ≡ limit_of d }
{
    match d {
        Timeout::Default => 60_000,
        Timeout::Milliseconds(0) => 600_000,
        Timeout::Milliseconds(n) => n.min(600_000),
    }
}

/// The clock after a tick: it stays at the last value of its `u64`.
pub fn ticked(clock: u64, n: u32) -> u64
    ensures { result ≡ ticked clock n }
{
    clock.saturating_add(u64::from(n))
}

/// Whether a tick to n is the first that reaches the timeout.
pub fn reaches(limit: Option<u32>, clock: u64, n: u64) -> bool
    ensures { result ≡ reaches limit clock n }
{
    match limit {
        Some(d) => clock < u64::from(d) && u64::from(d) <= n,
        None => false,
    }
}
