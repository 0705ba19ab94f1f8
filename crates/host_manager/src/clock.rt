//! The clock of a host.
ghost use Rattle.std.specs.Prelude.{◌≡◌};

use outside::Clock;

/// The clock of a manager whose host has the time itself: it reads 0 always. [`HostManager::tick`] lets the time of a transaction go on.
///
/// [`HostManager::tick`]: crate::HostManager::tick
#[derive(Clone, Copy, PartialEq, Eq, Debug)]
pub struct HostClock;

impl Clock for HostClock {
    ghost reads = { λ old ms new. (ms ≡ 0) × (new ≡ old) };

    fn now(&mut self) -> u64 {
        0
    }
}
