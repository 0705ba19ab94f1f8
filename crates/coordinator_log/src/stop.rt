//! A stop that is armed.
ghost use Rattle.std.specs.Prelude.{◌≡◌};
ghost use Rattle.coordinator_log.specs.Stop.{after_calls, stop_in};

use outside::Image;

/// A stop at one of the writes and syncs of the appends and frees that come.
#[derive(Clone, Copy, PartialEq, Eq, Debug)]
pub struct ArmedStop {
    /// How many of these calls pass before the one at which it stops.
    pub passes: u8,
    /// What the crash is to leave.
    pub image: Image,
}

/// Counts a call. It gives the image of a stop that is reached at this call, and that is armed no more.
pub fn reached(armed: &mut Option<ArmedStop>) -> Option<Image>
    ensures image { result ≡ stop_in 1 armed.old }
    ensures counted { armed.new ≡ after_calls 1 armed.old }
{
    let stop = (*armed)?;
    if stop.passes == 0 {
        *armed = None;
        return Some(stop.image);
    }
    *armed = Some(ArmedStop {
        passes: stop.passes - 1,
        image: stop.image,
    });
    None
}
