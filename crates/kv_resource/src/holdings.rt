//! What a store holds of enlistments, as its transaction manager hears of it.
ghost use Rattle.std.specs.Prelude.{◌≡◌, slice_get};
ghost use Rattle.std.specs.Option.{option_map};
ghost use Rattle.resource_managers.specs.Holding.{holding_of};
ghost use Rattle.kv_resource.specs.Held.{holdings_from};

use crate::record::Record;
use resource_managers::Held;

/// What is held in the open slot at this place among the open ones, from 0. Slot `earlier` and those above it were written by calls of this process.
pub fn held_at(slots: &[Option<Record>], earlier: usize, place: usize) -> Option<Held>
    ensures { option_map holding_of result ≡ slice_get (holdings_from earlier 0 slots.now) place }
{
    let mut left = place;
    for (k, slot) in slots.iter().enumerate() {
        if let Some(r) = slot {
            if left == 0 {
                return Some(r.held(k >= earlier));
            }
            left -= 1;
        }
    }
    None
}
