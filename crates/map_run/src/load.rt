//! Puts before a script.
ghost use Rattle.std.specs.Prelude.{◌≡◌, OnOk};
ghost use Rattle.map_run.specs.Puts.{AreAllowed, with_puts};

use heard_notes::Put;
use std::alloc::AllocError;
use tx_map::{MapRefusal, TxMap};

/// Puts the values, in their order, none of which the map refuses.
pub fn load(map: &mut TxMap, puts: &[Put]) -> Result<(), AllocError>
    requires { AreAllowed map.old puts.now }
    ensures { OnOk result (map.new ≡ with_puts map.old puts.now) }
{
    for p in puts {
        match map.put(p.transaction, p.enlistment, p.key, Some(p.value)) {
            Ok(()) => {}
            Err(MapRefusal::Memory) => return Err(AllocError),
            Err(_) => unreachable!(),
        }
    }
    Ok(())
}
