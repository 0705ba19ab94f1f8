//! An empty store, and puts before a script.
ghost use Rattle.std.specs.Prelude.{◌≡◌, IfOk, OnOk};
ghost use Rattle.store_run.specs.Puts.{AreAllowed, IsBlank, with_puts};

use heard_notes::Put;
use kv_resource::{KV_BYTES, Kv, KvRefusal};
use outside::{Disk, SureDisk};
use std::alloc::{AllocError, Global};

/// An empty store, on a disk in memory that nobody else sees, and that never fails.
///
/// # Errors
///
/// Where no memory was left.
pub fn empty_store(alloc: Global) -> Result<Kv<SureDisk>, AllocError>
    ensures { IfOk result (λ k. IsBlank k.memory) }
{
    let disk = SureDisk::new(alloc, KV_BYTES)?;
    match Kv::format(alloc, disk) {
        Ok(store) => Ok(store),
        Err(_) => Err(AllocError),
    }
}

/// Puts the values, in their order, none of which the store refuses.
///
/// # Errors
///
/// Where no memory was left.
pub fn load<D: Disk>(store: &mut Kv<D>, puts: &[Put]) -> Result<(), AllocError>
    requires { AreAllowed store.old puts.now }
    ensures { OnOk result (store.new ≡ with_puts store.old puts.now) }
{
    for p in puts {
        match store.put(p.transaction, p.enlistment, p.key, p.value) {
            Ok(()) => {}
            Err(KvRefusal::Memory) => return Err(AllocError),
            Err(_) => unreachable!(),
        }
    }
    Ok(())
}
