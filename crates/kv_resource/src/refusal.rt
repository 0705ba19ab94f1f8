//! Why a store doesn't do what it is asked.
use dtx_values::{EnlNo, TxId};
use outside::Failed;

/// Why a call of a store didn't do its work.
#[derive(Clone, Copy, PartialEq, Eq, Debug)]
pub enum KvRefusal {
    /// A call of the disk met a fault.
    Fault,
    /// The bytes are no store; the first place, from 0, of another form.
    NotAStore(u64),
    /// The store is stopped: a call of its disk met a fault in an earlier call.
    Stopped,
    /// The enlistment has prepared.
    Prepared(TxId, EnlNo),
    /// Another enlistment wrote the key, and has neither committed nor rolled back.
    Busy(TxId, EnlNo),
    /// The enlistment wrote as many other keys as it may.
    TooMany(u8),
    /// Memory ran out.
    Memory,
}

impl From<Failed> for KvRefusal {
    ghost use Rattle.std.specs.Prelude.{◌≡◌};
    ghost use Rattle.kv_resource.specs.declared.refusal.KvRefusal.TheVariants.{Fault};

    ghost from_gives = { λ _ e. e ≡ Fault };

    fn from(_fault: Failed) -> KvRefusal {
        KvRefusal::Fault
    }
}
