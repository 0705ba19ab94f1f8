//! Why a call of a world isn't done.
use std::alloc::AllocError;
use thiserror::Error;

/// Why a call of a world isn't done.
#[derive(Clone, Copy, PartialEq, Eq, Debug, Error)]
pub enum WorldError {
    /// Memory ran out.
    #[error("out of memory")]
    Memory,
}

impl From<AllocError> for WorldError {
    ghost use Rattle.std.specs.Prelude.{◌≡◌};
    ghost use Rattle.tx_world.specs.declared.refusal.WorldError.TheVariants.{Memory};

    ghost from_gives = { λ _ e. e ≡ Memory };

    fn from(_error: AllocError) -> WorldError {
        WorldError::Memory
    }
}
