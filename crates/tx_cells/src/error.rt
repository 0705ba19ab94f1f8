//! Why a turn isn't done.
ghost use Rattle.std.specs.Prelude.{◌≡◌};

use dtx_values::Differs;
use std::alloc::AllocError;
use thiserror::Error;
use tx_world::WorldError;

/// Why a turn isn't done.
#[derive(Clone, Copy, PartialEq, Eq, Debug, Error)]
pub enum TurnError {
    /// Memory ran out.
    #[error("out of memory")]
    Memory,
    /// Two kept values differ.
    #[error("two kept values differ")]
    Differs(Differs),
}

impl From<AllocError> for TurnError {
    ghost use Rattle.std.specs.Prelude.{◌≡◌};
    ghost use Rattle.tx_cells.specs.declared.error.TurnError.TheVariants.{Memory};

    ghost from_gives = { λ _ e. e ≡ Memory };

    fn from(_error: AllocError) -> TurnError {
        TurnError::Memory
    }
}

impl From<WorldError> for TurnError {
    ghost use Rattle.std.specs.Prelude.{◌≡◌};
    ghost use Rattle.tx_cells.specs.declared.error.TurnError.TheVariants.{Memory};

    ghost from_gives = { λ _ e. e ≡ Memory };

    fn from(_error: WorldError) -> TurnError {
        TurnError::Memory
    }
}
