//! Why a run on threads gives no trace.
use dtx_values::Differs;
use std::alloc::AllocError;
use tx_cells::TurnError;

/// Why a run on threads gives no trace.
#[derive(Clone, Copy, PartialEq, Eq, Debug)]
pub enum RunStop {
    /// Memory ran out.
    Memory,
    /// Two kept values differ: the transaction that is wanted and the one that is found in its cell, or the record that a transaction keeps as logged and the one that the log has.
    Differs(Differs),
    /// At the end the transactions aren't those of the script, by number, one of them doesn't follow the log, or a call of a line before `par` doesn't come first.
    Astray,
}

impl From<AllocError> for RunStop {
    ghost use Rattle.std.specs.Prelude.{◌≡◌};
    ghost use Rattle.run_endings.specs.declared.stop.RunStop.TheVariants.{Memory};

    ghost from_gives = { λ _ e. e ≡ Memory };

    fn from(_error: AllocError) -> RunStop {
        RunStop::Memory
    }
}

impl From<TurnError> for RunStop {
    ghost use Rattle.std.specs.Prelude.{◌≡◌};
    ghost use Rattle.run_endings.specs.Stops.{run_stop};

    ghost from_gives = { λ error e. e ≡ run_stop error };

    fn from(error: TurnError) -> RunStop {
        match error {
            TurnError::Memory => RunStop::Memory,
            TurnError::Differs(differs) => RunStop::Differs(differs),
        }
    }
}
