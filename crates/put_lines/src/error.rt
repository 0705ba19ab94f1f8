//! Why bytes are no input.
ghost use Rattle.std.specs.Prelude.{◌≡◌};
ghost use Rattle.put_lines.specs.declared.error.InputError.TheVariants.{Memory};

use dtx_values::BadCause;
use std::alloc::{AllocError, AllocFailed};

/// Why bytes are no input.
#[derive(Clone, Copy, PartialEq, Eq, Debug)]
pub enum InputError {
    /// The line, from 1, and its first cause.
    Bad(u32, BadCause),
    /// There is no memory.
    Memory,
}

impl From<AllocError> for InputError {
    ghost from_gives = { λ _ e. e ≡ Memory };

    fn from(_e: AllocError) -> InputError {
        InputError::Memory
    }
}

impl<T: Drop> From<AllocFailed<T>> for InputError {
    ghost from_gives = { λ _ e. e ≡ Memory };

    fn from(_e: AllocFailed<T>) -> InputError {
        InputError::Memory
    }
}
