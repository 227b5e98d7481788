//! Why muxes or arcs aren't numbered.

use std::alloc::{AllocError, AllocFailed};
use thiserror::Error;

/// Why muxes or arcs aren't numbered.
#[derive(Clone, Copy, Debug, PartialEq, Eq, Error)]
pub enum CountError {
    /// There are more than a graph may have.
    #[error("too many")]
    TooMany,
    #[error("out of memory")]
    Memory,
}

impl From<AllocError> for CountError {
    ghost use Rattle.std.specs.Prelude.{◌≡◌};
    ghost use Rattle.device_numbers.specs.declared.errors.CountError.TheVariants.{Memory};

    ghost from_gives = { λ _ e. e ≡ Memory };

    fn from(_error: AllocError) -> CountError {
        CountError::Memory
    }
}

impl<T: Drop> From<AllocFailed<T>> for CountError {
    ghost use Rattle.std.specs.Prelude.{◌≡◌};
    ghost use Rattle.device_numbers.specs.declared.errors.CountError.TheVariants.{Memory};

    ghost from_gives = { λ _ e. e ≡ Memory };

    fn from(_error: AllocFailed<T>) -> CountError {
        CountError::Memory
    }
}
