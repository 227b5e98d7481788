//! Why cell outputs have no rows.

use rr_ids::WireId;
use std::alloc::{AllocError, AllocFailed};
use thiserror::Error;

/// Why cell outputs have no rows.
#[derive(Clone, Copy, Debug, PartialEq, Eq, Error)]
pub enum OutputsError {
    /// A wire is an output twice; no lower one is.
    #[error("an output stands twice")]
    Twice(WireId),
    #[error("out of memory")]
    Memory,
}

impl From<AllocError> for OutputsError {
    ghost use Rattle.std.specs.Prelude.{◌≡◌};
    ghost use Rattle.link_rows.specs.declared.errors.OutputsError.TheVariants.{Memory};

    ghost from_gives = { λ _ e. e ≡ Memory };

    fn from(_error: AllocError) -> OutputsError {
        OutputsError::Memory
    }
}

impl<T: Drop> From<AllocFailed<T>> for OutputsError {
    ghost use Rattle.std.specs.Prelude.{◌≡◌};
    ghost use Rattle.link_rows.specs.declared.errors.OutputsError.TheVariants.{Memory};

    ghost from_gives = { λ _ e. e ≡ Memory };

    fn from(_error: AllocFailed<T>) -> OutputsError {
        OutputsError::Memory
    }
}
