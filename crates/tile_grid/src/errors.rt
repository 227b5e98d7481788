//! Why a grid isn't read.

use rr_ids::{Limit, Text};
use std::alloc::{AllocError, AllocFailed};
use thiserror::Error;

/// Why a grid isn't read: the first fault of its bytes.
#[derive(Debug, Drop, Error)]
pub enum GridError {
    /// The bytes aren't UTF-8, or no JSON.
    #[error("not JSON")]
    NotJson,
    /// The tile of this name has another form; `.` where the whole isn't an object.
    #[error("a tile of another form")]
    BadShape(Text),
    /// There are more tiles, types, rows or columns than a grid may have.
    #[error("too large: {0}")]
    TooLarge(Limit),
    #[error("out of memory")]
    Memory,
}

impl From<AllocError> for GridError {
    ghost use Rattle.tile_grid.specs.declared.errors.GridError.TheVariants.{Memory};
    ghost use Rattle.std.specs.Prelude.{◌≡◌};

    ghost from_gives = { λ _ e. e ≡ Memory };

    fn from(_error: AllocError) -> GridError {
        GridError::Memory
    }
}

impl<T: Drop> From<AllocFailed<T>> for GridError {
    ghost use Rattle.tile_grid.specs.declared.errors.GridError.TheVariants.{Memory};
    ghost use Rattle.std.specs.Prelude.{◌≡◌};

    ghost from_gives = { λ _ e. e ≡ Memory };

    fn from(_error: AllocFailed<T>) -> GridError {
        GridError::Memory
    }
}
