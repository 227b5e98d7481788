//! Why a database isn't read.

use rr_ids::Limit;
use std::alloc::{AllocError, AllocFailed};
use thiserror::Error;

/// Why a database isn't read.
#[derive(Clone, Copy, Debug, PartialEq, Eq, Error)]
pub enum DbError {
    /// The number of the first line outside the grammar, from 1.
    #[error("line {0} is outside the grammar")]
    BadLine(u32),
    /// A pattern of more than 32 bits.
    #[error("too many: {0}")]
    TooLarge(Limit),
    /// No memory is left.
    #[error("out of memory")]
    Memory,
}

impl From<AllocError> for DbError {
    ghost use Rattle.std.specs.Prelude.{◌≡◌};
    ghost use Rattle.bits_db.specs.declared.error.DbError.TheVariants.{Memory};

    ghost from_gives = { λ _ e. e ≡ Memory };

    fn from(_error: AllocError) -> DbError {
        DbError::Memory
    }
}

impl<T: Drop> From<AllocFailed<T>> for DbError {
    ghost use Rattle.std.specs.Prelude.{◌≡◌};
    ghost use Rattle.bits_db.specs.declared.error.DbError.TheVariants.{Memory};

    ghost from_gives = { λ _ e. e ≡ Memory };

    fn from(_error: AllocFailed<T>) -> DbError {
        DbError::Memory
    }
}
