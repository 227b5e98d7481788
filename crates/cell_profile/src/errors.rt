//! Why a profile isn't read.

use json_values::ListError;
use rr_ids::{Limit, Text};
use std::alloc::{AllocError, AllocFailed};
use thiserror::Error;

/// Why a profile isn't read: the first fault of its bytes.
#[derive(Debug, Drop, Error)]
pub enum ProfileError {
    /// The bytes aren't UTF-8, or no JSON.
    #[error("not JSON")]
    NotJson,
    /// A member of this name, or an element of its list, has another form or breaks a rule, as `slices.0`; `.` where
    /// the whole isn't an object.
    #[error("a member of another form")]
    BadShape(Text),
    /// A slice kind has more tables or registers than a kind may have.
    #[error("too large: {0}")]
    TooLarge(Limit),
    #[error("out of memory")]
    Memory,
}

impl From<AllocError> for ProfileError {
    ghost use Rattle.cell_profile.specs.declared.errors.ProfileError.TheVariants.{Memory};
    ghost use Rattle.std.specs.Prelude.{◌≡◌};

    ghost from_gives = { λ _ e. e ≡ Memory };

    fn from(_error: AllocError) -> ProfileError {
        ProfileError::Memory
    }
}

impl<T: Drop> From<AllocFailed<T>> for ProfileError {
    ghost use Rattle.cell_profile.specs.declared.errors.ProfileError.TheVariants.{Memory};
    ghost use Rattle.std.specs.Prelude.{◌≡◌};

    ghost from_gives = { λ _ e. e ≡ Memory };

    fn from(_error: AllocFailed<T>) -> ProfileError {
        ProfileError::Memory
    }
}

impl From<ListError> for ProfileError {
    ghost use Rattle.cell_profile.specs.Faults.{of_list};
    ghost use Rattle.std.specs.Prelude.{◌≡◌};

    ghost from_gives = { λ error e. e ≡ of_list error };

    fn from(error: ListError) -> ProfileError {
        match error {
            ListError::BadShape(key) => ProfileError::BadShape(key),
            ListError::TooLarge(limit) => ProfileError::TooLarge(limit),
            ListError::Memory => ProfileError::Memory,
        }
    }
}
