//! Why a side file isn't read.

use json_values::ListError;
use rr_ids::{Limit, Name, Text};
use std::alloc::{AllocError, AllocFailed};
use thiserror::Error;

/// Why a side file isn't read: the first fault of its bytes.
#[derive(Debug, Drop, Error)]
pub enum SideError {
    /// The bytes aren't UTF-8, or no JSON.
    #[error("not JSON")]
    NotJson,
    /// A member of this name, or an element of its list, has another form, as `slices.0`; `.` where the whole isn't
    /// an object.
    #[error("a member of another form")]
    BadShape(Text),
    /// There are more slices or pads than a side file may have.
    #[error("too large: {0}")]
    TooLarge(Limit),
    /// A second use: of a cell's name, of a cell's site (with the second cell's name), of an entry of triples, or of a
    /// voter (with its slice).
    #[error("a second use")]
    DuplicateName(Name),
    /// A triple or a voter names what isn't listed as what it is used as.
    #[error("not listed")]
    UnknownName(Name),
    /// A cell is in no triple.
    #[error("in no triple")]
    Unpaired(Name),
    /// An entry of a triple isn't in the domain of its place.
    #[error("in another domain")]
    WrongDomain(Name),
    #[error("out of memory")]
    Memory,
}

impl From<AllocError> for SideError {
    ghost use Rattle.side_file.specs.declared.errors.SideError.TheVariants.{Memory};
    ghost use Rattle.std.specs.Prelude.{◌≡◌};

    ghost from_gives = { λ _ e. e ≡ Memory };

    fn from(_error: AllocError) -> SideError {
        SideError::Memory
    }
}

impl<T: Drop> From<AllocFailed<T>> for SideError {
    ghost use Rattle.side_file.specs.declared.errors.SideError.TheVariants.{Memory};
    ghost use Rattle.std.specs.Prelude.{◌≡◌};

    ghost from_gives = { λ _ e. e ≡ Memory };

    fn from(_error: AllocFailed<T>) -> SideError {
        SideError::Memory
    }
}

impl From<ListError> for SideError {
    ghost use Rattle.side_file.specs.Faults.{of_list};
    ghost use Rattle.std.specs.Prelude.{◌≡◌};

    ghost from_gives = { λ error e. e ≡ of_list error };

    fn from(error: ListError) -> SideError {
        match error {
            ListError::BadShape(key) => SideError::BadShape(key),
            ListError::TooLarge(limit) => SideError::TooLarge(limit),
            ListError::Memory => SideError::Memory,
        }
    }
}
