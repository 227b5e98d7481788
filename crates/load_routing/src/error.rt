//! Why a design isn't loaded.

ghost use Rattle.load_routing.specs.Refused.{IsRefusal};
ghost use Rattle.report_text.specs.Refused.{refusal_view};

use report_text::{Refusal, refused_text};
use std::alloc::{AllocError, AllocFailed, Global};
use thiserror::Error;

/// Why a design isn't loaded.
#[derive(Debug, Drop, Error)]
pub enum LoadError {
    /// A check refuses the design; its whole line as it is printed.
    #[error("refused")]
    Refused(Vec<u8>),
    #[error("out of memory")]
    Memory,
}

impl From<AllocError> for LoadError {
    ghost use Rattle.std.specs.Prelude.{◌≡◌};
    ghost use Rattle.load_routing.specs.declared.error.LoadError.TheVariants.{Memory};

    ghost from_gives = { λ _ e. e ≡ Memory };

    fn from(_error: AllocError) -> LoadError {
        LoadError::Memory
    }
}

impl<T: Drop> From<AllocFailed<T>> for LoadError {
    ghost use Rattle.std.specs.Prelude.{◌≡◌};
    ghost use Rattle.load_routing.specs.declared.error.LoadError.TheVariants.{Memory};

    ghost from_gives = { λ _ e. e ≡ Memory };

    fn from(_error: AllocFailed<T>) -> LoadError {
        LoadError::Memory
    }
}

/// The line of a refusal as an error.
pub fn refuse(alloc: Global, refusal: Refusal<'_>) -> LoadError
    ensures { IsRefusal (refusal_view refusal.entry) result }
{
    match refused_text(alloc, refusal) {
        Ok(text) => LoadError::Refused(text),
        Err(_) => LoadError::Memory,
    }
}
