//! Why a text has no image.

use crate::faults::TextFault;
use std::alloc::{AllocError, AllocFailed};

/// Why a text has no image.
#[derive(Clone, Copy, Debug)]
pub enum ImageError {
    /// The first line that names what isn't there.
    Fault(TextFault),
    Memory,
}

impl From<AllocError> for ImageError {
    ghost use Rattle.std.specs.Prelude.{◌≡◌};
    ghost use Rattle.text_image.specs.declared.errors.ImageError.TheVariants.{Memory};

    ghost from_gives = { λ _ e. e ≡ Memory };

    fn from(_error: AllocError) -> ImageError {
        ImageError::Memory
    }
}

impl<T: Drop> From<AllocFailed<T>> for ImageError {
    ghost use Rattle.std.specs.Prelude.{◌≡◌};
    ghost use Rattle.text_image.specs.declared.errors.ImageError.TheVariants.{Memory};

    ghost from_gives = { λ _ e. e ≡ Memory };

    fn from(_error: AllocFailed<T>) -> ImageError {
        ImageError::Memory
    }
}
