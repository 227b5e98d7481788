//! Why files aren't read.

ghost use Rattle.design_reader.specs.Errors.{Tells, TellsUnread};
ghost use Rattle.report_text.specs.Refused.{refusal_view};

use replies::unread_text;
use report_text::{Refusal, refused_text};
use std::alloc::{AllocError, Global};
use thiserror::Error;

/// Why files aren't read, with the whole text that is printed of it.
#[derive(Debug, Drop, Error)]
pub enum FileError {
    /// `refused NUMBER NAME ARGS`: the first file that is missing, too long or faulty.
    #[error("a file is refused")]
    Refused(Vec<u8>),
    /// `read fault NAME`: a read of this file failed.
    #[error("a read of a file failed")]
    Unread(Vec<u8>),
    #[error("out of memory")]
    Memory,
}

impl From<AllocError> for FileError {
    ghost use Rattle.std.specs.Prelude.{◌≡◌};
    ghost use Rattle.design_reader.specs.declared.errors.FileError.TheVariants.{Memory};

    ghost from_gives = { λ _ e. e ≡ Memory };

    fn from(_error: AllocError) -> FileError {
        FileError::Memory
    }
}

/// The error that tells a refusal.
pub(crate) fn refused(alloc: Global, refusal: Refusal<'_>) -> FileError
    ensures { Tells (refusal_view refusal.entry) result }
{
    match refused_text(alloc, refusal) {
        Ok(text) => FileError::Refused(text),
        Err(_) => FileError::Memory,
    }
}

/// The error that tells of a file whose read failed.
pub(crate) fn unread(alloc: Global, name: &str) -> FileError
    ensures { TellsUnread name.now result }
{
    match unread_text(alloc, name) {
        Ok(text) => FileError::Unread(text),
        Err(_) => FileError::Memory,
    }
}
